//! Levelling: the book, and how it is made.
#![tactic(auto)]

mod aside;
pub mod book;
mod detours;
mod entries;
pub mod entry;
mod full;
pub mod levels;
mod links;
mod near;
mod needed;
mod needs;
mod prices;
mod reach;
mod rounds;
mod start;
mod visit;

pub use book::Book;
pub use entry::Entry;
pub use full::Full;
pub use levels::Levels;
pub use rounds::level;
