//! Routing over a levelled ground: climbing, the search, and the layout of what it finds.
#![tactic(auto)]

pub mod climb;
pub mod find;
pub mod laid;
pub mod layout;
mod relevant;
mod routes;

pub use laid::Laid;
pub use routes::route;
