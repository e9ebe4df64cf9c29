//! Trail lists: places that are joined by records of what each way costs.
#![tactic(auto)]

use ground::places::Places;

mod check;
mod lookup;
mod ways;

pub use check::check_list;
pub use lookup::cost_between;

/// Two places and what the way between them costs, in either direction.
#[derive(Clone, Copy)]
pub struct Record<C> {
    pub from: usize,
    pub to: usize,
    pub cost: C,
}

/// A ground whose ways are given by a list of records.
#[derive(Drop)]
pub struct TrailList<'a, C> {
    places: Places,
    records: &'a [Record<C>],
}
