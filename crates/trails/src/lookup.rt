//! Finding the record of a pair of places.
ghost use Rattle.std.specs.Prelude.{◌≡◌};
ghost use Rattle.trails.specs.Trails.{names, found};

use crate::Record;
use cost::Cost;

impl<C> Record<C> {
    /// Whether this record names the two places, in either order.
    pub fn names(&self, from: usize, to: usize) -> bool
        ensures { result ≡ names self.now from to }
    {
        self.from == from && self.to == to || self.from == to && self.to == from
    }
}

/// The cost of the earliest record that names the two places in either order, or none. It refuses nothing.
pub fn cost_between<C: Cost>(records: &[Record<C>], from: usize, to: usize) -> Option<C>
    ensures { result ≡ found records.now from to }
{
    let is_named = |record: &&Record<C>| -> bool
        ensures { result ≡ names record.now.now from to }
    { record.names(from, to) };
    let named = records.iter().find(is_named);
    named.map(|record| record.cost)
}
