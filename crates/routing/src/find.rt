//! The search of a route, and the chain of places that it found.
ghost use Rattle.std.specs.Prelude.{◌≡◌, ◌<◌, ◌≤◌, length};
ghost use Rattle.hierarchy.specs.Searches.{search_on, table_after};
ghost use Rattle.frontier.specs.Fronts.{Inside};
ghost use Rattle.frontier.specs.Searching.{size as size_of, front};
ghost use Rattle.routing.specs.Found.{whole_search, predecessor_in, chain_in, places_of};

use cost::Cost;
use frontier::{Frontier, Steps};
use hierarchy::SearchRecord;

/// A chain of places, in order: `places` from `first` on.
// an array with its beginning and no `ArrayVec`, which is not `Copy`
#[derive(Clone, Copy)]
pub struct Chain {
    pub places: [usize; 257],
    pub first: usize,
}

impl Chain {
    /// The places in their order.
    pub fn places(&self) -> &[usize]
        ensures places { result.now ≡ places_of self.now }
        ensures few { length result.now ≤ 257 }
    {
        self.places.get(self.first..).unwrap_or(&[])
    }
}

/// Searches from `start` to `goal` among `size` places, and says whether the goal is settled. The table keeps the settled places.
pub fn find<S: Steps>(
    graph: &S,
    size: usize,
    start: usize,
    goal: usize,
    table: &mut [SearchRecord<S::C>],
) -> bool
    requires rows { (size ≤ 256) × (size ≤ length table.old) }
    requires ends { (start < size) × (goal < size) }
    requires inside { Inside size (S.Steps.step graph.now) }
    ensures table { table.new ≡ table_after (whole_search S.C.Cost (S.Steps.step graph.now) size start goal) size table.old }
    ensures found { result ≡ (whole_search S.C.Cost (S.Steps.step graph.now) size start goal).settled goal }
{
    find_in(graph, start, goal, &mut table[..size])
}

/// The chain from `start` to `goal` that the predecessors in a table lead back along, in at most `size` steps.
pub fn chain_back<C: Cost>(
    table: &[SearchRecord<C>],
    size: usize,
    start: usize,
    goal: usize,
) -> Chain
    requires { size ≤ 256 }
    ensures places { places_of result ≡ chain_in C.Cost table.now start size goal }
    ensures first { result.first ≤ 256 }
{
    // predecessors lead from the goal back, so the places are written from the last on
    let mut chain = Chain {
        places: [goal; 257],
        first: 256,
    };
    // at most `size` steps, so that predecessors that go in a circle come to an end too
    for _step in 0..size {
        let place = chain.places[chain.first];
        if place == start {
            return chain;
        }
        chain.first -= 1;
        chain.places[chain.first] = predecessor(table, place);
    }
    chain
}

// The search in a table that has a record for each place and no other.
fn find_in<S: Steps>(graph: &S, start: usize, goal: usize, table: &mut [SearchRecord<S::C>]) -> bool
    requires rows { length table.old ≤ 256 }
    requires ends { (start < length table.old) × (goal < length table.old) }
    requires inside { Inside (length table.old) (S.Steps.step graph.now) }
    ensures table { let n = length table.old in table.new ≡ table_after (whole_search S.C.Cost (S.Steps.step graph.now) n start goal) n table.old }
    ensures found { result ≡ (whole_search S.C.Cost (S.Steps.step graph.now) (length table.old) start goal).settled goal }
{
    let mut frontier = Frontier::<S::C, 256>::begin(table, start);
    let found = settle_until(graph, goal, &mut frontier);
    frontier.finish();
    found
}

// Settles the nearest place until the goal is settled or nothing waits, and says whether the goal is settled.
fn settle_until<S: Steps, const N: usize>(
    graph: &S,
    goal: usize,
    frontier: &mut Frontier<'_, S::C, N>,
) -> bool
    requires on { goal < size_of frontier.old }
    requires inside { Inside (size_of frontier.old) (S.Steps.step graph.now) }
    ensures same_reference { frontier.new.table.ghost_name ≡ frontier.old.table.ghost_name }
    ensures size { size_of frontier.new ≡ size_of frontier.old }
    ensures front { let n = size_of frontier.old in front S.C.Cost frontier.new ≡ search_on (S.Steps.step graph.now) n goal n (front S.C.Cost frontier.old) }
    ensures found { result ≡ (front S.C.Cost frontier.new).settled goal }
{
    while !frontier.is_settled(goal) {
        let Some(place) = frontier.nearest() else {
            return false;
        };
        frontier.settle(graph, place);
    }
    true
}

// From where a place was reached; 0 of a place that has no record.
fn predecessor<C: Cost>(table: &[SearchRecord<C>], place: usize) -> usize
    ensures { result ≡ predecessor_in C.Cost table.now place }
{
    table.get(place).map_or(0, |record| record.predecessor)
}
