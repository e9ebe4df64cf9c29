//! What can be reached from a place within a bound.
ghost use Rattle.std.specs.Prelude.{◌<◌, ◌≤◌, length};
ghost use Rattle.frontier.specs.Fronts.{Inside};
ghost use Rattle.levelling.specs.Reach.{ReachedWithin};

use cost::Cost;
use frontier::{Frontier, Steps};
use hierarchy::SearchRecord;

/// What a search from `start` among `size` places tells of each, as far as the bound: the places to which some walk costs at most that
/// are settled, at the cost of the least walk.
pub(crate) fn records_within<S: Steps>(
    graph: &S,
    size: usize,
    start: usize,
    bound: S::C,
) -> [SearchRecord<S::C>; 256]
    requires rows { size ≤ 256 }
    requires on { start < size }
    requires inside { Inside size (S.Steps.step graph.now) }
    ensures { ReachedWithin S.C.Cost (S.Steps.step graph.now) size start bound result }
{
    let mut records = [SearchRecord::default(); 256];
    reach_in(graph, start, bound, &mut records[..size]);
    records
}

// Searches in a table that has a record for each place and no other.
fn reach_in<S: Steps>(graph: &S, start: usize, bound: S::C, table: &mut [SearchRecord<S::C>])
    requires rows { length table.old ≤ 256 }
    requires on { start < length table.old }
    requires inside { Inside (length table.old) (S.Steps.step graph.now) }
    ensures { ReachedWithin S.C.Cost (S.Steps.step graph.now) (length table.old) start bound table.new }
{
    let mut frontier = Frontier::<S::C, 256>::begin(table, start);
    while let Some(place) = frontier.nearest() {
        if bound.is_less(frontier.cost(place)) {
            return;
        }
        frontier.settle(graph, place);
    }
}
