//! A trail list is a ground.
ghost use Rattle.std.specs.Prelude.{◌≡◌, false, None};
ghost use Rattle.ground.specs.Marks.{size_in, shut_in};
ghost use Rattle.trails.specs.Trails.{list_refusal, list_size, trail_chart, ByRecords};
ghost use Rattle.trails.specs.TrailLaws.{trail_laws};

use crate::{Record, TrailList, check_list, cost_between};
use cost::Cost;
use ground::places::Places;
use ground::{Ground, Refusal};

impl<'a, C: Cost> TrailList<'a, C> {
    /// The ground of `size` places, all free, whose ways are given by these records. Where `check_list` refuses them, it is the
    /// ground with no places.
    pub fn new(size: usize, records: &'a [Record<C>]) -> TrailList<'a, C>
        ensures size { size_in result.places ≡ list_size C.Cost.way size records.now }
        ensures shut { shut_in result.places ≡ (λ k. false) }
        ensures chart { trail_chart C.Cost.way (size_in result.places) result.records.now ≡ trail_chart C.Cost.way (list_size C.Cost.way size records.now) records.now }
        ensures accepted { list_refusal C.Cost.way size records.now ≡ None → ByRecords records.now (trail_chart C.Cost.way (size_in result.places) result.records.now) }
    {
        let accepted = match check_list(size, records) {
            Ok(()) => size,
            Err(_) => 0,
        };
        TrailList {
            places: Places::all_free(accepted),
            records,
        }
    }
}

impl<'a, C: Cost> Ground for TrailList<'a, C> {
    type C = C;

    ghost size = { λ g. size_in g.places };

    ghost shuts = { λ g. shut_in g.places };

    ghost chart = { λ g. trail_chart C.Cost.way (size_in g.places) g.records.now };

    ghost laws = { λ g. trail_laws C.Cost.way g.places g.records.now };

    // These four calls go to the places, here and in sheets: one ground over any ways would need a trait of ways with laws of its own.
    fn size(&self) -> usize {
        self.places.size()
    }

    fn is_shut(&self, place: usize) -> bool {
        self.places.is_shut(place)
    }

    fn way(&self, from: usize, to: usize) -> Option<C> {
        if from == to || !self.places.is_free(from) || !self.places.is_free(to) {
            return None;
        }
        // The records may be any, so the cost is tested here too.
        cost_between(self.records, from, to).filter(|cost| cost.is_way_cost())
    }

    fn shut(&mut self, place: usize) -> Result<(), Refusal> {
        self.places.shut(place)
    }

    fn clear(&mut self, place: usize) -> Result<(), Refusal> {
        self.places.clear(place)
    }
}
