//! Which pairs of neighbours of a visited place need a shortcut.
ghost use Rattle.std.specs.Prelude.{◌≡◌, ℕ, ◌<◌, true, false, slice_index_or};
ghost use Rattle.levelling.specs.Meaning.{meaning};
ghost use Rattle.levelling.specs.Near.{is_near, MarksNear};
ghost use Rattle.levelling.specs.Needs.{MarksNeed, is_open, is_beyond, Covers, Beyond};
ghost use Rattle.levelling.specs.Priced.{reached_within};

use crate::detours::Detours;
use crate::links::BookLinks;
use crate::prices::{dearer, is_at_most};
use crate::reach::records_within;
use crate::visit::Visit;
use cost::Cost;
use hierarchy::SearchRecord;
use std::array::from_fn;

impl<'a, C: Cost> Visit<'a, C> {
    /// Marks the later neighbours that need a shortcut from `first`: those to which no arching chain without the visited place
    /// costs at most the two links by it.
    pub(crate) fn needs_from(&self, near: &[bool; 256], first: usize) -> [bool; 256]
        requires on { first < self.now.links.size }
        requires near { is_near self.now.links.size (meaning C.Cost self.now.links.book.now) self.now.lower self.now.middle first ≡ true }
        requires marked { MarksNear self.now.links.size (meaning C.Cost self.now.links.book.now) self.now.lower self.now.middle near.now }
        ensures { MarksNeed self.now.links.size (meaning C.Cost self.now.links.book.now) self.now.lower self.now.middle first result }
    {
        let candidates = self.open_pairs(near, first);
        match self.dearest(first, &candidates) {
            None => candidates,
            Some(bound) => self.beyond_detours(first, bound, &candidates),
        }
    }

    // Marks the later neighbours whose link to `first` does not do. One link is an arching chain, so that no search is wanted
    // for others.
    fn open_pairs(&self, near: &[bool; 256], first: usize) -> [bool; 256]
        ensures { (x : ℕ) → x < self.now.links.size → slice_index_or result x false ≡ is_open C.Cost self.now.links.size (meaning C.Cost self.now.links.book.now) self.now.middle first near.now x }
    {
        let is_open = |second: usize|
            requires { second < 256 }
            ensures { result ≡ is_open C.Cost self.entry.now.links.size (meaning C.Cost self.entry.now.links.book.now) self.entry.now.middle first near.entry.now second }
        {
            second > first
                && near[second]
                && !is_at_most(
                    self.links.link(first, second),
                    self.by_way_of(first, second),
                )
        };
        from_fn(is_open)
    }

    // The greatest sum of the two links of a marked pair.
    fn dearest(&self, first: usize, marks: &[bool; 256]) -> Option<C>
        ensures { Covers C.Cost self.now.links.size (meaning C.Cost self.now.links.book.now) self.now.middle first marks.now result }
    {
        // A loop by number, since the sum is asked of a place: a fold would filter numbers by the marks and say no more.
        let mut most = None;
        for second in 0..self.links.size {
            if marks[second] {
                most = dearer(most, self.by_way_of(first, second));
            }
        }
        most
    }

    // Of the marked places, those to which no detour from `first` costs at most the two links.
    fn beyond_detours(&self, first: usize, bound: C, candidates: &[bool; 256]) -> [bool; 256]
        requires { first < self.now.links.size }
        ensures { Beyond C.Cost self.now.links.size (meaning C.Cost self.now.links.book.now) self.now.middle first self.now.lower bound candidates.now result }
    {
        let detours = Detours {
            links: BookLinks {
                book: self.links.book,
                size: self.links.size,
            },
            top: self.lower + 1,
            first,
            without: self.middle,
        };
        let records = records_within(&detours, self.links.size, first, bound);
        let is_beyond = |second: usize|
            requires { second < 256 }
            ensures { result ≡ is_beyond C.Cost self.entry.now.links.size (meaning C.Cost self.entry.now.links.book.now) self.entry.now.middle first candidates.entry.now records second }
        { candidates[second] && !is_reached(records[second], self.by_way_of(first, second)) };
        from_fn(is_beyond)
    }
}

// Whether a place is settled at a cost of at most the price.
fn is_reached<C: Cost>(known: SearchRecord<C>, price: Option<C>) -> bool
    ensures { result ≡ reached_within C.Cost known price }
{
    known.settled && is_at_most(Some(known.cost), price)
}
