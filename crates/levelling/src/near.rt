//! The neighbours of a visited place.
ghost use Rattle.std.specs.Prelude.{◌≡◌};
ghost use Rattle.levelling.specs.Meaning.{meaning};
ghost use Rattle.levelling.specs.Near.{is_near, MarksNear, by_links, over_links};

use crate::visit::Visit;
use cost::Cost;
use hierarchy::Shortcut;
use std::array::from_fn;

impl<'a, C: Cost> Visit<'a, C> {
    /// Marks the places linked to the visited one whose level is `lower` or the next.
    pub(crate) fn near(&self) -> [bool; 256]
        ensures { MarksNear self.now.links.size (meaning C.Cost self.now.links.book.now) self.now.lower self.now.middle result }
    {
        from_fn(|place| self.is_near(place))
    }

    fn is_near(&self, place: usize) -> bool
        ensures { result ≡ is_near self.now.links.size (meaning C.Cost self.now.links.book.now) self.now.lower self.now.middle place }
    {
        let level = self.links.level(place);
        self.links.link(place, self.middle).is_some()
            && (level == self.lower || level == self.lower + 1)
    }

    /// What the two links by way of the visited place cost together, or none where one is missing.
    pub(crate) fn by_way_of(&self, first: usize, second: usize) -> Option<C>
        ensures { result ≡ by_links self.now.links.size (meaning C.Cost self.now.links.book.now) self.now.middle first second }
    {
        let there = self.links.link(first, self.middle)?;
        let on = self.links.link(self.middle, second)?;
        Some(there.plus(on))
    }

    /// The shortcut between two neighbours that stands for the two links by way of the visited place.
    pub(crate) fn shortcut_over(&self, smaller: usize, larger: usize) -> Shortcut<C>
        ensures { result ≡ over_links C.Cost self.now.links.size (meaning C.Cost self.now.links.book.now) self.now.middle smaller larger }
    {
        Shortcut {
            smaller,
            larger,
            middle: self.middle,
            // Neighbours are linked to the middle, so that there is a sum.
            cost: self.by_way_of(smaller, larger).unwrap_or(C::over()),
        }
    }
}
