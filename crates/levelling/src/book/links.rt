//! Reading a book.
ghost use Rattle.std.specs.Prelude.{◌≡◌, min, length};
ghost use Rattle.std.specs.List.{slice_get};
ghost use Rattle.hierarchy.specs.Books.{link_among};
ghost use Rattle.levelling.specs.Meaning.{meaning};

use super::Book;
use crate::Entry;
use cost::Cost;
use hierarchy::Shortcut;

impl<C: Cost> Book<C> {
    /// The level of a place; a place not below 256 has level 0.
    pub fn level(&self, place: usize) -> usize
        ensures { result ≡ (meaning C.Cost self.now).level place }
    {
        self.levels
            .get(place)
            .map_or(0, |level| usize::from(*level))
    }

    /// The cost of the link between two of the places below `size`, or none. A book has no links beyond the first 256 places.
    pub fn link(&self, size: usize, from: usize, to: usize) -> Option<C>
        ensures { result ≡ link_among (min size 256) (meaning C.Cost self.now) from to }
    {
        // with the size cut to 256 the two are below 256, and the look-up costs no test of that
        let size = size.min(256);
        if from >= size || to >= size || from == to {
            return None;
        }
        match self.entries.between(from, to) {
            Entry::Apart => None,
            Entry::Way(cost) => Some(cost),
            Entry::Shortcut(number) => Some(self.shortcut(usize::from(number))?.cost),
        }
    }

    /// How many shortcuts there are.
    pub fn count(&self) -> usize
        ensures { result ≡ length (meaning C.Cost self.now).shortcuts }
    {
        self.shortcuts.len()
    }

    /// Shortcut number k, or none.
    pub fn shortcut(&self, k: usize) -> Option<Shortcut<C>>
        ensures { result ≡ slice_get (meaning C.Cost self.now).shortcuts k }
    {
        self.shortcuts.get(k).copied()
    }
}
