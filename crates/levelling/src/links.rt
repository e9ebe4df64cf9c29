//! The links of a book among the places of a ground.
ghost use Rattle.std.specs.Prelude.{◌≡◌, ◌≤◌};
ghost use Rattle.hierarchy.specs.Books.{link_among};
ghost use Rattle.levelling.specs.Meaning.{meaning};

use crate::Book;
use cost::Cost;
use frontier::Steps;

/// The links of a book among the places below `size`.
#[derive(Drop)]
pub struct BookLinks<'a, C> {
    pub(crate) book: &'a Book<C>,
    pub(crate) size: usize,
    ghost few: { size ≤ 256 },
}

impl<'a, C: Cost> BookLinks<'a, C> {
    /// The level of a place.
    pub(crate) fn level(&self, place: usize) -> usize
        ensures { result ≡ (meaning C.Cost self.now.book.now).level place }
    {
        self.book.level(place)
    }

    /// The cost of the link between two places, or none.
    pub(crate) fn link(&self, from: usize, to: usize) -> Option<C>
        ensures { result ≡ link_among self.now.size (meaning C.Cost self.now.book.now) from to }
    {
        self.book.link(self.size, from, to)
    }
}

impl<'a, C: Cost> Steps for BookLinks<'a, C> {
    type C = C;

    ghost step = { λ g. link_among g.size (meaning C.Cost g.book.now) };

    fn step(&self, from: usize, to: usize) -> Option<C> {
        self.link(from, to)
    }
}
