//! The links that a search may follow: those that lead to relevant places.
ghost use Rattle.std.specs.Prelude.{◌≡◌, ◌<◌, min};
ghost use Rattle.hierarchy.specs.Kinds.{kind_of};
ghost use Rattle.hierarchy.specs.Lands.{Land};
ghost use Rattle.hierarchy.specs.Searches.{links};
ghost use Rattle.levelling.specs.Meaning.{meaning};
ghost use Rattle.routing.specs.Narrowed.{narrowed, marked};

use crate::climb::climb;
use cost::Cost;
use frontier::Steps;
use levelling::Book;
use std::array;

/// The links of a book that lead to marked places.
#[derive(Drop)]
pub struct MarkedLinks<'a, C> {
    book: &'a Book<C>,
    size: usize,
    marks: [bool; 256],
}

impl<'a, C: Cost> Steps for MarkedLinks<'a, C> {
    type C = C;

    ghost step = { λ g. narrowed (min g.size 256) (meaning C.Cost g.book.now) g.marks };

    fn step(&self, from: usize, to: usize) -> Option<C> {
        if to < 256 && self.marks[to] {
            self.book.link(self.size, from, to)
        } else {
            None
        }
    }
}

/// The links that lead to places that are relevant to a route: its two ends, those to which one of them climbs, and those of the
/// top level.
pub fn relevant_links<C: Cost>(
    book: &Book<C>,
    size: usize,
    top: usize,
    from: usize,
    to: usize,
) -> MarkedLinks<'_, C>
    ensures { (land : Land (kind_of C.Cost)) → land.size ≡ min size 256 → narrowed (min result.size 256) (meaning C.Cost result.book.now) result.marks ≡ links land (meaning C.Cost book.now) top from to }
{
    let first = climb(book, size, from);
    let second = climb(book, size, to);
    let marks = array::from_fn(
        |place| -> bool
            requires { place < 256 }
            ensures { result ≡ marked (meaning C.Cost book.entry.now) top from to first second place }
        {
            let is_end = (place == from) | (place == to);
            first[place] | second[place] | is_end | (book.level(place) == top)
        },
    );
    MarkedLinks { book, size, marks }
}
