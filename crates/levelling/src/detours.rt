//! Detours: arching chains between two neighbours of a visited place that do not pass it.
ghost use Rattle.hierarchy.specs.Books.{link_among};
ghost use Rattle.levelling.specs.Meaning.{meaning};
ghost use Rattle.levelling.specs.Detours.{detour_steps};

use crate::links::BookLinks;
use cost::Cost;
use frontier::Steps;

/// The links that detours from `first` round `without` go by: an inner place of such a chain stands at the top level.
// numbers of its own and no visit, from which each step would read them again
#[derive(Drop)]
pub struct Detours<'a, C> {
    pub(crate) links: BookLinks<'a, C>,
    pub(crate) top: usize,
    pub(crate) first: usize,
    pub(crate) without: usize,
}

impl<'a, C: Cost> Steps for Detours<'a, C> {
    type C = C;

    ghost step = { λ g. detour_steps (link_among g.links.size (meaning C.Cost g.links.book.now)) (meaning C.Cost g.links.book.now).level g.top g.without g.first };

    fn step(&self, from: usize, to: usize) -> Option<C> {
        if to == self.without || (from != self.first && self.links.level(from) != self.top) {
            return None;
        }
        self.links.link(from, to)
    }
}
