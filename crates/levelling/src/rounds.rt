//! Rounds: every place is raised a level, and sinks back if it may.
ghost use Rattle.std.specs.Prelude.{◌≡◌, ℕ, ◌+◌, ◌<◌, ◌≤◌};
ghost use Rattle.hierarchy.specs.Kinds.{kind_of};
ghost use Rattle.hierarchy.specs.Lands.{Land, land_of};
ghost use Rattle.hierarchy.specs.Levels.{levelling, round as round_of, raise as raised, visit as visit_of};
ghost use Rattle.levelling.specs.Meaning.{meaning};
ghost use Rattle.levelling.specs.Chosen.{levels_in};
ghost use Rattle.levelling.specs.Raised.{with_levels};

use crate::links::BookLinks;
use crate::start::start;
use crate::visit::Visit;
use crate::{Book, Levels};
use cost::Cost;
use ground::Ground;
use rule::Rule;

/// The book of a ground with that many levels, under a rule. It refuses nothing.
pub fn level<G: Ground, R: Rule>(ground: &G, rule: &R, levels: Levels) -> Book<G::C>
    ensures { meaning G.C.Cost result ≡ levelling (land_of G.C.Cost G.Ground ground.now) (R.Rule.pairs rule.now) (levels_in levels) }
{
    let mut book = Book::blank();
    start(ground, &mut book);
    for lower in 1..usize::from(levels) {
        let round = Round {
            rule,
            size: ground.size(),
            lower,
        };
        round.run(&mut book);
    }
    book
}

// A round under a rule, among the places below `size`: each place of the level `lower` is raised, and sinks back if it may.
#[derive(Drop)]
struct Round<'a, R> {
    rule: &'a R,
    size: usize,
    lower: usize,
    ghost few: { size ≤ 256 },
    ghost low: { (1 ≤ lower) × (lower < 255) },
}

impl<'a, R: Rule> Round<'a, R> {
    // Raises the places of a level, and visits each of the next in rising number.
    fn run<C: Cost>(&self, book: &mut Book<C>)
        requires bounded { (x : ℕ) → (meaning C.Cost book.old).level x ≤ self.now.lower }
        ensures is { (land : Land (kind_of C.Cost)) → land.size ≡ self.now.size → meaning C.Cost book.new ≡ round_of land (R.Rule.pairs self.now.rule.now) self.now.lower (meaning C.Cost book.old) }
        ensures bounded { (x : ℕ) → (meaning C.Cost book.new).level x ≤ self.now.lower + 1 }
    {
        self.raise(book);
        for place in 0..self.size {
            if book.level(place) == self.lower + 1 {
                self.visit(book, place);
            }
        }
    }

    // Every place of a level gets the next.
    fn raise<C: Cost>(&self, book: &mut Book<C>)
        ensures { meaning C.Cost book.new ≡ with_levels (raised self.now.lower (meaning C.Cost book.old).level) (meaning C.Cost book.old) }
    {
        for place in 0..256 {
            if book.level(place) == self.lower {
                book.set_level(place, self.lower as u8 + 1);
            }
        }
    }

    // Visits a place of the next level: it sinks if each pair of its neighbours that then needs a shortcut may have one and all of
    // these fit into the book, and they are appended.
    fn visit<C: Cost>(&self, book: &mut Book<C>, middle: usize)
        requires on { middle < self.now.size }
        requires bounded { (x : ℕ) → (meaning C.Cost book.old).level x ≤ self.now.lower + 1 }
        ensures { (land : Land (kind_of C.Cost)) → land.size ≡ self.now.size → meaning C.Cost book.new ≡ visit_of land (R.Rule.pairs self.now.rule.now) self.now.lower (meaning C.Cost book.old) middle }
    {
        let visit = Visit {
            links: BookLinks {
                book,
                size: self.size,
            },
            lower: self.lower,
            middle,
        };
        if let Some(needed) = visit.needed(self.rule) {
            needed.append_to(book);
            book.set_level(middle, self.lower as u8);
        }
    }
}
