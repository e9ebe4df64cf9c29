//! Climbing: which places are reached by strictly rising chains.
ghost use Rattle.std.specs.Prelude.{◌≡◌, ℕ, ◌<◌, ◌≤◌, min, false, ◌&&◌, ◌==◌, nat_lt, slice_index_or};
ghost use Rattle.levelling.specs.Meaning.{meaning};
ghost use Rattle.routing.specs.Climbed.{goes_up, MarksClimbs, MarksFrom, MarksLevel};

use cost::Cost;
use levelling::Book;

/// Marks the places below `size`, and below 256, to which `from` climbs.
pub fn climb<C: Cost>(book: &Book<C>, size: usize, from: usize) -> [bool; 256]
    ensures { MarksClimbs (min size 256) (meaning C.Cost book.now) from result }
{
    let links = Links {
        book,
        size: size.min(256),
    };
    let mut marks = only(from);
    // A link of a climb rises, so that going through the levels once finds every climb; none rises from the highest.
    for level in 0..links.highest_level() {
        links.climb_from_level(level, &mut marks);
    }
    marks
}

// Marks one place, if it is below 256.
fn only(place: usize) -> [bool; 256]
    ensures { (x : ℕ) → slice_index_or result x false ≡ (nat_lt x 256 && x == place) }
{
    // no `from_fn`, which asks of each of 256 places whether it is the one
    let mut marks = [false; 256];
    if place < 256 {
        marks[place] = true;
    }
    marks
}

// The links of a book among the places below `size`.
#[derive(Drop)]
struct Links<'a, C> {
    book: &'a Book<C>,
    size: usize,
    ghost few: { size ≤ 256 },
}

impl<'a, C: Cost> Links<'a, C> {
    fn highest_level(&self) -> usize
        ensures { (x : ℕ) → x < self.now.size → (meaning C.Cost self.now.book.now).level x ≤ result }
    {
        // A chain of `map` and `max` was tried: it needs a contract on its closure and four answers, and is longer.
        let mut highest = 0;
        for place in 0..self.size {
            highest = self.book.level(place).max(highest);
        }
        highest
    }

    // Marks the places to which the marked places of a level go up. They are of greater levels, so that none of them comes in between.
    fn climb_from_level(&self, level: usize, marks: &mut [bool; 256])
        ensures { MarksLevel self.now.size (meaning C.Cost self.now.book.now) level self.now.size marks.old marks.new }
    {
        // by number, since marks are set while they are gone over
        for place in 0..self.size {
            if marks[place] && self.book.level(place) == level {
                self.climb_from(place, marks);
            }
        }
    }

    // Marks the places to which a place goes up.
    fn climb_from(&self, place: usize, marks: &mut [bool; 256])
        ensures { MarksFrom self.now.size (meaning C.Cost self.now.book.now) place marks.old marks.new }
    {
        // by number, since a link is asked for by the numbers of its places
        for other in 0..self.size {
            if self.goes_up(place, other) {
                marks[other] = true;
            }
        }
    }

    // Whether there is a link from one place to another that rises.
    fn goes_up(&self, from: usize, to: usize) -> bool
        ensures { result ≡ goes_up self.now.size (meaning C.Cost self.now.book.now) from to }
    {
        self.book.level(from) < self.book.level(to) && self.book.link(self.size, from, to).is_some()
    }
}
