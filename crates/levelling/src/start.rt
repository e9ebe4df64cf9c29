//! The book before the first round: levels 0 and 1, and the ways that no walk beats.
ghost use Rattle.std.specs.Prelude.{◌≡◌};
ghost use Rattle.hierarchy.specs.Lands.{land_of};
ghost use Rattle.hierarchy.specs.Levels.{start as start_of_lem};
ghost use Rattle.levelling.specs.Meaning.{meaning, blank_book};
ghost use Rattle.levelling.specs.Begun.{LevelsEntered, RowWritten, RowsWritten, enters};

use crate::Book;
use crate::aside::set_beaten_aside;
use ground::Ground;

/// Writes into a blank book what the book of a ground has before the first round.
// a book that is lent and none that is answered, since it would be copied
pub(crate) fn start<G: Ground>(ground: &G, book: &mut Book<G::C>)
    requires { meaning G.C.Cost book.old ≡ blank_book G.C.Cost }
    ensures { meaning G.C.Cost book.new ≡ start_of_lem (land_of G.C.Cost G.Ground ground.now) }
{
    enter_levels(ground, book);
    enter_ways(ground, book);
    set_beaten_aside(book, ground.size());
}

// Gives shut places level 0 and free ones level 1.
fn enter_levels<G: Ground>(ground: &G, book: &mut Book<G::C>)
    ensures { LevelsEntered (G.Ground.size ground.now) (G.Ground.shuts ground.now) (meaning G.C.Cost book.old) (meaning G.C.Cost book.new) }
{
    for place in 0..ground.size() {
        book.set_level(place, if ground.is_shut(place) { 0 } else { 1 });
    }
}

// Keeps every way.
fn enter_ways<G: Ground>(ground: &G, book: &mut Book<G::C>)
    ensures { RowsWritten (enters (G.Ground.chart ground.now (G.Ground.shuts ground.now))) (G.Ground.size ground.now) (G.Ground.size ground.now) (meaning G.C.Cost book.old) (meaning G.C.Cost book.new) }
{
    for from in 0..ground.size() {
        enter_ways_from(ground, book, from);
    }
}

// Keeps every way from a place.
fn enter_ways_from<G: Ground>(ground: &G, book: &mut Book<G::C>, from: usize)
    ensures { RowWritten (enters (G.Ground.chart ground.now (G.Ground.shuts ground.now)) from) (G.Ground.size ground.now) from (meaning G.C.Cost book.old) (meaning G.C.Cost book.new) }
{
    for to in 0..ground.size() {
        if let Some(cost) = ground.way(from, to) {
            book.keep_way(from, to, cost);
        }
    }
}
