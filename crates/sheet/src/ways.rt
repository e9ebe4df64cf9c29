//! A sheet is a ground.
ghost use Rattle.ground.specs.Marks.{size_in, shut_in};
ghost use Rattle.sheet.specs.Sheets.{sheet_chart};
ghost use Rattle.sheet.specs.SheetLaws.{sheet-laws};

use crate::Sheet;
use cost::octile::Octile;
use ground::{Ground, Refusal};

impl Ground for Sheet {
    type C = Octile;

    ghost size = { λ g. size_in g.places };

    ghost shuts = { λ g. shut_in g.places };

    ghost chart = { λ g. sheet_chart g.width g.height };

    ghost laws = { sheet-laws };

    // Four calls go to the places, as in trail lists: one ground over any ways would need a trait of ways with laws of its own.
    /// The number of cells.
    fn size(&self) -> usize {
        self.places.size()
    }

    fn is_shut(&self, place: usize) -> bool {
        self.places.is_shut(place)
    }

    /// One straight step between free cells that share a side, one diagonal step between free cells that touch at a corner, where
    /// both cells beside the corner are free, and no other way.
    fn way(&self, from: usize, to: usize) -> Option<Octile> {
        self.way_between(from, to)
    }

    fn shut(&mut self, place: usize) -> Result<(), Refusal> {
        self.places.shut(place)
    }

    fn clear(&mut self, place: usize) -> Result<(), Refusal> {
        self.places.clear(place)
    }
}
