//! Sheets: cells in rows.
#![tactic(auto)]

ghost use Rattle.std.specs.Prelude.{◌≡◌, ◌*◌};
ghost use Rattle.ground.specs.Marks.{size_in};

use ground::places::Places;

mod cell;
mod check;
mod make;
mod steps;
mod ways;

pub use check::check_sheet;

/// A sheet of `width` cells in each of `height` rows, which are its places: the cell of a row and a column is the place
/// row × width + column. A blocked cell is a shut place.
#[derive(Drop)]
pub struct Sheet {
    width: usize,
    height: usize,
    places: Places,
    ghost filled: { size_in places ≡ width * height },
}
