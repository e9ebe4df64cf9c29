//! Making a sheet.
ghost use Rattle.std.specs.Prelude.{◌≡◌, ◌≤◌, length};
ghost use Rattle.ground.specs.Marks.{size_in, shut_in};
ghost use Rattle.sheet.specs.Sheets.{sheet_width, sheet_height, sheet_size, sheet_shut, sheet_chart, blocked_cell, blocked};

use crate::cell::Cell;
use crate::{Sheet, check_sheet};
use ground::places::Places;

impl Sheet {
    /// The sheet of these cells, each 0 for free or 1 for blocked, where `check_sheet` accepts them; otherwise a sheet without cells.
    /// Blocked cells are shut and the others free.
    pub fn new(width: usize, height: usize, cells: &[u8]) -> Sheet
        ensures width { result.width ≡ sheet_width width height cells.now }
        ensures height { result.height ≡ sheet_height width height cells.now }
        ensures size { size_in result.places ≡ sheet_size width height cells.now }
        ensures shut { shut_in result.places ≡ sheet_shut width height cells.now }
        ensures chart { sheet_chart result.width result.height ≡ sheet_chart (sheet_width width height cells.now) (sheet_height width height cells.now) }
    {
        if check_sheet(width, height, cells).is_err() {
            return Sheet {
                width: 0,
                height: 0,
                places: Places::all_free(0),
            };
        }
        Sheet {
            width,
            height,
            places: places_of(cells),
        }
    }
}

// A place for each cell, shut where the cell is blocked.
fn places_of(cells: &[u8]) -> Places
    requires { length cells.now ≤ 256 }
    ensures size { size_in result ≡ length cells.now }
    ensures shut { shut_in result ≡ blocked cells.now }
{
    let mut places = Places::all_free(cells.len());
    for (place, byte) in cells.iter().enumerate() {
        if is_blocked(*byte) {
            // Each place is shut at most once, so that none is refused.
            let _ = places.shut(place);
        }
    }
    places
}

fn is_blocked(byte: u8) -> bool
    ensures { result ≡ blocked_cell byte }
{
    matches!(Cell::try_from(byte), Ok(Cell::Blocked))
}
