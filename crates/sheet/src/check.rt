//! Which sheets are accepted.
ghost use Rattle.std.specs.Prelude.{◌≡◌};
ghost use Rattle.ground.specs.Refusals.{outcome};
ghost use Rattle.sheet.specs.Sheets.{cell_count, sheet_refusal};

use crate::cell::Cell;
use ground::Refusal;

const MOST_CELLS: usize = 256;

/// Whether a sheet of that width and height may be made of these cells, each 0 for free or 1 for blocked. Refused with 1 where the
/// width or the height is 0 or there are more than 256 cells, with 2 where there are not as many bytes as cells, and with 7 where
/// a byte is neither 0 nor 1, which names the earliest such cell.
pub fn check_sheet(width: usize, height: usize, cells: &[u8]) -> Result<(), Refusal>
    ensures { result ≡ outcome (sheet_refusal width height cells.now) }
{
    let count = cells_of(width, height).ok_or(Refusal::SizeOutOfRange)?;
    if cells.len() != count {
        return Err(Refusal::WrongLength);
    }
    match cells.iter().position(|byte| Cell::try_from(*byte).is_err()) {
        Some(at) => Err(Refusal::CellUnknown { at }),
        None => Ok(()),
    }
}

// The number of cells, where a sheet may have so many.
fn cells_of(width: usize, height: usize) -> Option<usize>
    ensures { result ≡ cell_count width height }
{
    if width == 0 || height == 0 {
        return None;
    }
    width
        .checked_mul(height)
        .filter(|count| *count <= MOST_CELLS)
}
