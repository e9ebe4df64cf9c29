//! What a byte says of a cell.
ghost use Rattle.std.specs.Prelude.{◌≡◌};
ghost use Rattle.sheet.specs.Sheets.{decoded};

/// A cell of a sheet that is made.
#[derive(Clone, Copy)]
pub enum Cell {
    Free,
    Blocked,
}

/// A byte that is neither 0 nor 1.
#[derive(Clone, Copy)]
pub struct UnknownCell;

impl TryFrom<u8> for Cell {
    type Error = UnknownCell;

    ghost try_from_gives = { λ byte r. r ≡ decoded byte };

    fn try_from(byte: u8) -> Result<Cell, UnknownCell> {
        match byte {
            0 => Ok(Cell::Free),
            1 => Ok(Cell::Blocked),
            _ => Err(UnknownCell),
        }
    }
}
