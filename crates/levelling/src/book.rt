//! The book of a levelled ground.
ghost use Rattle.std.specs.Prelude.{◌≡◌, ◌≤◌, length};
ghost use Rattle.arrayvec.specs.ArrayVec.{array_vec_len};
ghost use Rattle.levelling.specs.Entries.{Indexed};

use crate::entries::Entries;
use arrayvec::ArrayVec;
use hierarchy::Shortcut;

mod changes;
pub mod halves;
mod links;

/// Levels, the ways kept, and shortcuts. The link of each pair of places below 256 is found at once.
#[derive(Drop)]
pub struct Book<C> {
    levels: [u8; 256],
    entries: Entries<C>,
    shortcuts: ArrayVec<Shortcut<C>, 2048>,
    ghost long: { length levels ≡ 256 },
    ghost room: { array_vec_len shortcuts ≤ 2048 },
    ghost indexed: { Indexed entries.cells shortcuts.items },
}
