//! The shortcuts that a visit needs.
ghost use Rattle.std.specs.Prelude.{◌≤◌};
ghost use Rattle.arrayvec.specs.ArrayVec.{array_vec_len};

use arrayvec::ArrayVec;
use hierarchy::Shortcut;

mod list;

/// Shortcuts in their order, at most 2,048.
#[derive(Drop)]
pub struct Needed<C> {
    shortcuts: ArrayVec<Shortcut<C>, 2048>,
    ghost few: { array_vec_len shortcuts ≤ 2048 },
}
