//! The places of a ground, and which of them are shut.
ghost use Rattle.std.specs.Prelude.{◌≤◌};
ghost use Rattle.arrayvec.specs.ArrayVec.{array_vec_len};

use arrayvec::ArrayVec;

pub(crate) mod marks;

/// Some number of places, at most 256, each shut or free.
#[derive(Drop)]
pub struct Places {
    shut: ArrayVec<bool, 256>,
    ghost few: { array_vec_len shut ≤ 256 },
}
