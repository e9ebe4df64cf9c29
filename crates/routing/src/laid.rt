//! The places of a route.
ghost use Rattle.std.specs.Prelude.{◌≤◌};
ghost use Rattle.arrayvec.specs.ArrayVec.{array_vec_len};

use arrayvec::ArrayVec;

mod places;

/// Places, of which there are at most 256.
#[derive(Drop)]
pub struct Laid {
    places: ArrayVec<u16, 256>,
    ghost few: { array_vec_len places ≤ 256 },
}
