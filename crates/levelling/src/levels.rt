//! How many levels a ground is to have.
ghost use Rattle.std.specs.Prelude.{◌≤◌};

mod choice;

/// A number of levels, 1 to 32.
#[derive(Clone, Copy, PartialEq, Eq, Debug)]
pub struct Levels {
    number: u8,
    ghost range: { (1 ≤ number) × (number ≤ 32) },
}
