//! Straight and diagonal steps.
ghost use Rattle.std.specs.Prelude.{◌≡◌, true};
ghost use Rattle.cost.specs.Worth.{told};

pub mod costs;

/// Straight steps, worth 1 each, and diagonal steps, worth √2 each, together at most 16,777,215; or Over. Over is held as 16,777,216
/// straight steps, so that order and sum need no case for it.
#[derive(Clone, Copy, PartialEq, Eq, Debug)]
pub struct Octile {
    straight: u32,
    diagonal: u32,
    ghost capped: { told straight diagonal ≡ true },
}
