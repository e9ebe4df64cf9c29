//! Whole seconds.
ghost use Rattle.std.specs.Prelude.{◌≤◌};

pub mod costs;

/// A whole number of seconds up to 16,777,215, or Over. Over is held as the next number, so that order and sum need no case for it.
#[derive(Clone, Copy, PartialEq, Eq, PartialOrd, Ord, Debug)]
pub struct Seconds {
    number: u32,
    ghost capped: { number ≤ 16777216 },
}
