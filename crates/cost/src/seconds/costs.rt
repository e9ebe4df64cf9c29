//! Seconds are costs.
ghost use Rattle.std.specs.Prelude.{◌≡◌};
ghost use Rattle.cost.specs.Seconds.{seconds, number_of, zero_s, over_s, plus_s, less_s, way_s, word_s, unword_s};
ghost use Rattle.cost.specs.SecondsLaws.{laws_s};
ghost use Rattle.std.proofs.Common.{rules, arith};

use super::Seconds;
use crate::{Cost, OVER, WAY_CAP};

impl Seconds {
    /// `number` seconds, or Over where that is more than 16,777,215.
    pub fn new(number: u64) -> Seconds
        ensures { result ≡ seconds number }
    {
        Seconds {
            number: number.min(u64::from(OVER)) as u32,
        }
    }

    /// The number of seconds, or none at Over.
    pub fn number(self) -> Option<u32>
        ensures { result ≡ number_of self }
    {
        (self.number < OVER).then_some(self.number)
    }
}

impl Cost for Seconds {
    ghost zero = { zero_s };

    ghost over = { over_s };

    ghost plus = { plus_s };

    ghost less = { less_s };

    ghost way = { way_s };

    ghost word = { word_s };

    ghost unword = { unword_s };

    ghost laws = { laws_s };

    ghost small = { Prim.search rules };

    ghost narrow = { Prim.search rules };

    fn zero() -> Seconds {
        Seconds::new(0)
    }

    fn over() -> Seconds {
        Seconds::new(u64::from(OVER))
    }

    fn plus(self, other: Seconds) -> Seconds {
        Seconds::new(u64::from(self.number) + u64::from(other.number))
    }

    fn is_less(self, other: Seconds) -> bool {
        self < other
    }

    fn is_way_cost(self) -> bool {
        Seconds::zero() < self && self <= Seconds::new(u64::from(WAY_CAP))
    }

    fn to_word(self) -> u64 {
        self.number().map_or(u64::MAX, u64::from)
    }

    fn from_word(bits: u64) -> Seconds {
        Seconds::new(bits)
    }
}
