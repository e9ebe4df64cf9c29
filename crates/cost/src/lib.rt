//! Costs: what a way may cost, how costs add up, and which of two is less.
#![tactic(auto)]

ghost use Rattle.std.specs.Prelude.{◌≡◌, ℕ, ◌^◌, ◌<◌, ◌≤◌, Bool};
ghost use denote.Memory.{lone};
ghost use prog.Memory.{align, size};
ghost use Rattle.cost.specs.Laws.{CostLaws};

pub mod octile;
pub mod seconds;

// The greatest cost but Over, which is held as the next number, and the greatest cost of a way: of seconds their number, of steps
// what they are worth.
const CAP: u32 = 16_777_215;

const OVER: u32 = CAP + 1;

const WAY_CAP: u32 = 65_535;

/// A kind of cost. Its meaning is the ghost members: a fixed set of costs, all the values of the type, with a zero, a greatest
/// cost Over, a sum and an order that keep `laws`, a test for the costs that may stand on a way, and a word for each cost.
// Ord is no supertrait: the members of a supertrait would stand in each record of a cost's members that definitions take.
pub trait Cost: Copy {
    ghost zero: { Self };

    ghost over: { Self };

    ghost plus: { Self → Self → Self };

    ghost less: { Self → Self → Bool };

    ghost way: { Self → Bool };

    ghost word: { Self → ℕ };

    ghost unword: { ℕ → Self };

    ghost laws: { CostLaws zero over plus less way word unword };

    /// The least cost, which adds nothing.
    fn zero() -> Self
        ensures { result ≡ zero };

    /// The greatest cost, which stands for every sum that is too great.
    fn over() -> Self
        ensures { result ≡ over };

    /// The sum of two costs.
    fn plus(self, other: Self) -> Self
        ensures { result ≡ plus self other };

    /// Whether this cost is less than the other.
    fn is_less(self, other: Self) -> bool
        ensures { result ≡ less self other };

    /// Whether this cost may stand on a way.
    fn is_way_cost(self) -> bool
        ensures { result ≡ way self };

    // These two are no From: the laws speak of what they answer, as the members `word` and `unword`.
    /// The 64-bit word of this cost.
    fn to_word(self) -> u64
        ensures { result ≡ word self };

    /// The cost of a word; a word of no cost reads as Over.
    fn from_word(bits: u64) -> Self
        ensures { result ≡ unword bits };

    // Tables of costs are local arrays, whose size has to be known to fit memory.
    ghost small: { size (lone Self.row.mir) < 2 ^ 32 };

    ghost narrow: { align (lone Self.row.mir) ≤ 16 };
}

#[cfg(test)]
mod tests;
