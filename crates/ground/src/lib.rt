//! Grounds: places, the ways between them, and which places are shut.
#![tactic(auto)]

ghost use Rattle.std.specs.Prelude.{◌≡◌, ℕ, Bool, Option};
ghost use Rattle.ground.specs.Grounds.{GroundLaws, OnlyWayCosts};
ghost use Rattle.ground.specs.Shutting.{Shut, Cleared};

use cost::Cost;

pub mod counts;
pub mod places;
pub mod refusal;

pub use refusal::Refusal;

/// A ground. Its meaning is a number of places, a set of shut places, and a chart: for each set of shut places, the cost of the way
/// of each pair of places that has one.
pub trait Ground {
    type C: Cost;

    ghost size: { Self → ℕ };

    ghost shuts: { Self → ℕ → Bool };

    ghost chart: { Self → (ℕ → Bool) → ℕ → ℕ → Option Self.C };

    ghost laws: { (g : Self) → GroundLaws (size g) (shuts g) (chart g) };

    /// The number of places.
    fn size(&self) -> usize
        ensures { result ≡ size self.now };

    /// Whether the place is shut; a place that is not on the ground is not.
    fn is_shut(&self, place: usize) -> bool
        ensures { result ≡ shuts self.now place };

    /// The cost of the way between two places as the ground is now, or none.
    fn way(&self, from: usize, to: usize) -> Option<Self::C>
        ensures is { result ≡ chart self.now (shuts self.now) from to }
        ensures fair { OnlyWayCosts Self.C.Cost.way (chart self.now) };

    /// Shuts a place. Refused with 9 where it is not on the ground and with 10 where it is shut.
    fn shut(&mut self, place: usize) -> Result<(), Refusal>
        ensures { Shut size shuts chart place self.old self.new result };

    /// Clears a place. Refused with 9 where it is not on the ground and with 11 where it is free.
    fn clear(&mut self, place: usize) -> Result<(), Refusal>
        ensures { Cleared size shuts chart place self.old self.new result };
}
