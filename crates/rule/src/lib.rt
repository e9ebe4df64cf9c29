//! Shortcut rules: which pairs of places may have a shortcut.
#![tactic(auto)]

ghost use Rattle.std.specs.Prelude.{◌≡◌, ℕ, Bool};
ghost use Rattle.rule.specs.Rules.{no_pair, same_valley};

/// A rule. Its meaning is a fixed set of pairs of places, each with the smaller place first.
pub trait Rule {
    ghost pairs: { Self → ℕ → ℕ → Bool };

    /// Whether the pair may have a shortcut.
    fn permits(&self, smaller: usize, larger: usize) -> bool
        ensures { result ≡ pairs self.now smaller larger };
}

/// Permits no shortcut.
#[derive(Clone, Copy)]
pub struct NoShortcuts;

impl Rule for NoShortcuts {
    ghost pairs = { λ _. no_pair };

    fn permits(&self, _smaller: usize, _larger: usize) -> bool {
        false
    }
}

/// Permits shortcuts within a valley: place p is in the valley of byte p, and a place beyond the bytes in none.
#[derive(Clone, Copy)]
pub struct SameValley<'a> {
    valleys: &'a [u8],
}

impl<'a> SameValley<'a> {
    /// The rule for places in these valleys, a byte for each place from place 0 on.
    pub fn new(valleys: &'a [u8]) -> SameValley<'a>
        ensures { same_valley result.valleys.now ≡ same_valley valleys.now }
    {
        SameValley { valleys }
    }
}

impl<'a> Rule for SameValley<'a> {
    ghost pairs = { λ r. same_valley r.valleys.now };

    fn permits(&self, smaller: usize, larger: usize) -> bool {
        let valley = self.valleys.get(smaller);
        valley.is_some() && valley == self.valleys.get(larger)
    }
}

#[cfg(test)]
mod tests;
