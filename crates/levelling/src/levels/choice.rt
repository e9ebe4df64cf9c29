//! Choosing a number of levels.
ghost use Rattle.std.specs.Prelude.{◌≡◌};
ghost use Rattle.levelling.specs.Chosen.{levels_in, Chosen};

use super::Levels;
use ground::Refusal;

impl Levels {
    /// One level, at which every free place stands.
    pub fn one() -> Levels
        ensures { levels_in result ≡ 1 }
    {
        Levels { number: 1 }
    }
}

/// That many levels. Refused with 8 unless they are 1 to 32.
impl TryFrom<usize> for Levels {
    type Error = Refusal;

    ghost try_from_gives = { Chosen };

    fn try_from(number: usize) -> Result<Levels, Refusal> {
        if !(1..=32).contains(&number) {
            return Err(Refusal::LevelsOutOfRange);
        }
        Ok(Levels {
            number: number as u8,
        })
    }
}

/// How many levels these are.
impl From<Levels> for usize {
    ghost from_gives = { λ levels number. number ≡ levels_in levels };

    fn from(levels: Levels) -> usize {
        usize::from(levels.number)
    }
}
