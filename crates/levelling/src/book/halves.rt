//! The halves of a shortcut.
ghost use Rattle.std.specs.Prelude.{◌≡◌};
ghost use Rattle.levelling.specs.Halves.{halves_before};
ghost use Rattle.levelling.specs.Meaning.{meaning};

use super::Book;
use crate::Entry;
use cost::Cost;

/// Where a shortcut is divided, and its number: its halves are laid out by the shortcuts before it.
#[derive(Clone, Copy, PartialEq, Eq, Debug)]
pub struct Halves {
    pub middle: usize,
    pub number: usize,
}

impl<C: Cost> Book<C> {
    /// The halves of the link between two places below 256, if it is one of the first `before` shortcuts; a way kept has none.
    pub fn halves(&self, from: usize, to: usize, before: usize) -> Option<Halves>
        ensures { result ≡ halves_before (meaning C.Cost self.now) before from to }
    {
        let Entry::Shortcut(number) = self.entries.between(from, to) else {
            return None;
        };
        let number = usize::from(number);
        if number >= before {
            return None;
        }
        let shortcut = self.shortcut(number)?;
        Some(Halves {
            middle: shortcut.middle,
            number,
        })
    }
}
