//! Writing and reading the shortcuts that a visit needs.
ghost use Rattle.std.specs.Prelude.{◌≡◌, ◌+◌, ◌≤◌, [], ◌∷◌, ◌++◌, length, if◌then◌else◌, is_ok, nat_lt};
ghost use Rattle.levelling.specs.Meaning.{meaning};
ghost use Rattle.levelling.specs.Listed.{listed, with_all};

use super::Needed;
use crate::{Book, Full};
use arrayvec::ArrayVec;
use cost::Cost;
use hierarchy::Shortcut;

impl<C: Cost> Needed<C> {
    /// No shortcut yet.
    pub(crate) fn none() -> Needed<C>
        ensures { listed result ≡ [] }
    {
        Needed {
            shortcuts: ArrayVec::new(),
        }
    }

    /// Appends a shortcut, if there are fewer than `room`.
    pub(crate) fn push(&mut self, shortcut: Shortcut<C>, room: usize) -> Result<(), Full>
        requires { room ≤ 2048 }
        ensures is { is_ok result ≡ nat_lt (length (listed self.old)) room }
        ensures after { listed self.new ≡ (if is_ok result then listed self.old ++ (shortcut ∷ []) else listed self.old) }
    {
        if self.shortcuts.len() >= room {
            return Err(Full);
        }
        self.shortcuts.push(shortcut);
        Ok(())
    }

    /// Appends all of them to a book that has room for them.
    pub(crate) fn append_to(&self, book: &mut Book<C>)
        requires { length (meaning C.Cost book.old).shortcuts + length (listed self.now) ≤ 2048 }
        ensures { meaning C.Cost book.new ≡ with_all (listed self.now) (meaning C.Cost book.old) }
    {
        for shortcut in self.shortcuts.as_slice() {
            // There is room for each, so that none is refused.
            let _ = book.append(*shortcut);
        }
    }
}
