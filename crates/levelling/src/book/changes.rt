//! Writing a book.
ghost use Rattle.std.specs.Prelude.{◌≡◌, length, is_ok, nat_lt};
ghost use Rattle.levelling.specs.Meaning.{meaning, blank_book, with_level, with_way, without_way, with_shortcut};

use super::Book;
use crate::entries::Entries;
use crate::{Entry, Full};
use arrayvec::ArrayVec;
use cost::Cost;
use hierarchy::Shortcut;

impl<C: Cost> Book<C> {
    /// The book in which every place has level 0 and nothing is linked.
    pub fn blank() -> Book<C>
        ensures { meaning C.Cost result ≡ blank_book C.Cost }
    {
        Book {
            levels: [0; 256],
            entries: Entries::apart(),
            shortcuts: ArrayVec::new(),
        }
    }

    /// Gives a place below 256 that level.
    pub fn set_level(&mut self, place: usize, level: u8)
        ensures { meaning C.Cost self.new ≡ with_level place level (meaning C.Cost self.old) }
    {
        if place < 256 {
            self.levels[place] = level;
        }
    }

    /// Keeps the way from one place below 256 to another, at that cost.
    pub fn keep_way(&mut self, from: usize, to: usize, cost: C)
        ensures { meaning C.Cost self.new ≡ with_way from to cost (meaning C.Cost self.old) }
    {
        self.entries.set(from, to, Entry::Way(cost));
    }

    /// Sets the way from one place to another aside, in a book that has no shortcuts.
    pub fn set_aside(&mut self, from: usize, to: usize)
        ensures { meaning C.Cost self.new ≡ without_way from to (meaning C.Cost self.old) }
    {
        // A shortcut between the two places would have to be entered in the place of the way.
        if self.shortcuts.is_empty() {
            self.entries.set(from, to, Entry::Apart);
        }
    }

    /// Appends a shortcut, if there is room for it.
    pub fn append(&mut self, shortcut: Shortcut<C>) -> Result<(), Full>
        ensures appended { meaning C.Cost self.new ≡ with_shortcut shortcut (meaning C.Cost self.old) }
        ensures room { is_ok result ≡ nat_lt (length (meaning C.Cost self.old).shortcuts) 2048 }
    {
        if self.shortcuts.is_full() {
            return Err(Full);
        }
        let number = self.shortcuts.len() as u16;
        self.shortcuts.push(shortcut);
        self.entries
            .enter(shortcut.smaller, shortcut.larger, number);
        self.entries
            .enter(shortcut.larger, shortcut.smaller, number);
        Ok(())
    }
}
