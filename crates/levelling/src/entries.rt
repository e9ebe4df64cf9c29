//! The entries of all pairs of places.
ghost use Rattle.std.specs.Prelude.{◌≡◌, ◌+◌, ◌*◌, ◌<◌, ◌&&◌, length, replicate, if◌then◌else◌, Some, None, IfSome, nat_lt};
ghost use Rattle.levelling.specs.declared.entry.Entry.TheVariants.{Apart};
ghost use Rattle.levelling.specs.Entries.{entry_between, with_entry, entered};

use crate::Entry;
use cost::Cost;

/// The entry of each pair of places below 256.
#[derive(Drop)]
pub struct Entries<C> {
    cells: [Entry<C>; 65536],
    ghost long: { length cells ≡ 65536 },
}

impl<C: Cost> Entries<C> {
    /// No pair is linked.
    pub(crate) fn apart() -> Entries<C>
        ensures { result.cells ≡ replicate 65536 Apart }
    {
        Entries {
            cells: [Entry::Apart; 65536],
        }
    }

    /// The entry of two places. Places that are not below 256 are apart.
    pub(crate) fn between(&self, from: usize, to: usize) -> Entry<C>
        ensures { result ≡ entry_between self.now.cells from to }
    {
        match index(from, to) {
            Some(at) => self.cells[at],
            None => Entry::Apart,
        }
    }

    /// Writes the entry of two places below 256.
    pub(crate) fn set(&mut self, from: usize, to: usize, entry: Entry<C>)
        ensures { self.new.cells ≡ with_entry self.old.cells from to entry }
    {
        if let Some(at) = index(from, to) {
            self.cells[at] = entry;
        }
    }

    /// Links two places below 256 by a shortcut, unless they are linked: a way kept and an earlier shortcut come first.
    pub(crate) fn enter(&mut self, from: usize, to: usize, number: u16)
        ensures { self.new.cells ≡ entered self.old.cells from to number }
    {
        if matches!(self.between(from, to), Entry::Apart) {
            self.set(from, to, Entry::Shortcut(number));
        }
    }
}

// Where the entry of two places stands: at 256 × the first + the second, if both are below 256.
fn index(from: usize, to: usize) -> Option<usize>
    ensures is { result ≡ (if nat_lt from 256 && nat_lt to 256 then Some (from * 256 + to) else None) }
    ensures below { IfSome result (λ at. at < 65536) }
{
    if from < 256 && to < 256 {
        Some(from * 256 + to)
    } else {
        None
    }
}
