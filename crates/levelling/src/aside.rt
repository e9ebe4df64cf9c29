//! Ways set aside: those that some walk beats.
ghost use Rattle.std.specs.Prelude.{◌≡◌, ℕ, ◌<◌, ◌≤◌, [], slice_index_or};
ghost use Rattle.hierarchy.specs.Books.{link_among};
ghost use Rattle.frontier.specs.Fronts.{blank};
ghost use Rattle.levelling.specs.Meaning.{meaning};
ghost use Rattle.levelling.specs.Begun.{RowWritten};
ghost use Rattle.levelling.specs.Beaten.{beaten as beaten_by, leaves, BeatenAside, MarksBeaten};

use crate::Book;
use crate::links::BookLinks;
use crate::reach::records_within;
use cost::Cost;
use hierarchy::SearchRecord;
use std::array::from_fn;

/// Sets the ways between the places below `size` aside that some walk beats.
pub(crate) fn set_beaten_aside<C: Cost>(book: &mut Book<C>, size: usize)
    requires { (size ≤ 256) × ((meaning C.Cost book.old).shortcuts ≡ []) }
    ensures { BeatenAside size (meaning C.Cost book.old) (meaning C.Cost book.new) }
{
    let beaten = beaten_links(&BookLinks { book: &*book, size });
    for from in 0..size {
        set_aside_from(book, size, from, &beaten[from]);
    }
}

// Marks, in a row for each place, the links from it that some walk beats.
fn beaten_links<C: Cost>(links: &BookLinks<C>) -> [[bool; 256]; 256]
    ensures { (a : ℕ) → a < links.now.size → MarksBeaten links.now.size (meaning C.Cost links.now.book.now) a (slice_index_or result a []) }
{
    // A loop and not `from_fn`, which copies all rows several times and asks for those beyond the size too.
    let mut beaten = [[false; 256]; 256];
    for from in 0..links.size {
        beaten[from] = beaten_from(links, from);
    }
    beaten
}

// Marks the links from a place that some walk beats.
fn beaten_from<C: Cost>(links: &BookLinks<C>, from: usize) -> [bool; 256]
    requires { from < links.now.size }
    ensures { MarksBeaten links.now.size (meaning C.Cost links.now.book.now) from result }
{
    let records = records_within(links, links.size, from, C::over());
    let mark = |to: usize|
        requires { to < 256 }
        ensures { result ≡ beaten_by C.Cost (link_among links.entry.now.size (meaning C.Cost links.entry.now.book.now) from to) (slice_index_or records to (blank C.Cost)) }
    { is_beaten(links.link(from, to), records[to]) };
    from_fn(mark)
}

// Whether a link costs more than the least walk between its ends, as a whole search tells of it.
fn is_beaten<C: Cost>(link: Option<C>, known: SearchRecord<C>) -> bool
    ensures { result ≡ beaten_by C.Cost link known }
{
    link.is_some_and(|cost| known.settled && known.cost.is_less(cost))
}

// Sets the marked ways from a place aside.
fn set_aside_from<C: Cost>(book: &mut Book<C>, size: usize, from: usize, marks: &[bool; 256])
    requires { (size ≤ 256) × ((from < size) × ((meaning C.Cost book.old).shortcuts ≡ [])) }
    ensures { RowWritten (leaves marks.now) size from (meaning C.Cost book.old) (meaning C.Cost book.new) }
{
    // by number, since a way is set aside by the numbers of its places
    for to in 0..size {
        if marks[to] {
            book.set_aside(from, to);
        }
    }
}
