//! A visit of a place: it may sink, unless a shortcut that this needs is not permitted or does not fit.
ghost use Rattle.std.specs.Prelude.{◌≡◌, ℕ, ◌+◌, ◌-◌, ◌<◌, ◌≤◌, ◌&&◌, [], ◌∷◌, ◌++◌, length, is_some, if◌then◌else◌, nat_lt};
ghost use Rattle.hierarchy.specs.Kinds.{kind_of};
ghost use Rattle.hierarchy.specs.Lands.{Land};
ghost use Rattle.levelling.specs.Meaning.{meaning};
ghost use Rattle.levelling.specs.Listed.{listed};
ghost use Rattle.levelling.specs.Near.{over_links};
ghost use Rattle.levelling.specs.Raised.{level_in};
ghost use Rattle.levelling.specs.Visits.{LookedAt};

use crate::links::BookLinks;
use crate::needed::Needed;
use cost::Cost;
use rule::Rule;

/// A visit of `middle`, a place of the level above `lower`, in a book with no place above that level.
#[derive(Drop)]
pub struct Visit<'a, C> {
    pub(crate) links: BookLinks<'a, C>,
    pub(crate) lower: usize,
    pub(crate) middle: usize,
    ghost on: { middle < links.size },
    ghost low: { lower < 255 },
    ghost bounded: { (x : ℕ) → level_in links.book.now x ≤ lower + 1 },
}

impl<'a, C: Cost> Visit<'a, C> {
    /// The shortcuts that are needed if the place is to sink, or none if it must stay up.
    pub(crate) fn needed<R: Rule>(&self, rule: &R) -> Option<Needed<C>>
        ensures { (land : Land (kind_of C.Cost)) → land.size ≡ self.now.links.size → LookedAt C.Cost land (R.Rule.pairs rule.now) self.now.lower (meaning C.Cost self.now.links.book.now) self.now.middle result }
    {
        let near = self.near();
        let mut needed = Needed::none();
        // As this planner prescribes, the pair loops are left from inside, by a label, as soon as the place must stay up.
        'pairs: {
            for first in 0..self.links.size {
                if near[first] {
                    let needs = self.needs_from(&near, first);
                    for second in first + 1..self.links.size {
                        if needs[second]
                            && self.take_pair(rule, first, second, &mut needed).is_none()
                        {
                            break 'pairs;
                        }
                    }
                }
            }
            return Some(needed);
        }
        None
    }

    // Takes the shortcut of a pair, or answers none where it is not permitted or there is no room for it beside the book's: the place
    // stays up either way, so that an error would be read by nobody.
    fn take_pair<R: Rule>(
        &self,
        rule: &R,
        first: usize,
        second: usize,
        needed: &mut Needed<C>,
    ) -> Option<()>
        ensures is { is_some result ≡ (R.Rule.pairs rule.now first second && nat_lt (length (listed needed.old)) (2048 - length (meaning C.Cost self.now.links.book.now).shortcuts)) }
        ensures after { listed needed.new ≡ (if is_some result then listed needed.old ++ (over_links C.Cost self.now.links.size (meaning C.Cost self.now.links.book.now) self.now.middle first second ∷ []) else listed needed.old) }
    {
        if !rule.permits(first, second) {
            return None;
        }
        let room = 2048usize.saturating_sub(self.links.book.count());
        needed.push(self.shortcut_over(first, second), room).ok()
    }
}
