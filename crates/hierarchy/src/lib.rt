//! What the planner means: walks, links, levelling, search, layout, answers and seasons. The definitions are in specs/.
#![tactic(auto)]

ghost use Rattle.std.specs.Prelude.{◌≡◌, false};
ghost use Rattle.hierarchy.specs.Samples.{Samples, SeasonSamples};

use cost::Cost;
use ground::Refusal;

pub mod levelled;
pub mod season;
pub mod walks;

/// A shortcut between two places, which stands for the two links by its middle.
#[derive(Clone, Copy)]
pub struct Shortcut<C> {
    pub smaller: usize,
    pub larger: usize,
    pub middle: usize,
    pub cost: C,
}

/// A shortcut from place 0 to itself at no cost. A list with room for more holds it past its last shortcut.
impl<C: Cost> Default for Shortcut<C> {
    ghost is_default = { λ shortcut. (shortcut.smaller ≡ 0) × (shortcut.larger ≡ 0) × (shortcut.middle ≡ 0) × (shortcut.cost ≡ C.zero) };

    fn default() -> Self {
        Shortcut {
            smaller: 0,
            larger: 0,
            middle: 0,
            cost: C::zero(),
        }
    }
}

/// What a search keeps of a place: whether it is settled, at what cost, and from which place it was reached. The mark is a field and no
/// `Option` around the rest, since a lent table holds one record a place, whose cost and predecessor stand before it is settled.
#[derive(Clone, Copy)]
pub struct SearchRecord<C> {
    pub settled: bool,
    pub cost: C,
    pub predecessor: usize,
}

/// The record of a place that is not reached.
impl<C: Cost> Default for SearchRecord<C> {
    ghost is_default = { λ known. (known.settled ≡ false) × (known.cost ≡ C.zero) × (known.predecessor ≡ 0) };

    fn default() -> Self {
        SearchRecord {
            settled: false,
            cost: C::zero(),
            predecessor: 0,
        }
    }
}

/// What an accepted route answers: its cost, how many places the search settled, and how many places the route has.
#[derive(Clone, Copy)]
pub struct Route<C> {
    pub cost: C,
    pub tally: usize,
    pub length: usize,
}

/// What a call of a season answers.
#[derive(Clone, Copy)]
pub enum Answer<C> {
    Done,
    Refused(Refusal),
    /// A draft does not take the calls of a levelled post, nor that the calls of a draft.
    NotTaken,
    Routed(Route<C>),
    LevelIs(usize),
    ShortcutIs(Shortcut<C>),
}

/// The worked samples hold of the definitions.
pub fn samples_hold()
    ensures { Samples }
{}

/// The sampled seasons are answered so by the definitions, call by call.
pub fn season_samples_hold()
    ensures { SeasonSamples }
{}
