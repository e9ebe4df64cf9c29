//! Octile steps are costs.
ghost use Rattle.std.specs.Prelude.{◌≡◌, ◌+◌, ◌*◌, ◌<◌, Decides};
ghost use Rattle.cost.specs.Worth.{below, within};
ghost use Rattle.cost.specs.Octiles.{octile, steps_of, zero_o, over_o, plus_o, less_o, way_o, word_o, unword_o};
ghost use Rattle.cost.specs.OctileLaws.{laws_o, weight_of, same_weight};
ghost use Rattle.cost.specs.Roots.{LessWorth};
ghost use Rattle.std.proofs.Common.{rules, arith};
ghost use Rattle.std.specs.Cmp.{partial_order_from_own_ties};
ghost use Rattle.std.specs.Cmp.Rules.{comparing};
ghost use Rattle.std.specs.Ordering.{nat_cmp, on, as_partial_cmp};

use super::Octile;
use crate::{CAP, Cost, OVER, WAY_CAP};
use std::cmp::Ordering;

// A word has the straight steps in its upper half and the diagonal ones in the lower.
const UPPER: u64 = 4_294_967_296;

impl Octile {
    /// So many steps, or Over where they are worth more than 16,777,215.
    pub fn new(straight: u32, diagonal: u32) -> Octile
        ensures { result ≡ octile straight diagonal }
    {
        if is_in_cap(straight, diagonal) {
            Octile { straight, diagonal }
        } else {
            Octile {
                straight: OVER,
                diagonal: 0,
            }
        }
    }

    /// The straight and the diagonal steps, or none at Over.
    pub fn steps(self) -> Option<(u32, u32)>
        ensures { result ≡ steps_of self }
    {
        (self.straight < OVER).then_some((self.straight, self.diagonal))
    }

    /// Whether this cost is worth less than the other, straight steps being worth 1 and diagonal ones √2.
    pub fn is_worth_less(self, other: Octile) -> bool
        ensures by_squares { result ≡ less_o self other }
        ensures by_root { Decides result (LessWorth self.straight self.diagonal other.straight other.diagonal) }
    {
        self.is_less(other)
    }
}

// By the weight and not by the steps, so it is not derived.
impl Ord for Octile {
    ghost cmp = { on weight_of nat_cmp };

    ghost total = { Prim.search (comparing, rules) };

    ghost matches_partial_cmp = { Prim.search (comparing, rules) };

    ghost matches_eq = { same_weight };

    fn cmp(&self, other: &Octile) -> Ordering {
        weight(self.straight, self.diagonal).cmp(&weight(other.straight, other.diagonal))
    }
}

impl PartialOrd for Octile {
    ghost partial_cmp = { as_partial_cmp (on weight_of nat_cmp) };

    ghost laws = { partial_order_from_own_ties (Prim.search (comparing, rules)) same_weight };

    fn partial_cmp(&self, other: &Octile) -> Option<Ordering> {
        Some(self.cmp(other))
    }
}

// Seconds has the same lines, and each names definitions of its own: there is nothing in them to say once.
impl Cost for Octile {
    ghost zero = { zero_o };

    ghost over = { over_o };

    ghost plus = { plus_o };

    ghost less = { less_o };

    ghost way = { way_o };

    ghost word = { word_o };

    ghost unword = { unword_o };

    ghost laws = { laws_o };

    ghost small = { Prim.search rules };

    ghost narrow = { Prim.search rules };

    fn zero() -> Octile {
        Octile::new(0, 0)
    }

    fn over() -> Octile {
        Octile::new(OVER, 0)
    }

    fn plus(self, other: Octile) -> Octile {
        Octile::new(
            self.straight + other.straight,
            self.diagonal + other.diagonal,
        )
    }

    #[tactic(auto, using(crate::specs::OctileLaws::less_weight))]
    fn is_less(self, other: Octile) -> bool {
        self < other
    }

    fn is_way_cost(self) -> bool {
        Octile::zero() < self && self <= Octile::new(WAY_CAP, 0)
    }

    fn to_word(self) -> u64 {
        self.steps().map_or(
            u64::MAX,
            |(straight, diagonal)| u64::from(straight) * UPPER + u64::from(diagonal),
        )
    }

    fn from_word(bits: u64) -> Octile {
        // Both fit, as the check shows; `u32::try_from` would ask for a case that there is not.
        Octile::new((bits / UPPER) as u32, (bits % UPPER) as u32)
    }
}

// Whether so many steps are worth at most the cap.
fn is_in_cap(straight: u32, diagonal: u32) -> bool
    ensures { result ≡ within 16777215 straight diagonal }
{
    diagonal <= CAP && weight(straight, diagonal) <= weight(CAP, 0)
}

// A whole number that is less exactly where the steps are worth less, as long as there are fewer than 93,222,358 diagonal ones:
// 131,836,323 / 93,222,358 is so near to √2 that no fraction with a smaller denominator is nearer.
fn weight(straight: u32, diagonal: u32) -> u64
    ensures { result ≡ straight * 93222358 + diagonal * 131836323 }
{
    u64::from(straight) * 93_222_358 + u64::from(diagonal) * 131_836_323
}
