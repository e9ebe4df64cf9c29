//! Prices: costs, or none. They are no `Ord`: a cost of a kind that is not known has none.
ghost use Rattle.std.specs.Prelude.{◌≡◌};
ghost use Rattle.levelling.specs.Priced.{at_most, dearer as dearer_of};

use cost::Cost;

/// Whether a price is a cost that is at most another.
pub(crate) fn is_at_most<C: Cost>(price: Option<C>, limit: Option<C>) -> bool
    ensures { result ≡ at_most C.Cost price limit }
{
    matches!((price, limit), (Some(cost), Some(most)) if !most.is_less(cost))
}

/// The dearer of two prices; none is cheaper than every cost.
pub(crate) fn dearer<C: Cost>(best: Option<C>, price: Option<C>) -> Option<C>
    ensures { result ≡ dearer_of C.Cost best price }
{
    if price.is_none() || is_at_most(price, best) {
        best
    } else {
        price
    }
}
