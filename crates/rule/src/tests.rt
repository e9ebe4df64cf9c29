//! The rules at a few pairs.
use crate::{NoShortcuts, Rule, SameValley};

#[test]
fn only_pairs_of_one_valley_are_permitted(rt: HostRuntime) {
    let rule = SameValley::new(&[1, 1, 2]);
    assert!(rt; rule.permits(0, 1));
    assert!(rt; !rule.permits(0, 2));
    assert!(rt; !rule.permits(0, 3), "place 3 is beyond the bytes");
    assert!(rt; !NoShortcuts.permits(0, 1));
}
