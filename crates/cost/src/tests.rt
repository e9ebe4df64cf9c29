//! Costs at their limits.
use crate::Cost;
use crate::octile::Octile;
use crate::seconds::Seconds;

#[test]
fn seconds_up_to_65535_stand_on_a_way(rt: HostRuntime) {
    assert!(rt; Seconds::new(65_535).is_way_cost());
    assert!(rt; !Seconds::new(65_536).is_way_cost());
    assert!(rt; Seconds::new(1).is_way_cost());
    assert!(rt; !Seconds::new(0).is_way_cost());
}

#[test]
fn sums_of_seconds_past_16777215_are_over(rt: HostRuntime) {
    let most = Seconds::new(16_777_214).plus(Seconds::new(1));
    assert_eq!(rt; most.to_word(), 16_777_215);
    assert_eq!(rt; most.plus(Seconds::new(1)).to_word(), u64::MAX);
    assert_eq!(rt; Seconds::from_word(16_777_216).number(), None);
}

#[test]
fn octile_costs_are_ordered_exactly(rt: HostRuntime) {
    assert!(rt; Octile::new(41, 0).is_less(Octile::new(0, 29)));
    assert!(rt; Octile::new(0, 12).is_less(Octile::new(17, 0)));
    assert!(rt; !Octile::new(17, 0).is_less(Octile::new(0, 12)));
    assert_eq!(rt;
        Octile::new(16_777_214, 0).plus(Octile::new(0, 1)).to_word(),
        u64::MAX
    );
    assert_eq!(rt; Octile::from_word(17_179_869_184).steps(), Some((4, 0)));
}
