//! Grounds at their limits, and each refusal once.
use cost::seconds::Seconds;
use ground::{Ground, Refusal};
use sheet::{Sheet, check_sheet};
use std::array;
use trails::{Record, TrailList, check_list};

fn trail(from: usize, to: usize, seconds: u64) -> Record<Seconds> {
    Record {
        from,
        to,
        cost: Seconds::new(seconds),
    }
}

// The number and the position of a refusal, or none.
fn refused(answer: Result<(), Refusal>) -> Option<(u8, usize)> {
    let refusal = answer.err()?;
    Some((refusal.number(), refusal.position()))
}

// Records of 1,025 different pairs.
fn all_pairs_apart() -> [Record<Seconds>; 1025] {
    array::from_fn(|at| trail(at / 64, 100 + at % 64, 1))
}

#[test]
fn lists_have_at_most_256_places(rt: HostRuntime) {
    let records = [trail(0, 255, 1)];
    assert_eq!(rt; refused(check_list(256, &records)), None);
    assert_eq!(rt; refused(check_list(257, &records)), Some((1, 0)));
}

#[test]
fn lists_have_at_most_1024_records(rt: HostRuntime) {
    let records = all_pairs_apart();
    assert_eq!(rt; refused(check_list(256, &records[0..1024])), None);
    assert_eq!(rt; refused(check_list(256, &records)), Some((2, 0)));
}

#[test]
fn costs_are_at_most_65535_seconds(rt: HostRuntime) {
    assert_eq!(rt; refused(check_list(2, &[trail(0, 1, 65_535)])), None);
    assert_eq!(rt;
        refused(check_list(2, &[trail(0, 1, 65_536)])),
        Some((5, 0))
    );
}

#[test]
fn records_are_refused(rt: HostRuntime) {
    let good = trail(0, 1, 3);
    assert_eq!(rt;
        refused(check_list(3, &[good, trail(1, 3, 4)])),
        Some((3, 1))
    );
    assert_eq!(rt;
        refused(check_list(3, &[good, trail(2, 2, 4)])),
        Some((4, 1))
    );
    assert_eq!(rt;
        refused(check_list(3, &[good, trail(1, 2, 0)])),
        Some((5, 1))
    );
    assert_eq!(rt;
        refused(check_list(3, &[good, trail(1, 0, 4)])),
        Some((6, 1))
    );
}

#[test]
fn sheets_are_refused(rt: HostRuntime) {
    assert_eq!(rt; refused(check_sheet(16, 16, &[0; 256])), None);
    assert_eq!(rt; refused(check_sheet(257, 1, &[0; 257])), Some((1, 0)));
    assert_eq!(rt;
        refused(check_sheet(usize::MAX, usize::MAX, &[0])),
        Some((1, 0))
    );
    assert_eq!(rt; refused(check_sheet(2, 2, &[0, 0, 0])), Some((2, 0)));
    assert_eq!(rt; refused(check_sheet(2, 2, &[0, 1, 0, 2])), Some((7, 3)));
}

#[test]
fn shutting_and_clearing_are_refused(rt: HostRuntime) {
    let records = [trail(0, 1, 3)];
    let mut ground = TrailList::new(2, &records);
    assert_eq!(rt; refused(ground.shut(2)), Some((9, 0)));
    assert_eq!(rt; refused(ground.shut(0)), None);
    assert_eq!(rt; refused(ground.shut(0)), Some((10, 0)));
    assert_eq!(rt; refused(ground.clear(1)), Some((11, 0)));
    assert!(rt; ground.way(0, 1).is_none());
    assert_eq!(rt; refused(ground.clear(0)), None);
    assert!(rt; ground.way(1, 0).is_some());
}

#[test]
fn corners_are_passed_only_between_free_cells(rt: HostRuntime) {
    let mut ground = Sheet::new(2, 2, &[0, 1, 0, 0]);
    assert!(rt; ground.way(0, 3).is_none());
    assert_eq!(rt; refused(ground.clear(1)), None);
    assert!(rt; ground.way(0, 3).is_some());
    assert_eq!(rt; Sheet::new(2, 2, &[0, 1, 0]).size(), 0);
}
