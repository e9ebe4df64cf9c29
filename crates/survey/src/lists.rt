//! Trail lists that are accepted.
use crate::report;
use cost::seconds::Seconds;
use std::io;
use trails::{Record, TrailList, check_list};

/// A record of a way that takes so many seconds.
pub fn trail(from: usize, to: usize, seconds: u64) -> Record<Seconds> {
    Record {
        from,
        to,
        cost: Seconds::new(seconds),
    }
}

/// Four places in a ring.
pub fn ring() -> [Record<Seconds>; 4] {
    [
        trail(0, 1, 1),
        trail(1, 2, 1),
        trail(2, 3, 1),
        trail(3, 0, 1),
    ]
}

/// Checks three lists and prints what they hold.
pub fn survey(rt: &HostRuntime) -> io::Result<()> {
    let row = [trail(0, 1, 3), trail(1, 2, 4)];
    survey_list(
        rt,
        "a row of three places, ways of 3 and 4 seconds",
        3,
        &row,
    )?;
    survey_list(
        rt,
        "a ring of four places, each way of 1 second",
        4,
        &ring(),
    )?;
    let islands = [trail(0, 1, 2), trail(2, 3, 5)];
    survey_list(rt, "two islands of two places", 4, &islands)
}

fn survey_list(
    rt: &HostRuntime,
    name: &str,
    size: usize,
    records: &[Record<Seconds>],
) -> io::Result<()> {
    report::answer(rt, name, check_list(size, records))?;
    let ground = TrailList::new(size, records);
    report::counts(rt, &ground)?;
    report::ways(rt, &ground)
}
