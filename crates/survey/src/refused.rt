//! Lists and sheets that are refused.
use crate::lists::trail;
use crate::report;
use sheet::check_sheet;
use std::io;
use trails::check_list;

/// A list for each of the refusals 1 to 6.
pub fn survey_lists(rt: &HostRuntime) -> io::Result<()> {
    let good = trail(0, 1, 3);
    report::answer(rt, "a list of 257 places", check_list(257, &[good]))?;
    report::answer(rt, "a list of 1025 records", check_list(3, &[good; 1025]))?;
    let outside = [good, trail(1, 3, 4)];
    report::answer(
        rt,
        "a list of 3 places that names place 3",
        check_list(3, &outside),
    )?;
    let circle = [good, trail(2, 2, 4)];
    report::answer(
        rt,
        "a list with a way from place 2 to itself",
        check_list(3, &circle),
    )?;
    let dear = [good, trail(1, 2, 65_536)];
    report::answer(
        rt,
        "a list with a way of 65536 seconds",
        check_list(3, &dear),
    )?;
    let twice = [good, trail(1, 2, 4), trail(1, 0, 5)];
    report::answer(
        rt,
        "a list that names one pair twice",
        check_list(3, &twice),
    )
}

/// A sheet for each of the refusals 1, 2 and 7.
pub fn survey_sheets(rt: &HostRuntime) -> io::Result<()> {
    report::answer(rt, "a sheet of width 0", check_sheet(0, 3, &[]))?;
    report::answer(
        rt,
        "a sheet of 3 by 3 with 8 bytes",
        check_sheet(3, 3, &[0; 8]),
    )?;
    let odd = [0, 1, 0, 2];
    report::answer(
        rt,
        "a sheet of 2 by 2 with a byte 2",
        check_sheet(2, 2, &odd),
    )
}
