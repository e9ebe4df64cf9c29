//! Sheets that are accepted.
use crate::report;
use sheet::{Sheet, check_sheet};
use std::io;

/// Three rows of three cells, of which the middle one is blocked.
pub const PILLAR: [u8; 9] = [0, 0, 0, 0, 1, 0, 0, 0, 0];

/// Checks two sheets and prints what they hold; the ways of the great one are only counted.
pub fn survey(rt: &HostRuntime) -> io::Result<()> {
    let pillar = "a sheet of 3 by 3 with its middle blocked";
    report::answer(rt, pillar, check_sheet(3, 3, &PILLAR))?;
    let small = Sheet::new(3, 3, &PILLAR);
    report::counts(rt, &small)?;
    report::ways(rt, &small)?;
    let open = [0; 256];
    report::answer(rt, "an open sheet of 16 by 16", check_sheet(16, 16, &open))?;
    report::counts(rt, &Sheet::new(16, 16, &open))
}
