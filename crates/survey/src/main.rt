//! Surveys a few built-in grounds: what the checks answer, what the accepted grounds hold, and what shutting and clearing do.
#![tactic(auto)]

use std::io;

mod changes;
mod lists;
mod refused;
mod report;
mod sheets;

fn main(rt: HostRuntime) -> io::Result<()> {
    println!(rt; "TRAIL LISTS")?;
    println!(rt; "The cost word of seconds is their number.")?;
    lists::survey(&rt)?;
    println!(rt; "\nSHEETS")?;
    println!(rt; "The cost word of steps is straight × 4294967296 + diagonal.")?;
    sheets::survey(&rt)?;
    println!(rt; "\nREFUSED LISTS AND SHEETS")?;
    println!(rt; "The position is the record or the cell that is refused, or 0.")?;
    refused::survey_lists(&rt)?;
    refused::survey_sheets(&rt)?;
    println!(rt; "\nSHUTTING AND CLEARING")?;
    changes::survey_ring(&rt)?;
    changes::survey_sheet(&rt)
}
