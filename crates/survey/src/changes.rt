//! Shutting and clearing places.
use crate::lists::ring;
use crate::report;
use crate::sheets::PILLAR;
use ground::{Ground, Refusal};
use sheet::Sheet;
use std::{fmt, io};
use trails::TrailList;

/// Shutting or clearing a place.
#[derive(Clone, Copy)]
enum Change {
    Shut(usize),
    Clear(usize),
}

impl Change {
    fn make<G: Ground>(self, ground: &mut G) -> Result<(), Refusal> {
        match self {
            Change::Shut(place) => ground.shut(place),
            Change::Clear(place) => ground.clear(place),
        }
    }
}

impl fmt::Display for Change {
    fn fmt<W: fmt::Write>(&self, f: &mut fmt::Formatter<W>) -> fmt::Result {
        match self {
            Change::Shut(place) => write!(f, "shut place {place}"),
            Change::Clear(place) => write!(f, "clear place {place}"),
        }
    }
}

/// Shuts and clears places of the ring of four.
pub fn survey_ring(rt: &HostRuntime) -> io::Result<()> {
    println!(rt; "the ring of four places")?;
    let records = ring();
    let mut ground = TrailList::new(4, &records);
    let changes = [
        Change::Shut(1),
        Change::Shut(1),
        Change::Shut(4),
        Change::Clear(2),
        Change::Clear(4),
    ];
    survey_changes(rt, &mut ground, &changes)?;
    survey_changes(rt, &mut ground, &[Change::Clear(1)])
}

/// Shuts and clears cells of the sheet with its middle blocked.
pub fn survey_sheet(rt: &HostRuntime) -> io::Result<()> {
    println!(rt; "the sheet of 3 by 3 with its middle blocked")?;
    let mut ground = Sheet::new(3, 3, &PILLAR);
    let changes = [
        Change::Shut(4),
        Change::Clear(0),
        Change::Clear(9),
        Change::Clear(4),
        Change::Shut(1),
        Change::Shut(3),
    ];
    survey_changes(rt, &mut ground, &changes)
}

// Makes the changes in turn, prints what each answers, and what the ground then holds.
fn survey_changes<G: Ground>(
    rt: &HostRuntime,
    ground: &mut G,
    changes: &[Change],
) -> io::Result<()> {
    for change in changes {
        print!(rt; "  ")?;
        report::answer(rt, *change, change.make(ground))?;
    }
    report::counts(rt, ground)?;
    report::ways(rt, ground)
}
