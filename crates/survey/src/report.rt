//! Printing answers and grounds.
use cost::Cost;
use ground::counts::{free_places, ways_present};
use ground::{Ground, Refusal};
use std::fmt::Display;
use std::io;

/// Prints what was asked, and what was answered.
pub fn answer<A: Display + Drop>(
    rt: &HostRuntime,
    asked: A,
    answer: Result<(), Refusal>,
) -> io::Result<()> {
    match answer {
        Ok(()) => println!(rt; "{asked}: accepted"),
        Err(refusal) => {
            let number = refusal.number();
            let position = refusal.position();
            println!(rt; "{asked}: refused: number {number}, position {position}: {refusal}")
        }
    }
}

/// Prints how many places, free places and ways a ground has.
pub fn counts<G: Ground>(rt: &HostRuntime, ground: &G) -> io::Result<()> {
    let places = ground.size();
    let free = free_places(ground);
    let ways = ways_present(ground);
    println!(rt; "  places {places}, free {free}, ways {ways}")
}

/// Prints each way of a ground once, with its cost word.
pub fn ways<G: Ground>(rt: &HostRuntime, ground: &G) -> io::Result<()> {
    let places = ground.size();
    for from in 0..places {
        for to in from..places {
            if let Some(cost) = ground.way(from, to) {
                let word = cost.to_word();
                println!(rt; "  way {from} - {to}, cost word {word}")?;
            }
        }
    }
    Ok(())
}
