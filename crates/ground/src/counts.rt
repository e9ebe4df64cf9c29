//! How many places of a ground are free, and how many ways are present.
ghost use Rattle.std.specs.Prelude.{◌≡◌, ◌≤◌, is_some};
ghost use Rattle.ground.specs.Counts.{count, free_count, way_count};

use crate::Ground;

/// The number of free places.
pub fn free_places<G: Ground>(ground: &G) -> usize
    ensures { result ≡ free_count (G.Ground.size ground.now) (G.Ground.shuts ground.now) }
{
    free_below(ground, ground.size())
}

/// The number of ways present, each counted once.
pub fn ways_present<G: Ground>(ground: &G) -> usize
    ensures { result ≡ way_count (G.Ground.size ground.now) (G.Ground.chart ground.now (G.Ground.shuts ground.now)) }
{
    ways_below(ground, ground.size())
}

// The number of free places below `end`.
fn free_below<G: Ground>(ground: &G, end: usize) -> usize
    requires { end ≤ 256 }
    ensures { result ≡ free_count end (G.Ground.shuts ground.now) }
{
    // a sum and no `filter`, which branches at each place
    (0..end)
        .map(|place| usize::from(!ground.is_shut(place)))
        .sum()
}

// The number of ways between places below `end`, each counted at the larger of its places.
fn ways_below<G: Ground>(ground: &G, end: usize) -> usize
    requires { end ≤ 256 }
    ensures { result ≡ way_count end (G.Ground.chart ground.now (G.Ground.shuts ground.now)) }
{
    (0..end).map(|place| ways_to_smaller(ground, place)).sum()
}

// The number of places below `place` that have a way to it.
fn ways_to_smaller<G: Ground>(ground: &G, place: usize) -> usize
    ensures { result ≡ count (λ a. is_some (G.Ground.chart ground.now (G.Ground.shuts ground.now) a place)) place }
{
    (0..place)
        .filter(|other| ground.way(*other, place).is_some())
        .count()
}
