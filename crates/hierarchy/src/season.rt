//! The guarantee of every season.
ghost use Rattle.hierarchy.specs.Lands.{terrain_of};
ghost use Rattle.hierarchy.specs.Guarantee.{SeasonKept};

use ground::Ground;

/// Every season on the ground keeps the guarantee.
pub fn season_keeps<G: Ground>(ground: &G)
    ensures { SeasonKept (terrain_of G.C.Cost G.Ground ground.now) (G.Ground.shuts ground.now) }
{}
