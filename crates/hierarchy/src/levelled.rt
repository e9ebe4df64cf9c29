//! What levelling keeps to, on every ground.
ghost use Rattle.hierarchy.specs.Keeping.{LevellingKeeps, NeedIsTested};
ghost use Rattle.hierarchy.specs.Kinds.{kind_of};
ghost use Rattle.hierarchy.specs.Lands.{Land, land_of};

use ground::Ground;

/// By every rule, and for every number of levels from 1, levelling the ground makes a well levelled book. On every land, the pairs
/// that a visit takes are those that need a shortcut.
pub fn levelling_keeps<G: Ground>(ground: &G)
    ensures kept { LevellingKeeps (land_of G.C.Cost G.Ground ground.now) }
    ensures tested { (land : Land (kind_of G.C.Cost)) → NeedIsTested land }
{}
