//! What least walks keep to, on every ground.
ghost use Rattle.hierarchy.specs.Lands.{land_of};
ghost use Rattle.hierarchy.specs.LeastWalks.{LeastWalksKeep};

use ground::Ground;

/// Between two joined places there is a least walk, whose cost is computed and is not Over, and no walk of that cost passes a place
/// twice.
pub fn least_walks_keep<G: Ground>(ground: &G)
    ensures { LeastWalksKeep (land_of G.C.Cost G.Ground ground.now) }
{
    // `way` ensures that every way of the ground has a way cost, and the proof needs that.
    let _ = ground.way(0, 0);
}
