// Closest and miss over a record and its panes (cwbvh/mod.rs, ray_traverse and ray_traverse_miss).
#![tactic(auto)]

ghost use Rattle.std.specs.Prelude.{◌≡◌};
ghost use Rattle.ray.specs.Ray.{ray_from};
ghost use Rattle.closest.specs.Panes.{closest_of, miss_of, closest_result, miss_result};

use causes::Refusal;
use gate::AllOpen;
use pane_walk::IndexedPanes;
pub use pane_walk::{ClosestFound, ClosestHit, MissFound, Occlusion};
use ray::Beam;

// The first of the panes along a ray: of those that the walk reports, the nearest whose distance counts, the first met of equal ones.
pub fn closest(record: &[u8], indices: &[u32], panes: &[f32], beam: Beam) -> ClosestFound
    ensures { closest_result result ≡ closest_of «record».now indices.now panes.now (ray_from beam) }
{
    let on = IndexedPanes { indices, panes };
    pane_walk::closest(record, on, Ok(()), AllOpen, beam)
}

// Whether a ray meets no pane at a distance that counts: the walk ends at the first that is.
pub fn miss(record: &[u8], indices: &[u32], panes: &[f32], beam: Beam) -> Result<MissFound, Refusal>
    ensures { miss_result result ≡ miss_of «record».now indices.now panes.now (ray_from beam) }
{
    let on = IndexedPanes { indices, panes };
    pane_walk::miss(record, on, Ok(()), AllOpen, beam)
}
