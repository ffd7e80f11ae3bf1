// Any-hit over a record (cwbvh/mod.rs, ray_traverse_anyhit): the positions that a ray passes, in the order of the walk.
#![tactic(auto)]

ghost use Rattle.std.specs.Prelude.{◌≡◌, length};
ghost use Rattle.ray.specs.Ray.{ray_from};
ghost use Rattle.any_hit.specs.AnyHit.{any_hit_of, list_after, result_of};

pub use any_hit_walk::{AnyHit, AnyHitError};
use gate::AllOpen;
use ray::Beam;

// The positions that a ray passes in a record that is taken to have n positions, in front of `list`; nothing is written unless all fit.
#[tactic(auto, unfolding(crate::specs::AnyHit::any_hit_of, crate::specs::AnyHit::list_after))]
pub fn any_hit(record: &[u8], n: usize, beam: Beam, list: &mut [u32]) -> Result<AnyHit, AnyHitError>
    ensures result_value { result_of result ≡ any_hit_of «record».now n (ray_from beam) (length list.old) }
    ensures list_after { list.new ≡ list_after «record».now n (ray_from beam) list.old }
{
    any_hit_walk::any_hit(record, n, Ok(()), AllOpen, beam, list)
}
