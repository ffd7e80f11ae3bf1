// Internal: what the queries share.
#![tactic(auto)]

ghost use Rattle.std.specs.Prelude.{◌≡◌, false, ◌<◌, length, IfOk};
ghost use Rattle.causes.specs.Refusal.{cause_in};
ghost use Rattle.ray.specs.Ray.{octant_of, ray_from};
ghost use Rattle.record_shape.specs.Record.{node_count};
ghost use Rattle.walk_record.specs.WalkRay.{walk_ray, forged_ray};
ghost use Rattle.walk_record.specs.Record.{FieldsFit};
ghost use Rattle.query.specs.Entry.{entry_cause};

use advance::CwBvh;
use causes::Refusal;
use node_slot::Aim;
use ray::{Beam, Ray};

// What the walk of a query stands on: a record with nodes, whose fields are words and bytes, and a ray that no walker is forged by, in its octant.
#[derive(Clone, Copy)]
pub struct Query<'a> {
    pub bvh: CwBvh<'a>,
    pub aim: Aim,
    pub ghost some: { 0 < node_count bvh.bytes.now },
    pub ghost accepted: { forged_ray (walk_ray aim.ray) ≡ false },
    pub ghost own: { aim.octant ≡ octant_of aim.ray.direction },
    pub ghost fields: { FieldsFit bvh.bytes.now },
}

// Whether a query's walk may begin: `fits` says whether other lists have a length that fits, `bytes` is the record's length, `between` what the
// query's own causes between 2 and 9 say.
// `fits` is an argument and no switch: the queries differ in which lists there are, and each says whether its own fit.
pub fn check_entry(
    fits: bool,
    bytes: usize,
    n: usize,
    between: Result<(), Refusal>,
    ray: Ray,
) -> Result<(), Refusal>
    ensures { cause_in result ≡ entry_cause fits bytes n (cause_in between) ray }
{
    if !fits {
        return Err(Refusal::LengthUnfit);
    }
    causes::record_sizes(bytes, n)?;
    between?;
    if !ray.accepted() {
        return Err(Refusal::RayRefused);
    }
    Ok(())
}

impl<'a> Query<'a> {
    ghost use Rattle.query.specs.Begun.{Begun};

    // Where the walk of a query begins, for the ray that is asked for; none over a record without nodes.
    // Compiled into each query, since what it gives is large.
    #[inline(always)]
    #[tactic(auto, using(ray::proofs::Bounds::octant_lt))]
    pub fn begin(
        fits: bool,
        record: &'a [u8],
        n: usize,
        between: Result<(), Refusal>,
        beam: Beam,
    ) -> Result<Option<Query<'a>>, Refusal>
        ensures value { cause_in result ≡ entry_cause fits (length «record».now) n (cause_in between) (ray_from beam) }
        ensures walk { IfOk result (Begun «record».now n (ray_from beam)) }
    {
        let ray = Ray::new(beam);
        check_entry(fits, record.len(), n, between, ray)?;
        if record.is_empty() {
            return Ok(None);
        }
        let bvh = CwBvh {
            bytes: record,
            positions: n,
        };
        let aim = Aim::new(ray, ray::octant(ray.direction));
        Ok(Some(Query { bvh, aim }))
    }
}
