// The walk of a ray through a record, step by step (cwbvh/traverse_macro.rs). A call takes a walker by value and gives back the next one.
#![tactic(auto)]

ghost use Rattle.std.specs.Prelude.{◌≡◌};
ghost use Rattle.ray.specs.Ray.{ray_from};
ghost use Rattle.traverse.specs.Walker.{walker_words, stepped_of, started_of, started, told_walker, step_bytes};

use advance::{CwBvh, Stack};
pub use advance::{Answer, Group, Walk};
use causes::Refusal;
use gate::AllOpen;
use ray::{Beam, Ray};

// A ray under way: its current reach is ray.tmax. Of the stack's words, a group each, `depth` wait.
#[derive(Clone, Copy)]
pub struct Walker {
    pub ray: Ray,
    pub octant: u32,
    pub walk: Walk,
    pub stack: Stack,
}

// The walker after a step, and what the step did.
#[derive(Clone, Copy)]
pub struct Stepped {
    pub walker: Walker,
    pub answer: Answer,
}

impl Walker {
    // A walker that has the first node before it, for a ray with zeros as +0.0.
    #[tactic(auto, using(crate::proofs::Begun::starts, crate::proofs::Begun::refuses))]
    pub fn new(beam: Beam) -> Result<Walker, Refusal>
        ensures { started_of result ≡ started (ray_from beam) }
    {
        let ray = Ray::new(beam);
        let accepted = ray.accepted();
        if !accepted {
            return Err(Refusal::RayRefused);
        }
        Ok(Walker {
            ray,
            octant: ray::octant(ray.direction),
            walk: advance::begin(),
            stack: [0; 32],
        })
    }

    // Tests one node, reports one position, or is done; the record is taken to have n positions. A refused step gives the walker back.
    pub fn step(self, record: &[u8], n: usize) -> Stepped
        ensures { stepped_of result ≡ step_bytes «record».now n (walker_words self) }
    {
        if let Err(refusal) = causes::record_sizes(record.len(), n) {
            return Stepped {
                walker: self,
                answer: Answer::Refused(refusal),
            };
        }
        let mut stack = self.stack;
        let bvh = CwBvh {
            bytes: record,
            positions: n,
        };
        let t = walk_step::step(self.walk, self.ray, self.octant, AllOpen, &mut stack, bvh);
        Stepped {
            walker: Walker {
                walk: t.walk,
                stack,
                ..self
            },
            answer: t.answer,
        }
    }

    // Tells the walker a distance: one that counts for its ray becomes the reach, any other does nothing, NaN too.
    pub fn tell(self, distance: f32) -> Walker
        ensures { walker_words result ≡ told_walker distance (walker_words self) }
    {
        let ray = self.ray;
        if ray.counts(distance) {
            let nearer = Ray {
                tmax: distance,
                ..ray
            };
            return Walker {
                ray: nearer,
                ..self
            };
        }
        self
    }
}
