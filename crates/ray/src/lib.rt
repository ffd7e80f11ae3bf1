// Rays (ray.rs): the safe inverse of a direction, the octant, and which rays are accepted.
#![tactic(auto)]

ghost use Rattle.std.specs.Prelude.{◌≡◌, cond};
ghost use Rattle.ray.specs.Ray.{below_zero, safe_inverse, octant_of, unsigned_vec, plain_vec, ray_from, counts, accepted_ray, bounded_vec};

// Three floats, in the place of the Rust's Vec3A.
#[derive(Clone, Copy)]
pub struct Vec3 {
    pub x: f32,
    pub y: f32,
    pub z: f32,
}

// A ray as it is asked for: from an origin along a direction, with its range of distances.
#[derive(Clone, Copy)]
pub struct Beam {
    pub origin: Vec3,
    pub direction: Vec3,
    pub tmin: f32,
    pub tmax: f32,
}

// A ray with the inverse of its direction, and the distances between which it meets something: its start and its reach.
#[derive(Clone, Copy)]
pub struct Ray {
    pub origin: Vec3,
    pub direction: Vec3,
    pub inverse: Vec3,
    pub tmin: f32,
    pub tmax: f32,
}

// 2^23 with the sign bit of v where |v| <= 2^-23, and 1 / v elsewhere.
pub fn safe_inverse(v: f32) -> f32
    ensures { result ≡ safe_inverse v }
{
    if -1.1920928955078125e-7 <= v && v <= 1.1920928955078125e-7 {
        if v.is_sign_negative() {
            -8388608.0
        } else {
            8388608.0
        }
    } else {
        1.0 / v
    }
}

// The weight where v is below zero, else 0; -0.0 is not below zero.
fn below_zero(v: f32, weight: u32) -> u32
    ensures { result ≡ cond (below_zero v) weight 0 }
{
    if v < 0.0 { weight } else { 0 }
}

// 7 less 4, 2, 1 for an x, a y, a z below zero.
#[tactic(auto, using(crate::proofs::Bounds::weight_le), unfolding(crate::specs::Ray::octant_of))]
pub fn octant(direction: Vec3) -> u32
    ensures { result ≡ octant_of direction }
{
    7 - (below_zero(direction.x, 4) + below_zero(direction.y, 2) + below_zero(direction.z, 1))
}

impl Vec3 {
    // Whether each component is finite and within 2^40 of zero.
    #[tactic(auto, unfolding(crate::specs::Ray::bounded_vec))]
    pub fn bounded(self) -> bool
        ensures { result ≡ bounded_vec self }
    {
        float::in_bounds(self.x) && float::in_bounds(self.y) && float::in_bounds(self.z)
    }

    // Whether no component is -0.0.
    #[tactic(auto, unfolding(crate::specs::Ray::plain_vec))]
    pub fn plain(self) -> bool
        ensures { result ≡ plain_vec self }
    {
        !float::is_minus_zero(self.x)
            && !float::is_minus_zero(self.y)
            && !float::is_minus_zero(self.z)
    }

    // Each zero component as +0.0.
    #[tactic(auto, unfolding(crate::specs::Ray::unsigned_vec))]
    fn unsigned(self) -> Vec3
        ensures { result ≡ unsigned_vec self }
    {
        Vec3 {
            x: float::unsigned_zero(self.x),
            y: float::unsigned_zero(self.y),
            z: float::unsigned_zero(self.z),
        }
    }
}

impl Ray {
    // The ray that is asked for, zeros of either sign as +0.0.
    #[tactic(auto, unfolding(crate::specs::Ray::ray_of))]
    pub fn new(beam: Beam) -> Ray
        ensures { result ≡ ray_from beam }
    {
        let origin = beam.origin.unsigned();
        let direction = beam.direction.unsigned();
        Ray {
            origin,
            direction,
            inverse: Vec3 {
                x: safe_inverse(direction.x),
                y: safe_inverse(direction.y),
                z: safe_inverse(direction.z),
            },
            tmin: beam.tmin,
            tmax: beam.tmax,
        }
    }

    // Whether a distance counts: it is not before the start, and below the reach. NaN counts for no ray.
    #[tactic(auto, unfolding(crate::specs::Ray::counts))]
    pub fn counts(self, distance: f32) -> bool
        ensures { result ≡ counts self distance }
    {
        !(distance < self.tmin) && distance < self.tmax
    }

    // Whether no cause of refusal 9 holds of the ray.
    #[tactic(auto, unfolding(crate::specs::Ray::accepted_ray))]
    pub fn accepted(self) -> bool
        ensures { result ≡ accepted_ray self }
    {
        self.origin.bounded()
            && self.direction.bounded()
            && !self.tmin.is_nan()
            && !self.tmax.is_nan()
    }
}
