// Boxes (aabb.rs): half areas, centres, unions, the distance at which a ray enters, and which boxes are accepted.
#![tactic(auto)]

ghost use Rattle.std.specs.Prelude.{◌≡◌};
ghost use Rattle.float.specs.Compare.{min_of, max_of, unsigned_zero};
ghost use Rattle.aabb.specs.Aabb.{half_area, center_of, union_of, slab_near, slab_far, box_near, box_far, entry_distance, in_order, accepted_box};

use ray::{Ray, Vec3};

// A box by its two corners.
#[derive(Clone, Copy)]
pub struct Aabb {
    pub min: Vec3,
    pub max: Vec3,
}

// Where the ray enters the slab between two planes of an axis, and where it leaves it.
#[tactic(auto, unfolding(crate::specs::Aabb::slab_near, crate::specs::Aabb::slab_far))]
fn slab(lo: f32, hi: f32, origin: f32, inverse: f32) -> (f32, f32)
    ensures near { result.0 ≡ slab_near lo hi origin inverse }
    ensures far { result.1 ≡ slab_far lo hi origin inverse }
{
    let a = (lo - origin) * inverse;
    let b = (hi - origin) * inverse;
    (float::min(a, b), float::max(a, b))
}

// The lower end of a union on one axis.
fn lower_end(a: f32, b: f32) -> f32
    ensures { result ≡ unsigned_zero (min_of a b) }
{
    float::unsigned_zero(float::min(a, b))
}

// The upper end. One function that is passed the lesser or the greater would be no plainer than these two.
fn upper_end(a: f32, b: f32) -> f32
    ensures { result ≡ unsigned_zero (max_of a b) }
{
    float::unsigned_zero(float::max(a, b))
}

impl Aabb {
    // Half the surface of the box.
    #[tactic(auto, unfolding(crate::specs::Aabb::half_area))]
    pub fn half_area(self) -> f32
        ensures { result ≡ half_area self }
    {
        let x = self.max.x - self.min.x;
        let y = self.max.y - self.min.y;
        let z = self.max.z - self.min.z;
        (x + y) * z + x * y
    }

    // The middle of the box.
    pub fn center(self) -> Vec3
        ensures { result ≡ center_of self }
    {
        Vec3 {
            x: (self.max.x + self.min.x) * 0.5,
            y: (self.max.y + self.min.y) * 0.5,
            z: (self.max.z + self.min.z) * 0.5,
        }
    }

    // The least box that holds both; a zero end is +0.0.
    #[tactic(auto, unfolding(crate::specs::Aabb::union_of))]
    pub fn union(self, other: Aabb) -> Aabb
        ensures { result ≡ union_of self other }
    {
        Aabb {
            min: Vec3 {
                x: lower_end(self.min.x, other.min.x),
                y: lower_end(self.min.y, other.min.y),
                z: lower_end(self.min.z, other.min.z),
            },
            max: Vec3 {
                x: upper_end(self.max.x, other.max.x),
                y: upper_end(self.max.y, other.max.y),
                z: upper_end(self.max.z, other.max.z),
            },
        }
    }

    // The largest distance at which the ray enters a slab of the box, and the least at which it leaves one.
    #[tactic(auto, unfolding(crate::specs::Aabb::box_near, crate::specs::Aabb::box_far))]
    fn span(self, ray: Ray) -> (f32, f32)
        ensures near { result.0 ≡ box_near self ray }
        ensures far { result.1 ≡ box_far self ray }
    {
        let x = slab(self.min.x, self.max.x, ray.origin.x, ray.inverse.x);
        let y = slab(self.min.y, self.max.y, ray.origin.y, ray.inverse.y);
        let z = slab(self.min.z, self.max.z, ray.origin.z, ray.inverse.z);
        let near = float::max(float::max(x.0, y.0), z.0);
        let far = float::min(float::min(x.1, y.1), z.1);
        (near, far)
    }

    // The distance at which the ray enters the box, a zero as +0.0; +infinity where it misses, as the requirements ask, which counts for no ray.
    pub fn intersect_ray(self, ray: Ray) -> f32
        ensures { result ≡ entry_distance self ray }
    {
        let (near, far) = self.span(ray);
        let hit = far >= near && far >= 0.0;
        if hit {
            float::unsigned_zero(near)
        } else {
            f32::INFINITY
        }
    }

    // Whether min is at most max on each axis.
    #[tactic(auto, unfolding(crate::specs::Aabb::in_order))]
    fn in_order(self) -> bool
        ensures { result ≡ in_order self }
    {
        self.min.x <= self.max.x && self.min.y <= self.max.y && self.min.z <= self.max.z
    }

    // Whether no cause of refusal 6 holds of the box.
    #[tactic(auto, unfolding(crate::specs::Aabb::accepted_box))]
    pub fn accepted(self) -> bool
        ensures { result ≡ accepted_box self }
    {
        self.min.bounded() && self.max.bounded() && self.in_order()
    }
}
