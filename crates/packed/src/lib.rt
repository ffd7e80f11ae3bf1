// Internal: vectors, boxes and rays as floats one behind the other in a slice.
#![tactic(auto)]

ghost use Rattle.std.specs.Prelude.{◌≡◌, ◌+◌, ◌*◌, ◌≤◌, length};
ghost use Rattle.packed.specs.Packed.{vec_in, box_in, beam_in, ray_in, rays_accepted};

use aabb::Aabb;
use ray::{Beam, Ray, Vec3};

// How many floats a box takes.
pub const BOX: usize = 6;

// How many floats a ray takes.
pub const RAY: usize = 8;

// Three floats, from a place on.
#[tactic(auto, unfolding(crate::specs::Packed::vec_in))]
fn vec_at(s: &[f32], at: usize) -> Vec3
    requires { at + 3 ≤ length s.now }
    ensures { result ≡ vec_in s.now at }
{
    Vec3 {
        x: s[at],
        y: s[at + 1],
        z: s[at + 2],
    }
}

// Box k of a list: min x, y, z, then max x, y, z.
#[tactic(auto, unfolding(crate::specs::Packed::box_in))]
pub fn box_at(s: &[f32], k: usize) -> Aabb
    requires { k * 6 + 6 ≤ length s.now }
    ensures { result ≡ box_in s.now k }
{
    let o = k * BOX;
    Aabb {
        min: vec_at(s, o),
        max: vec_at(s, o + 3),
    }
}

// Ray k of a list as it is asked for: its origin, its direction, tmin and tmax.
pub fn beam_at(s: &[f32], k: usize) -> Beam
    requires { k * 8 + 8 ≤ length s.now }
    ensures { result ≡ beam_in s.now k }
{
    let o = k * RAY;
    Beam {
        origin: vec_at(s, o),
        direction: vec_at(s, o + 3),
        tmin: s[o + 6],
        tmax: s[o + 7],
    }
}

// Ray k of a list.
#[tactic(auto, unfolding(crate::specs::Packed::ray_in))]
pub fn ray_at(s: &[f32], k: usize) -> Ray
    requires { k * 8 + 8 ≤ length s.now }
    ensures { result ≡ ray_in s.now k }
{
    Ray::new(beam_at(s, k))
}

// Whether every ray of a list is accepted.
pub fn rays_accepted(s: &[f32]) -> bool
    ensures { result ≡ rays_accepted s.now }
{
    (0..s.len() / RAY).all(|k| ray_at(s, k).accepted())
}
