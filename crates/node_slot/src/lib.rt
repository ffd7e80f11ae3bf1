// Internal: a ray against the eight slot boxes of a node, as a mask of children and positions (cwbvh/node.rs).
#![tactic(auto)]

ghost use Rattle.std.specs.Prelude.{◌≡◌, ◌-◌, ◌%◌, ◌≤◌, ◌<◌};
ghost use Rattle.std.specs.Int.Bits.{bit_and, bit_xor};
ghost use Rattle.node.specs.Node.{node_from, child_index};
ghost use Rattle.node_slot.specs.Slot.{plane_at};
ghost use Rattle.node_slot.specs.Mask.{only_if, hit_mask};
ghost use Rattle.node_slot.specs.Parts.{extents_of, point_of, ray_grid_of, near_end, ends_of, box_passes, slot_passes, word_mask, Marks, PlacesFit};

use gate::Gate;
use node::NodeRef;
use ray::{Ray, Vec3};

// No slot counts nearer than this, whatever the ray's start.
const NEAR_LIMIT: f32 = 0.0001;

// The ray in a node's grid: what a step of the grid adds to the distance on each axis, the distances of p's planes, and between which distances the
// ray counts.
#[derive(Clone, Copy)]
pub struct RayGrid {
    pub inverse: Vec3,
    pub origin: Vec3,
    pub near: f32,
    pub tmax: f32,
}

// The end of each axis that the ray meets first: 1, the upper, where its direction is below zero.
// No ghost field says that they are below 2, since the definition `ends_of` makes an Ends too.
#[derive(Clone, Copy)]
pub struct Ends {
    pub x: usize,
    pub y: usize,
    pub z: usize,
}

// A ray with what every node's test needs of it: the ends that it meets first, and its octant.
// An octant is a number below 8, since every use takes it as one; where a walk has no Aim yet, it is asked so.
#[derive(Clone, Copy)]
pub struct Aim {
    pub ray: Ray,
    pub ends: Ends,
    pub octant: u32,
    pub ghost near: { ends ≡ ends_of ray.direction },
    pub ghost eight: { octant < 8 },
}

// The steps of a node's grid.
pub fn compute_extent(ex: u8, ey: u8, ez: u8) -> Vec3
    ensures { result ≡ extents_of ex ey ez }
{
    Vec3 {
        x: float::scale(ex),
        y: float::scale(ey),
        z: float::scale(ez),
    }
}

// The corner p of a node.
fn point(node: NodeRef) -> Vec3
    ensures { result ≡ point_of (node_from node.entry.bytes.now 0) }
{
    let [x, y, z] = node.point();
    Vec3 {
        x: float::of_bits(x),
        y: float::of_bits(y),
        z: float::of_bits(z),
    }
}

// The ray in the grid of a node.
fn ray_in_grid(node: NodeRef, ray: Ray) -> RayGrid
    ensures { result ≡ ray_grid_of (node_from node.entry.bytes.now 0) ray }
{
    let [ex, ey, ez] = node.exponents();
    let extent = compute_extent(ex, ey, ez);
    let p = point(node);
    RayGrid {
        inverse: Vec3 {
            x: extent.x * ray.inverse.x,
            y: extent.y * ray.inverse.y,
            z: extent.z * ray.inverse.z,
        },
        origin: Vec3 {
            x: (p.x - ray.origin.x) * ray.inverse.x,
            y: (p.y - ray.origin.y) * ray.inverse.y,
            z: (p.z - ray.origin.z) * ray.inverse.z,
        },
        near: float::max(ray.tmin, NEAR_LIMIT),
        tmax: ray.tmax,
    }
}

// The end of an axis that a ray of this direction meets first.
fn near_end(direction: f32) -> usize
    ensures { (result ≡ near_end direction) × (result < 2) }
{
    if direction < 0.0 { 1 } else { 0 }
}

// The distance at which the ray meets the plane at byte q of an axis.
#[tactic(auto, unfolding(crate::specs::Slot::plane_at))]
fn plane(q: u8, inverse: f32, origin: f32) -> f32
    ensures { result ≡ plane_at q inverse origin }
{
    q as f32 * inverse + origin
}

// Whether the ray passes a box: the three bytes that it meets first, and the three others.
#[tactic(auto, unfolding(crate::specs::Parts::box_passes))]
fn box_passes(nx: u8, ny: u8, nz: u8, fx: u8, fy: u8, fz: u8, g: RayGrid) -> bool
    ensures { result ≡ box_passes nx ny nz fx fy fz g }
{
    let ax = plane(nx, g.inverse.x, g.origin.x);
    let ay = plane(ny, g.inverse.y, g.origin.y);
    let az = plane(nz, g.inverse.z, g.origin.z);
    let bx = plane(fx, g.inverse.x, g.origin.x);
    let by = plane(fy, g.inverse.y, g.origin.y);
    let bz = plane(fz, g.inverse.z, g.origin.z);
    let first = float::max(float::max(float::max(ax, ay), az), g.near);
    let last = float::min(float::min(float::min(bx, by), bz), g.tmax);
    first <= last
}

// Whether the ray passes slot k of a node.
fn slot_passes(node: NodeRef, e: Ends, g: RayGrid, k: usize) -> bool
    requires { (k < 8) × (e.x < 2) × (e.y < 2) × (e.z < 2) }
    ensures { result ≡ slot_passes node.entry.bytes.now 0 e g k }
{
    let nx = node.corner(0, e.x, k);
    let ny = node.corner(1, e.y, k);
    let nz = node.corner(2, e.z, k);
    let fx = node.corner(0, 1 - e.x, k);
    let fy = node.corner(1, 1 - e.y, k);
    let fz = node.corner(2, 1 - e.z, k);
    box_passes(nx, ny, nz, fx, fy, fz, g)
}

// 7 where the ray passes a slot, 0 where not.
fn mark(passes: bool) -> u8
    ensures { result ≡ only_if passes 7 }
{
    if passes { 7 } else { 0 }
}

// A byte for each slot of a node, its mark. The loop compiles to no branch.
fn marks(node: NodeRef, e: Ends, g: RayGrid) -> u64
    requires { (e.x < 2) × (e.y < 2) × (e.z < 2) }
    ensures { Marks (slot_passes node.entry.bytes.now 0 e g) result }
{
    let mut marks = [0u8; 8];
    for k in 0..8 {
        marks[k] = mark(slot_passes(node, e, g, k));
    }
    words::load_u64(&marks, 0)
}

// The bits of the marked slots, each at its index.
fn marked_bits(marks: u64, child8: u64, index8: u64) -> u32
    requires { PlacesFit index8 }
    ensures { result ≡ word_mask 8 (bit_and child8 marks) index8 }
{
    let child = child8 & marks;
    let mut mask: u32 = 0;
    for k in 0..8u32 {
        mask |= words::low_byte(child >> (8 * k)) << words::low_byte(index8 >> (8 * k));
    }
    mask
}

// The ends that a ray of this direction meets first.
fn near_ends(direction: Vec3) -> Ends
    ensures { result ≡ ends_of direction }
{
    Ends {
        x: near_end(direction.x),
        y: near_end(direction.y),
        z: near_end(direction.z),
    }
}

impl Aim {
    // The ends are found once for a ray, whatever nodes it meets.
    pub fn new(ray: Ray, octant: u32) -> Aim
        requires { octant < 8 }
        ensures { (result.ray ≡ ray) × (result.octant ≡ octant) }
    {
        let ends = near_ends(ray.direction);
        Aim { ray, ends, octant }
    }
}

// The hit mask of a node, number v of its record, for a ray of this octant.
pub fn intersect_ray<G: Gate>(node: NodeRef, v: usize, aim: &Aim, gate: G) -> u32
    ensures { result ≡ hit_mask (G.gates gate) v (node_from node.entry.bytes.now 0) aim.now.ray aim.now.octant }
{
    let g = ray_in_grid(node, aim.ray);
    let passed = marks(node, aim.ends, g);
    if passed == 0 {
        return 0;
    }
    let on = gate.keep_open(v, passed);
    let bits = node_meta::get_child_and_index_bits(node.metas(), aim.octant);
    marked_bits(on, bits.child, bits.index)
}

// The number of the child that a bit of a hit mask stands for. The low byte of group is the node's imask, above which hit bits may stand:
// the rank is counted over imask.
#[tactic(auto, unfolding(node::specs::Node::child_index))]
pub fn hit_child(child_base_idx: u32, group: u32, bit: u32, octant: u32) -> usize
    requires { (24 ≤ bit) × (bit < 32) × (octant < 8) }
    ensures { result ≡ child_index child_base_idx (group % 256) (bit_xor (bit - 24) octant) }
{
    let slot = (bit - 24) ^ octant;
    child_base_idx as usize + words::rank(group % 256, slot) as usize
}
