// Internal: a wide tree's record and index list, written into lent slices (bvh2_to_cwbvh.rs: convert_to_cwbvh_impl, count_primitives).
#![tactic(auto)]

ghost use Rattle.std.specs.Prelude.{◌≡◌, true, ◌+◌, ◌*◌, ◌^◌, ◌<◌, ◌≤◌, length};
ghost use Rattle.aabb.specs.Aabb.{accepted_box};
ghost use Rattle.bvh2.specs.Words.{box_at};
ghost use Rattle.record.specs.Record.{leaf_meta};
ghost use Rattle.emit.specs.Leaves.{LeavesReady, LeavesWritten};
ghost use Rattle.emit.specs.Grid.{grid_of, box_on};
ghost use Rattle.children.specs.Tabled.{most_edges, subtree_at};
ghost use Rattle.emit.specs.Own.{SlotReady, OwnReady, held_in, leaf_words_in, all_slots, BuiltAs, cell_of};

use aabb::Aabb;
use bvh2::Link;
use children::Bvh2Slices;
use cost::Kind;
use node::{Node, Slot};
use ray::Vec3;

// Writes the index words of the leaves below node v, left to right, from a place on; the place behind them. A struct of both would
// hold a `&mut`, and each contract would say that it is still the same. And no Branch: leaves below a leaf child are found without decision words.
pub fn write_leaves(words: &[u32], indices: &[u32], out: &mut [u32], v: usize, at: usize) -> usize
    requires { LeavesReady words.now (length indices.now) (length out.old) at most_edges v }
    ensures { LeavesWritten indices.now (subtree_at words.now v) at result out.old out.new }
{
    match bvh2::node_link(words, v) {
        Link::Children(first) => {
            let next = write_leaves(words, indices, out, first, at);
            write_leaves(words, indices, out, first + 1, next)
        }
        Link::Position(position) => {
            out[at] = indices[position];
            at + 1
        }
        Link::Malformed => unreachable!(),
    }
}

// The bytes of an empty slot.
const NO_SLOT: Slot = Slot {
    min_x: 0,
    min_y: 0,
    min_z: 0,
    max_x: 0,
    max_y: 0,
    max_z: 0,
};

// A node's grid: its lower corner, the exponent byte of each axis, and the reciprocal of each scale.
#[derive(Clone, Copy)]
pub struct Grid {
    pub min: Vec3,
    pub ex: u8,
    pub ey: u8,
    pub ez: u8,
    pub rx: f32,
    pub ry: f32,
    pub rz: f32,
}

fn grid_of(b: Aabb) -> Grid
    ensures { result ≡ grid_of b }
{
    let ex = quantization::exponent_byte(b.min.x, b.max.x);
    let ey = quantization::exponent_byte(b.min.y, b.max.y);
    let ez = quantization::exponent_byte(b.min.z, b.max.z);
    Grid {
        min: b.min,
        ex,
        ey,
        ez,
        rx: quantization::reciprocal(ex),
        ry: quantization::reciprocal(ey),
        rz: quantization::reciprocal(ez),
    }
}

// A child's box on the grid.
fn grid_box(g: Grid, c: Aabb) -> Slot
    ensures { result ≡ box_on g c }
{
    Slot {
        min_x: quantization::quantize_min((c.min.x - g.min.x) * g.rx),
        min_y: quantization::quantize_min((c.min.y - g.min.y) * g.ry),
        min_z: quantization::quantize_min((c.min.z - g.min.z) * g.rz),
        max_x: quantization::quantize_max((c.max.x - g.min.x) * g.rx),
        max_y: quantization::quantize_max((c.max.y - g.min.y) * g.ry),
        max_z: quantization::quantize_max((c.max.z - g.min.z) * g.rz),
    }
}

// A leaf's meta byte: as many ones from bit 5 up as it has positions, and below them the positions before its own.
fn leaf_meta(count: usize, before: usize) -> u8
    requires { (1 ≤ count) × (count ≤ 3) × (before ≤ 21) }
    ensures { result ≡ leaf_meta count before }
{
    match count {
        1 => 32 + before as u8,
        2 => 96 + before as u8,
        _ => 224 + before as u8,
    }
}

// What a slot of a node holds: its meta byte and its box on the grid, its bit in the mask of inner children, 1 if its child is one, and the next free
// position. Bit and 1 are numbers, since a node adds them up.
#[derive(Clone, Copy)]
pub struct Held {
    pub meta: u8,
    pub corners: Slot,
    pub bit: u32,
    pub inner: usize,
    pub at: usize,
}

// One slot of a node whose own positions start at a place: nothing, a leaf child whose index words are written from `at` on, or an inner child.
fn own_slot(
    tree: &Bvh2Slices<'_>,
    indices: &[u32],
    out: &mut [u32],
    v: u32,
    i: usize,
    start: usize,
    grid: Grid,
    at: usize,
) -> Held
    requires { (i < 8) × SlotReady tree.now.words.now tree.now.decisions.now (length indices.now) (length out.old) most_edges v start at }
    ensures value { (b : Aabb) → grid ≡ grid_of b
        → result ≡ held_in b start i at (cell_of tree.now.words.now tree.now.decisions.now most_edges v) }
    ensures out_after { out.new ≡ leaf_words_in indices.now at (cell_of tree.now.words.now tree.now.decisions.now most_edges v)
        out.old }
{
    // all ones: no child, since each of the eight slots has a word
    if v == 0xffff_ffff {
        return Held {
            meta: 0,
            corners: NO_SLOT,
            bit: 0,
            inner: 0,
            at,
        };
    }
    let words = tree.words;
    let child = v as usize;
    let b = bvh2::node_box(words, child);
    let corners = grid_box(grid, b);
    if cost::decision_at(tree.decisions, child, 0).kind == Kind::Leaf {
        let next = write_leaves(words, indices, out, child, at);
        return Held {
            meta: leaf_meta(next - at, at - start),
            corners,
            bit: 0,
            inner: 0,
            at: next,
        };
    }
    Held {
        meta: 56 + i as u8,
        corners,
        bit: 1u32 << (i as u32),
        inner: 1,
        at,
    }
}

// A node's value, how many inner children it has, and the next free position.
#[derive(Clone, Copy)]
pub struct Built {
    pub node: Node,
    pub inner: usize,
    pub at: usize,
}

// The node that binary node v becomes with the children in its slots: its index words are written from `start` on, and its inner children
// are counted from `count` on. No Branch, since v's own decision words are not read.
pub fn build_node(
    tree: &Bvh2Slices<'_>,
    v: usize,
    indices: &[u32],
    out: &mut [u32],
    slots: &[u32; 8],
    count: usize,
    start: usize,
) -> Built
    requires { (v * 7 + 6 < length tree.now.words.now) × (accepted_box (box_at tree.now.words.now v) ≡ true) × (count < 2 ^ 32) × (start < 2 ^ 32)
        × OwnReady tree.now.words.now tree.now.decisions.now indices.now slots.now (box_at tree.now.words.now v) (length out.old) most_edges
        start out.old }
    ensures { BuiltAs tree.now.words.now v count start
        (all_slots tree.now.words.now tree.now.decisions.now indices.now slots.now v start most_edges out.old) result
        out.new }
{
    let b = bvh2::node_box(tree.words, v);
    let grid = grid_of(b);
    let mut metas = [0u8; 8];
    let mut boxes = [NO_SLOT; 8];
    let mut imask = 0u32;
    let mut inner = 0usize;
    let mut at = start;
    for i in 0..8 {
        let held = own_slot(tree, indices, out, slots[i], i, start, grid, at);
        metas[i] = held.meta;
        boxes[i] = held.corners;
        imask += held.bit;
        inner += held.inner;
        at = held.at;
    }
    let node = Node {
        px: b.min.x.to_bits(),
        py: b.min.y.to_bits(),
        pz: b.min.z.to_bits(),
        ex: grid.ex,
        ey: grid.ey,
        ez: grid.ez,
        imask: imask as u8,
        child_base_idx: count as u32,
        primitive_base_idx: start as u32,
        child_meta: metas,
        slots: boxes,
    };
    Built { node, inner, at }
}
