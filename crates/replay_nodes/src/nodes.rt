// The stored cases of a record node: its metas decoded, the node rule, hit masks, and what its slots hold.
ghost use Rattle.std.specs.Prelude.{◌*◌, ◌+◌, ◌<◌, ◌≤◌, length};

use gate::AllOpen;
use node::NodeRef;
use node_slot::Aim;
use ray::Ray;
use stored::{beam, copy_bytes, same_vector, wide, word};

// Room for the bytes of a record: 819 nodes.
const ROOM: usize = 65536;

// Eight metas, an octant; their child bits and their bit indices.
fn decoded(case: &[u8]) -> bool {
    let octant = word(case, 2);
    if octant > 7 {
        return false;
    }
    let bits = node_meta::get_child_and_index_bits(wide(case, 0), octant);
    bits.child == wide(case, 3) && bits.index == wide(case, 5)
}

// Copies the node at the start of a case to place i of a record.
fn copy_node(case: &[u8], record: &mut [u8], i: usize)
    requires { 80 * i + 80 ≤ length «record».old }
{
    let at = node::BYTES * i;
    copy_bytes(case, 0, &mut record[at..at + node::BYTES]);
}

// A node, its number, how many nodes and positions there are; whether it meets the node rule.
fn rules(case: &[u8]) -> bool {
    let i = word(case, 20) as usize;
    let m = word(case, 21) as usize;
    let n = word(case, 22) as usize;
    if case.len() != 96 || i > 818 {
        return false;
    }
    let mut space = [0xffu8; ROOM];
    let record: &mut [u8] = &mut space;
    copy_node(case, record, i);
    u32::from(node_rule::node_rule(record, i, m, n)) == word(case, 23)
}

// A node, a ray, an octant; the hit mask.
fn masks(case: &[u8]) -> bool {
    let octant = word(case, 28);
    if case.len() != 120 || octant > 7 {
        return false;
    }
    let node = node::node_ref(case, 0);
    let aim = Aim::new(Ray::new(beam(case, 20)), octant);
    node_slot::intersect_ray(node, 0, &aim, AllOpen) == word(case, 29)
}

// The number of the node in a slot, for a ray of octant 0; none where its meta's low five bits are below 24.
fn child_number(node: NodeRef, meta: u8) -> Option<usize> {
    let bit = u32::from(meta % 32);
    if bit < 24 {
        return None;
    }
    let imask = u32::from(node.imask());
    Some(node_slot::hit_child(node.child_base_idx(), imask, bit, 0))
}

// A slot: 1 if it holds no node and 2 if nothing; its first position, how many, and the number of its child, all ones for none.
fn same_slot(case: &[u8], node: NodeRef, slot: usize) -> bool
    requires { slot < 8 }
{
    let meta = node.child_meta(slot);
    let at = 23 + 4 * slot;
    let leaf = node::is_leaf(node.imask(), slot as u32);
    let positions = node::child_primitives(node.primitive_base_idx(), meta);
    let child = child_number(node, meta).unwrap_or(0xffff_ffff);
    u32::from(leaf) == word(case, at) % 2
        && u32::from(meta == 0) == word(case, at) / 2
        && positions.start == word(case, at + 1) as usize
        && positions.count == word(case, at + 2)
        && child == word(case, at + 3) as usize
}

// A node, its extent; its slots.
fn slots(case: &[u8]) -> bool {
    if case.len() != 220 {
        return false;
    }
    let node = node::node_ref(case, 0);
    let [ex, ey, ez] = node.exponents();
    same_vector(case, 20, node_slot::compute_extent(ex, ey, ez))
        && (0..8).all(|slot| same_slot(case, node, slot))
}

// Whether the library agrees with a case, whose kind the file tells by a number.
pub fn agrees(kind: u32, case: &[u8]) -> bool {
    match kind {
        8 => decoded(case),
        9 => rules(case),
        10 => masks(case),
        11 => slots(case),
        _ => false,
    }
}
