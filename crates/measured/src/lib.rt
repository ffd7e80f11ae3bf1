// Internal: functions that bench/ measures, each exported under its name. They are no part of the interface; bench/ compares their answers.
// C takes one number for an answer: 0 or REFUSED where there is none.
#![tactic(auto)]

mod quarters;

ghost use Rattle.std.specs.Prelude.{◌≡◌, ◌+◌, ◌*◌, ◌≤◌, ◌<◌, length};
ghost use Rattle.bvh2.specs.Tree.{leaves};
ghost use Rattle.bvh2.specs.Words.{tree_at};
ghost use Rattle.cost.specs.Table.{word_of, cost_of};
ghost use Rattle.cost.specs.Rows.{fill, RowsReady};

use aabb::Aabb;
use causes::Refusal;
use gate::AllOpen;
use node_slot::Aim;
use ray::{Ray, Vec3};
use traverse::{Answer, Walker};

// The hit masks of the first m nodes.
fn fill_masks(record: &[u8], ray: Ray, octant: u32, m: usize, out: &mut [u32])
    requires { (octant < 8) × (80 * m ≤ length «record».now) × (m ≤ length out.old) }
{
    let aim = Aim::new(ray, octant);
    for i in 0..m {
        let node = node::node_ref(record, i);
        out[i] = node_slot::intersect_ray(node, i, &aim, AllOpen);
    }
}

// The hit mask of each node of a record for a ray of eight floats, at the front of the answers; how many there are.
#[unsafe(no_mangle)]
pub extern "C" fn measured_hit_masks(record: &[u8], ray: &[f32], out: &mut [u32]) -> usize {
    let m = record.len() / node::BYTES;
    if ray.len() != packed::RAY || m > out.len() {
        return 0;
    }
    let r = packed::ray_at(ray, 0);
    fill_masks(record, r, ray::octant(r.direction), m, out);
    m
}

// What stands for a refusal.
const REFUSED: u64 = 0xffff_ffff_ffff_ffff;

// More steps than any walk has: a test and 24 positions for each of 65,535 nodes, and the last that says done.
const MOST_STEPS: u32 = 1638376;

// Two words as one.
fn two_words(upper: u32, lower: u32) -> u64 {
    u64::from(upper) * words::UPPER + u64::from(lower)
}

// Walks step by step to the end: how many positions are reported, and below 2^32 the node tests.
fn walked(record: &[u8], n: usize, start: Walker) -> u64 {
    let mut walker = start;
    let mut reports: u32 = 0;
    for _step in 0..MOST_STEPS {
        let stepped = walker.step(record, n);
        match stepped.answer {
            Answer::Tested(_) => {}
            Answer::Position(_) => reports += 1,
            Answer::Done => return two_words(reports, walker.walk.tests),
            Answer::Refused(_) => return REFUSED,
        }
        walker = stepped.walker;
    }
    REFUSED
}

// The same for a ray of eight floats, from its walker just begun.
#[unsafe(no_mangle)]
pub extern "C" fn measured_steps(record: &[u8], n: usize, ray: &[f32]) -> u64 {
    if ray.len() != packed::RAY {
        return REFUSED;
    }
    match Walker::new(packed::beam_at(ray, 0)) {
        Ok(walker) => walked(record, n, walker),
        Err(_) => REFUSED,
    }
}

// How many nodes of a record of n positions meet the node rule. Counted in a loop: a filter and its count take a quarter longer, and that is not
// the rule's time.
#[unsafe(no_mangle)]
pub extern "C" fn measured_rules(record: &[u8], n: usize) -> usize {
    let m = record.len() / node::BYTES;
    let mut met = 0;
    for i in 0..m {
        if node_rule::node_rule(record, i, m, n) {
            met += 1;
        }
    }
    met
}

// The box of node v, or the origin where there is no such node.
fn node_box(words: &[u32], v: usize) -> Aabb {
    if v < words.len() / 7 {
        return bvh2::node_box(words, v);
    }
    let origin = Vec3 {
        x: 0.0,
        y: 0.0,
        z: 0.0,
    };
    Aabb {
        min: origin,
        max: origin,
    }
}

// The children of a node by slots; a case is the node, how many children it has, and eight words for them.
fn order_case(words: &[u32], case: &[u32]) -> [u32; 8]
    requires { 10 ≡ length case.now }
{
    let parent = node_box(words, case[0] as usize);
    let count = case[1] as usize;
    let mut children = [0u32; 8];
    children.copy_from_slice(&case[2..]);
    let mut boxes = [parent; 8];
    for i in 0..count.min(8) {
        boxes[i] = node_box(words, children[i] as usize);
    }
    order::order_children(parent, boxes, children, count)
}

// The children of each case by slots, eight words each, at the front of the answers; how many cases there are.
#[unsafe(no_mangle)]
pub extern "C" fn measured_orders(words: &[u32], cases: &[u32], out: &mut [u32]) -> usize {
    let count = cases.len() / 10;
    if count > out.len() / 8 {
        return 0;
    }
    for i in 0..count {
        let slots = order_case(words, &cases[10 * i..10 * i + 10]);
        out[8 * i..8 * i + 8].copy_from_slice(&slots);
    }
    count
}

// Causes 1, 2, 5, 6 and 7 of a tree of n leaves; 4 if there are not three marks to a leaf.
fn accept(words: &[u32], n: usize, marks: &mut [u32]) -> Result<(), Refusal> {
    let tree = bvh2_check::sizes(words, n)?;
    if n > marks.len() / 3 {
        return Err(Refusal::SliceShort);
    }
    bvh2_check::structure(tree, marks)?;
    Ok(())
}

// The number of the first of these causes, or 0.
#[unsafe(no_mangle)]
pub extern "C" fn measured_accept(words: &[u32], n: usize, marks: &mut [u32]) -> u32 {
    match accept(words, n, marks) {
        Ok(()) => 0,
        Err(refusal) => u32::from(refusal),
    }
}

// The tables of an accepted tree, in two slices that C lends.
#[unsafe(no_mangle)]
pub extern "C" fn measured_costs(
    words: &[u32],
    limit: u32,
    decisions: &mut [u32],
    costs: &mut [f32],
) -> u32
    requires { RowsReady words.now (length decisions.old) (length costs.old) 127 0 }
    ensures value { result ≡ leaves (tree_at words.now 127 0) }
    ensures decisions_after { decisions.new ≡ fill (word_of limit) (tree_at words.now 127 0) decisions.old }
    ensures costs_after { costs.new ≡ fill (cost_of limit) (tree_at words.now 127 0) costs.old }
{
    cost::calculate_cost(words, 0, 127, limit, decisions, costs)
}
