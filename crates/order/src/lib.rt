// The children of a node put into its eight slots by cost, and the order in which they took these (bvh2_to_cwbvh.rs, order_children).
#![tactic(auto)]

ghost use Rattle.std.specs.Prelude.{◌≡◌, true, map, min, ◌≤◌, length, take, get_or};
ghost use Rattle.std.specs.Float.{binary32};
ghost use Rattle.std.specs.Float.Ieee.{sub};
ghost use Rattle.aabb.specs.Aabb.{each, center_of};
ghost use Rattle.order.specs.Assign.{cost_in, arrays_of, assigned_arrays};
ghost use Rattle.order.specs.Scan.{cheaper, best_slot, best_open};
ghost use Rattle.order.specs.Lists.{eight_of, padded};
ghost use Rattle.order.specs.Order.{sign_of, direction_of, dot_of, direction_cost, cost_table, no_row, no_child, gathered_order, slots_of};
ghost use Rattle.order.specs.Order.{placed, seating_of};

use aabb::Aabb;
use ray::Vec3;
use std::array;

// Eight places and a count, the form that the requirements give children, boxes and costs: there is no heap, and a count over 8 is cut once, before
// the functions that ask for at most 8.

// A child, a slot and what the pair costs.
#[derive(Clone, Copy)]
struct Best {
    cost: f32,
    child: usize,
    slot: usize,
}

// No pair: dearer than each that is taken, since only a cost below f32::MAX is, so that a comparison needs no case for it.
const NO_BEST: Best = Best {
    cost: f32::MAX,
    child: 8,
    slot: 8,
};

// slot[c] is the slot of child c, child[s] the child in slot s, and seated[k] the child that round k gave a slot; 8 where there is none, as in the
// arrays of the published code. `count` children have a slot; `rounds` searches over children and slots were made.
#[derive(Clone, Copy)]
pub struct Assignment {
    pub slot: [usize; 8],
    pub child: [usize; 8],
    pub seated: [usize; 8],
    pub count: usize,
    pub rounds: usize,
}

// The same with the children's own numbers: those by slots, and those in the order seated; all ones where there is none.
#[derive(Clone, Copy)]
pub struct Seating {
    pub slots: [u32; 8],
    pub seated: [u32; 8],
    pub count: usize,
    pub rounds: usize,
}

// The first, unless the second is cheaper. Field by field: where whole values are chosen, a node's children take half as long again.
fn cheaper_of(a: Best, b: Best) -> Best
    ensures { result ≡ cheaper a b }
{
    if b.cost < a.cost {
        return Best {
            cost: b.cost,
            child: b.child,
            slot: b.slot,
        };
    }
    Best {
        cost: a.cost,
        child: a.child,
        slot: a.slot,
    }
}

// The cheapest free slot of child c.
fn best_slot(row: [f32; 8], child: &[usize; 8], c: usize) -> Best
    ensures { result ≡ best_slot row child.now c 8 }
{
    let mut b = NO_BEST;
    for s in 0..8 {
        if child[s] == 8 {
            let x = Best {
                cost: row[s],
                child: c,
                slot: s,
            };
            b = cheaper_of(b, x);
        }
    }
    b
}

// The cheapest pair of a child without a slot and a slot without a child: the two arrays of an assignment, as the definition takes them.
fn best_pair(cost: &[[f32; 8]; 8], slot: &[usize; 8], child: &[usize; 8], n: usize) -> Best
    requires { n ≤ 8 }
    ensures { result ≡ best_open cost.now slot.now child.now n }
{
    let mut b = NO_BEST;
    for c in 0..n {
        if slot[c] == 8 {
            b = cheaper_of(b, best_slot(cost[c], child, c));
        }
    }
    b
}

// Round by round, until every one of n children has a slot or a search finds no pair.
fn rounds(cost: [[f32; 8]; 8], n: usize) -> Assignment
    requires { n ≤ 8 }
    ensures { result ≡ assigned_arrays (cost_in cost) n }
{
    let mut slot = [8usize; 8];
    let mut child = [8usize; 8];
    let mut seated = [8usize; 8];
    let mut count = 0;
    let mut rounds = 0;
    while count < n {
        let b = best_pair(&cost, &slot, &child, n);
        rounds += 1;
        if b.slot == 8 {
            break;
        }
        slot[b.child] = b.slot;
        child[b.slot] = b.child;
        seated[count] = b.child;
        count += 1;
    }
    Assignment {
        slot,
        child,
        seated,
        count,
        rounds,
    }
}

// The slots of the first `count` children, the least cost first, and the children in that order; a count over 8 acts as 8. A cost that is a NaN, or
// not below the greatest f32, is never taken: a child with only such costs gets no slot. No search is made once every child has one.
pub fn assign(cost: [[f32; 8]; 8], count: usize) -> Assignment
    ensures { result ≡ assigned_arrays (cost_in cost) (min count 8) }
{
    rounds(cost, count.min(8))
}

// -1 for a bit that is set, else 1.
fn sign(bit: usize) -> f32
    ensures { result ≡ sign_of bit }
{
    if bit == 0 { 1.0 } else { -1.0 }
}

// Direction s: -1 on x, y and z where s has the bits 4, 2 and 1.
fn direction(s: usize) -> Vec3
    ensures { result ≡ direction_of s }
{
    Vec3 {
        x: sign(s / 4 % 2),
        y: sign(s / 2 % 2),
        z: sign(s % 2),
    }
}

// The dot product, x and y first.
fn dot(a: Vec3, b: Vec3) -> f32
    ensures { result ≡ dot_of a b }
{
    a.x * b.x + a.y * b.y + a.z * b.z
}

// From p to the centre of a box.
fn offset(b: Aabb, p: Vec3) -> Vec3
    ensures { result ≡ each (sub binary32) (center_of b) p }
{
    let q = b.center();
    Vec3 {
        x: q.x - p.x,
        y: q.y - p.y,
        z: q.z - p.z,
    }
}

// How far v goes along direction s.
fn along(s: usize, v: Vec3) -> f32
    ensures { result ≡ dot_of (direction_of s) v }
{
    dot(direction(s), v)
}

// The same along each direction.
fn cost_row(v: Vec3) -> [f32; 8]
    ensures { result ≡ eight_of (λ s. dot_of (direction_of s) v) }
{
    array::from_fn(|s| along(s, v))
}

// The costs of the first n children against the centre p of their node.
fn cost_rows(p: Vec3, boxes: [Aabb; 8], n: usize) -> [[f32; 8]; 8]
    requires { n ≤ 8 }
    ensures { result ≡ padded no_row (map (λ b. eight_of (direction_cost p b)) (take n boxes)) }
{
    let mut cost = [[f32::MAX; 8]; 8];
    for c in 0..n {
        cost[c] = cost_row(offset(boxes[c], p));
    }
    cost
}

// The costs of the first `count` children of a node; a count over 8 acts as 8.
pub fn direction_costs(parent: Aabb, boxes: [Aabb; 8], count: usize) -> [[f32; 8]; 8]
    ensures { result ≡ padded no_row (cost_table parent (take count boxes)) }
{
    cost_rows(parent.center(), boxes, count.min(8))
}

// Element c, or all ones where c is not below 8: so a slot without a child is told in the published code, by no Option.
fn child_or_none(children: [u32; 8], c: usize) -> u32
    ensures { result ≡ get_or children c no_child }
{
    children.get(c).copied().unwrap_or(0xffff_ffff)
}

// The children at these places of the gathered order.
fn place(children: [u32; 8], places: [usize; 8]) -> [u32; 8]
    ensures { result ≡ map (λ c. get_or children c no_child) places }
{
    places.map(|c| child_or_none(children, c))
}

// The assignment by cost of the first `count` children of a node. Compiled into both callers: what `order_children` leaves unread costs it nothing.
#[inline(always)]
fn by_cost(parent: Aabb, boxes: [Aabb; 8], count: usize) -> Assignment
    ensures { result ≡ (let bs = take count boxes in assigned_arrays (cost_in (cost_table parent bs)) (length bs)) }
{
    assign(direction_costs(parent, boxes, count), count)
}

// Child i in slot i for n children, by no search.
fn as_gathered(n: usize) -> Assignment
    requires { n ≤ 8 }
    ensures { result ≡ arrays_of 0 (gathered_order n) }
{
    let mut own = [8usize; 8];
    for i in 0..n {
        own[i] = i;
    }
    Assignment {
        slot: own,
        child: own,
        seated: own,
        count: n,
        rounds: 0,
    }
}

// The first `count` children of a node by slots, with their boxes in the same order, and in the order in which they took these; all ones where there
// is none. Without ordering they stay as they were gathered. A count over 8 acts as 8.
pub fn seat_children(
    ordered: bool,
    parent: Aabb,
    boxes: [Aabb; 8],
    children: [u32; 8],
    count: usize,
) -> Seating
    ensures { result ≡ seating_of ordered parent (take count boxes) (take count children) }
{
    let made = if ordered {
        by_cost(parent, boxes, count)
    } else {
        as_gathered(count.min(8))
    };
    Seating {
        slots: place(children, made.child),
        seated: place(children, made.seated),
        count: made.count,
        rounds: made.rounds,
    }
}

// The slots alone of `seat_children` with ordering.
pub fn order_children(parent: Aabb, boxes: [Aabb; 8], children: [u32; 8], count: usize) -> [u32; 8]
    ensures { result ≡ placed no_child (slots_of true parent (take count boxes)) (take count children) }
{
    place(children, by_cost(parent, boxes, count).child)
}
