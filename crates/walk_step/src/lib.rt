// Internal: a step of a walk beside any gate (cwbvh/traverse_macro.rs): what forbids it, the positions that it passes over, its report or its test.
#![tactic(auto)]

ghost use Rattle.std.specs.Prelude.{◌≡◌, List, ℕ, ◌≤◌, ◌<◌};
ghost use Rattle.ray.specs.declared.Ray as declared;
ghost use Rattle.record_shape.specs.Record.{node_count};
ghost use Rattle.walk.specs.Words.{past_skipped};
ghost use Rattle.walk.specs.Step as S;
ghost use Rattle.walk.specs.WordStep.{stay_words, emptied_words, past_skips, turn_words, step_words};
ghost use Rattle.walk_record.specs.WalkRay.{own_inverse, forged_ray, rays_of};
ghost use Rattle.walk_record.specs.Record.{node_words_at};
ghost use Rattle.advance.specs.Turn.{group_of, walker_of, turned};
ghost use Rattle.walk_step.specs.Parts.{is_forged, is_over, passes_over, due_report, left_by};

use advance::{Answer, CwBvh, Group, Stack, Turn, Walk};
use causes::Refusal;
use gate::Gate;
use node_slot::Aim;
use ray::Ray;

// Whether a ray's inverse is its direction's.
fn own_inverse(ray: Ray) -> bool
    ensures { result ≡ own_inverse ray }
{
    let x = ray::safe_inverse(ray.direction.x);
    let y = ray::safe_inverse(ray.direction.y);
    let z = ray::safe_inverse(ray.direction.z);
    ray.inverse.x == x && ray.inverse.y == y && ray.inverse.z == z
}

// Whether a ray with an octant is none that a walker just begun holds.
// Ray and octant by themselves: until a walker is known not to be forged, no Aim can hold both.
fn is_forged_ray(ray: Ray, octant: u32) -> bool
    ensures { result ≡ forged_ray (record { ray = ray; octant = octant }) }
{
    !ray.accepted()
        || !ray.origin.plain()
        || !ray.direction.plain()
        || !own_inverse(ray)
        || octant != ray::octant(ray.direction)
}

// Whether a walker is forged on a record of m nodes: by its ray, by over 32 groups, or by more tests than nodes.
fn is_forged(ray: Ray, octant: u32, depth: u32, tests: u32, m: usize) -> bool
    ensures { result ≡ is_forged ray octant depth tests m }
{
    is_forged_ray(ray, octant) || depth > 32 || tests as usize > m
}

// Whether there are no nodes, only the first is in hand, and nothing waits.
fn is_over(m: usize, walk: Walk, octant: u32) -> bool
    requires { octant < 8 }
    ensures { result ≡ is_over m (group_of walk.positions) (group_of walk.current) walk.depth octant }
{
    m == 0
        && walk.positions.bits == 0
        && walk.current.bits >= advance::CHILDREN
        && advance::first_child(walk.current, octant) == 0
        && advance::rest_of(walk.current).bits < advance::CHILDREN
        && walk.depth == 0
}

// Whether a position is passed over.
fn passes_over<G: Gate>(gate: G, p: usize) -> bool
    ensures { result ≡ passes_over (G.gates gate) p }
{
    match gate.admits(p) {
        Ok(admitted) => !admitted,
        Err(_) => false,
    }
}

// A group of positions from the first on that is not passed over. Its numbers come by themselves, since a number of 32 bits is known to be one.
fn past_skipped<G: Gate>(base: u32, bits: u32, gate: G) -> Group
    ensures { group_of result ≡ past_skipped (passes_over (G.gates gate)) 32 (record { base = base; bits = bits }) }
{
    let mut held = Group { base, bits };
    while held.bits > 0 {
        let stays = !passes_over(gate, advance::first_position(held));
        if stays {
            return held;
        }
        held = advance::rest_of(held);
    }
    held
}

// The walk without the positions in front of its hand that are passed over.
fn pass_over<G: Gate>(walk: Walk, gate: G) -> Walk
    ensures { (ray : declared.Ray) (octant : ℕ) (stack bytes : List ℕ) → walker_of ray octant result stack
        ≡ past_skips (node_words_at bytes (rays_of (G.gates gate))) (walker_of ray octant walk stack) }
{
    let held = walk.positions;
    let positions = past_skipped(held.base, held.bits, gate);
    Walk { positions, ..walk }
}

// The walk as it was, refused 10.
fn fault(walk: Walk) -> Turn
    ensures { (ray : declared.Ray) (octant : ℕ) (stack : List ℕ) → turned ray octant result stack
        ≡ stay_words (walker_of ray octant walk stack) (S.refused 10) }
{
    Turn {
        answer: Answer::Refused(Refusal::Fault),
        walk,
    }
}

// Reports the highest of the positions in hand, which is not passed over, on a record taken to have n positions.
fn report<G: Gate>(walk: Walk, gate: G, n: usize) -> Turn
    requires { (0 < walk.positions.bits) × (n ≤ 65536) }
    ensures { (ray : declared.Ray) (octant : ℕ) (stack : List ℕ) → turned ray octant result stack
        ≡ due_report (G.gates gate) n (walker_of ray octant walk stack) }
{
    let held = walk.positions;
    let p = advance::first_position(held);
    if let Err(refusal) = gate.admits(p) {
        return Turn {
            answer: Answer::Refused(refusal),
            walk,
        };
    }
    if p >= n {
        return fault(walk);
    }
    let positions = advance::rest_of(held);
    Turn {
        answer: Answer::Position(p as u32),
        walk: Walk { positions, ..walk },
    }
}

// One turn of a walk whose first position is not passed over: a report where positions are in hand, else one test.
fn turn<G: Gate>(walk: Walk, ray: Ray, octant: u32, gate: G, stack: &mut Stack, bvh: CwBvh) -> Turn
    requires { octant < 8 }
    ensures { let bytes = bvh.entry.bytes.now in turned ray octant result stack.new
        ≡ turn_words (node_count bytes) (node_words_at bytes (rays_of (G.gates gate))) bvh.entry.positions (walker_of ray octant walk stack.old) }
{
    if walk.positions.bits > 0 {
        return report(walk, gate, bvh.positions);
    }
    let aim = Aim::new(ray, octant);
    advance::seek(
        walk.tests,
        walk.positions.base,
        walk.current.base,
        walk.current.bits,
        walk.depth,
        0,
        &aim,
        gate,
        stack,
        bvh,
    )
}

// What a step leaves of a walk: a refused one leaves it as it was.
fn leaving(walk: Walk, turn: Turn) -> Turn
    ensures { (ray : declared.Ray) (octant : ℕ) (stack : List ℕ) → turned ray octant result stack
        ≡ left_by (walker_of ray octant walk stack) (turned ray octant turn stack) }
{
    match turn.answer {
        Answer::Refused(_) => Turn { walk, ..turn },
        _ => turn,
    }
}

// The walk with nothing in hand, done.
fn emptied(walk: Walk) -> Turn
    ensures { (ray : declared.Ray) (octant : ℕ) (stack : List ℕ) → turned ray octant result stack ≡ emptied_words (walker_of ray octant walk stack) }
{
    let current = Group { base: 0, bits: 0 };
    Turn {
        answer: Answer::Done,
        walk: Walk { current, ..walk },
    }
}

// One step on a record whose sizes fit: forged walkers are refused 10, and without nodes a walker that holds only the first is done.
pub fn step<G: Gate>(
    walk: Walk,
    ray: Ray,
    octant: u32,
    gate: G,
    stack: &mut Stack,
    bvh: CwBvh,
) -> Turn
    ensures { let bytes = bvh.entry.bytes.now in turned ray octant result stack.new
        ≡ step_words (node_count bytes) (node_words_at bytes (rays_of (G.gates gate))) bvh.entry.positions (walker_of ray octant walk stack.old) }
{
    let m = bvh.bytes.len() / node::BYTES;
    if gate.forged() {
        return fault(walk);
    }
    if is_forged(ray, octant, walk.depth, walk.tests, m) {
        return fault(walk);
    }
    let kept = pass_over(walk, gate);
    if is_over(m, kept, octant) {
        return emptied(kept);
    }
    let t = turn(kept, ray, octant, gate, stack, bvh);
    leaving(walk, t)
}
