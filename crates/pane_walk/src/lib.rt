// Internal: closest and miss over a record and its panes, beside any gates (cwbvh/mod.rs, ray_traverse and ray_traverse_miss).
#![tactic(auto)]

ghost use Rattle.std.specs.Prelude.{◌≡◌, false, length};
ghost use Rattle.causes.specs.Refusal.{cause_in};
ghost use Rattle.ray.specs.Ray.{ray_from, reaching};
ghost use Rattle.pane_walk.specs.Panes.{pane_met, position_met, pane_of_met, gated_closest_walked, gated_miss_walked};
ghost use Rattle.pane_walk.specs.Panes.{gated_closest, gated_miss, closest_given, closest_result, miss_result};

use advance::{Answer, Walk};
use causes::Refusal;
use gate::Gate;
use node_slot::Aim;
use query::Query;
use ray::{Beam, Ray};

// How closest ends: the position that is hit and how far off, nothing hit, or refused; the requirements name these cases.
#[derive(Clone, Copy, Debug, PartialEq)]
pub enum ClosestHit {
    Hit(u32, f32),
    NoHit,
    Refused(Refusal),
}

// How miss ends: no pane's distance counts, or one does.
#[derive(Clone, Copy, Debug, PartialEq, Eq)]
pub enum Occlusion {
    Missed,
    Blocked,
}

// Closest's answer with its node tests, 0 beside a refusal. It and miss's are two structs, as the requirements name each call's answer.
#[derive(Clone, Copy)]
pub struct ClosestFound {
    pub answer: ClosestHit,
    pub tests: u32,
}

// Miss's answer with its node tests.
#[derive(Clone, Copy, Debug, PartialEq, Eq)]
pub struct MissFound {
    pub answer: Occlusion,
    pub tests: u32,
}

// Pane k as a ray meets it: whether it is there comes before whether its box is accepted.
fn pane_met(panes: &[f32], k: usize, ray: Ray) -> Result<f32, Refusal>
    ensures { pane_of_met result ≡ pane_met panes.now k ray }
{
    if k >= panes.len() / packed::BOX {
        return Err(Refusal::Fault);
    }
    let bounds = packed::box_at(panes, k);
    if !bounds.accepted() {
        return Err(Refusal::BoxRefused);
    }
    Ok(bounds.intersect_ray(ray))
}

// The panes as positions name them: each by its index word.
#[derive(Clone, Copy)]
pub struct IndexedPanes<'a> {
    pub indices: &'a [u32],
    pub panes: &'a [f32],
}

// Position p as a ray meets it: whether it is there comes before its pane.
fn position_met(on: IndexedPanes, p: usize, ray: Ray) -> Result<f32, Refusal>
    ensures { pane_of_met result ≡ position_met on.entry.indices.now on.entry.panes.now p ray }
{
    if p < on.indices.len() {
        pane_met(on.panes, on.indices[p] as usize, ray)
    } else {
        Err(Refusal::Fault)
    }
}

// A hit lowers the reach. It is written where it stands: an aim that is copied waits for the store of its new reach.
fn set_reach(aim: &mut Aim, tmax: f32)
    ensures { (aim.new.ray ≡ reaching tmax aim.old.ray) × (aim.new.octant ≡ aim.old.octant) }
{
    aim.ray.tmax = tmax;
}

// Closest's walk over a record with nodes, where nothing refuses it on entry.
// Each query has the loop over a walk written out: miss leaves both loops by a labelled break, as the requirements ask, and a closure could not.
fn walk_closest<G: Gate>(query: Query, on: IndexedPanes, gate: G) -> Result<ClosestFound, Refusal>
    requires positions { query.bvh.positions ≡ length on.indices.now }
    requires unforged { (G.gates gate).forged ≡ false }
    ensures { closest_given result
        ≡ gated_closest_walked (G.gates gate) query.entry.bvh.bytes.now on.entry.indices.now on.entry.panes.now query.entry.aim.ray }
{
    let mut aim = query.aim;
    let mut walk = advance::begin();
    let mut stack = [0u64; 32];
    let mut answer = ClosestHit::NoHit;
    loop {
        while walk.positions.bits > 0 {
            let held = walk.positions;
            let p = advance::first_position(held);
            let positions = advance::rest_of(held);
            walk = Walk { positions, ..walk };
            if !gate.admits(p)? {
                continue;
            }
            let t = position_met(on, p, aim.ray)?;
            if aim.ray.counts(t) {
                answer = ClosestHit::Hit(p as u32, t);
                set_reach(&mut aim, t);
            }
        }
        let turn = advance::seek_on(walk, &aim, gate, &mut stack, query.bvh);
        let reply = turn.answer;
        let next = advance::walk_after(turn);
        match reply {
            Answer::Tested(_) => walk = next,
            Answer::Done => {
                let tests = next.tests;
                return Ok(ClosestFound { answer, tests });
            }
            Answer::Refused(refusal) => return Err(refusal),
            Answer::Position(_) => return Err(Refusal::Fault),
        }
    }
}

// Closest's answer where it is not refused: `between` is what the query's own causes between 2 and 9 say.
fn nearest<G: Gate>(
    record: &[u8],
    on: IndexedPanes,
    between: Result<(), Refusal>,
    gate: G,
    beam: Beam,
) -> Result<ClosestFound, Refusal>
    requires { cause_in between ≡ 0 → (G.gates gate).forged ≡ false }
    ensures { closest_given result
        ≡ gated_closest (G.gates gate) «record».now on.entry.indices.now on.entry.panes.now (ray_from beam) (cause_in between) }
{
    let fits = on.panes.len() % packed::BOX == 0;
    match Query::begin(fits, record, on.indices.len(), between, beam)? {
        Some(query) => walk_closest(query, on, gate),
        None => Ok(ClosestFound {
            answer: ClosestHit::NoHit,
            tests: 0,
        }),
    }
}

// Closest's answer, which holds a refusal as one of its cases.
pub fn closest<G: Gate>(
    record: &[u8],
    on: IndexedPanes,
    between: Result<(), Refusal>,
    gate: G,
    beam: Beam,
) -> ClosestFound
    requires { cause_in between ≡ 0 → (G.gates gate).forged ≡ false }
    ensures { closest_result result
        ≡ gated_closest (G.gates gate) «record».now on.entry.indices.now on.entry.panes.now (ray_from beam) (cause_in between) }
{
    match nearest(record, on, between, gate, beam) {
        Ok(found) => found,
        Err(refusal) => ClosestFound {
            answer: ClosestHit::Refused(refusal),
            tests: 0,
        },
    }
}

// Miss's walk over a record with nodes, where nothing refuses it on entry: the first pane whose distance counts leaves both loops by one
// labelled break, as the requirements ask.
fn walk_miss<G: Gate>(query: Query, on: IndexedPanes, gate: G) -> Result<MissFound, Refusal>
    requires positions { query.bvh.positions ≡ length on.indices.now }
    requires unforged { (G.gates gate).forged ≡ false }
    ensures { miss_result result
        ≡ gated_miss_walked (G.gates gate) query.entry.bvh.bytes.now on.entry.indices.now on.entry.panes.now query.entry.aim.ray }
{
    let aim = query.aim;
    let mut walk = advance::begin();
    let mut stack = [0u64; 32];
    let mut answer = Occlusion::Missed;
    'walk: loop {
        while walk.positions.bits > 0 {
            let held = walk.positions;
            let position = advance::first_position(held);
            let positions = advance::rest_of(held);
            walk = Walk { positions, ..walk };
            if !gate.admits(position)? {
                continue;
            }
            let distance = position_met(on, position, aim.ray)?;
            if aim.ray.counts(distance) {
                answer = Occlusion::Blocked;
                break 'walk;
            }
        }
        let turn = advance::seek_on(walk, &aim, gate, &mut stack, query.bvh);
        let reply = turn.answer;
        let next = advance::walk_after(turn);
        match reply {
            Answer::Tested(_) => walk = next,
            Answer::Done => {
                walk = next;
                break 'walk;
            }
            Answer::Refused(refusal) => return Err(refusal),
            Answer::Position(_) => return Err(Refusal::Fault),
        }
    }
    let tests = walk.tests;
    Ok(MissFound { answer, tests })
}

// Miss's answer, with causes between 2 and 9 as closest's.
pub fn miss<G: Gate>(
    record: &[u8],
    on: IndexedPanes,
    between: Result<(), Refusal>,
    gate: G,
    beam: Beam,
) -> Result<MissFound, Refusal>
    requires { cause_in between ≡ 0 → (G.gates gate).forged ≡ false }
    ensures { miss_result result
        ≡ gated_miss (G.gates gate) «record».now on.entry.indices.now on.entry.panes.now (ray_from beam) (cause_in between) }
{
    let fits = on.panes.len() % packed::BOX == 0;
    match Query::begin(fits, record, on.indices.len(), between, beam)? {
        Some(query) => walk_miss(query, on, gate),
        None => Ok(MissFound {
            answer: Occlusion::Missed,
            tests: 0,
        }),
    }
}
