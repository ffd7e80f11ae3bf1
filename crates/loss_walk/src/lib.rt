// Internal: a ray's loss as a sum over the positions that it meets, and the totals of many rays, for any gates. The published code has neither: it
// lists the positions.
#![tactic(auto)]

ghost use Rattle.std.specs.Prelude.{◌≡◌, ℕ, true, false, ◌+◌, ◌≤◌, ◌<◌, length, get_or, set};
ghost use Rattle.lists.specs.Below.{all_below};
ghost use Rattle.lists.specs.Sums.{sum_over};
ghost use Rattle.causes.specs.Causes.{first_cause};
ghost use Rattle.causes.specs.Refusal.{cause_in};
ghost use Rattle.causes.proofs.Sizes.{Fit};
ghost use Rattle.ray.specs.Ray.{octant_of, ray_from};
ghost use Rattle.packed.specs.Packed.{ray_count};
ghost use Rattle.gate.specs.Gates.{Gates, all_open};
ghost use Rattle.query.specs.Met.{positions_met_by, tests_made_by, panes_met};
ghost use Rattle.record_shape.specs.Record.{node_count};
ghost use Rattle.walk_record.specs.Record.{FieldsFit};
ghost use Rattle.loss_walk.specs.Losses.{losses_fit, loss_at, is_summed, loss_result, totalled, totals_answer};
ghost use Rattle.loss_walk.specs.Gated.{gated_loss, gated_loss_of, gated_walks, gated_conditions, gated_totals, gated_report_of};
ghost use Rattle.loss_walk.specs.Entry.{own_cause, conditions_between};
ghost use Rattle.loss_walk.specs.Charged.{charged, PaneFound, RayReady, Charges, RaysEntered, GatesEntered};

use advance::{Answer, CwBvh, Walk};
use causes::Refusal;
use gate::{AllOpen, Gate};
use node_slot::Aim;
use ray::{Beam, Ray};

// The greatest loss of a pane.
const MOST_LOSS: u32 = 1_000_000;

// The most rays of a report.
const MOST_RAYS: usize = 65536;

// A ray's loss with its node tests.
#[derive(Clone, Copy, Debug, PartialEq, Eq)]
pub struct RayLoss {
    pub loss: u64,
    pub tests: u32,
}

// Whether there is a loss for each of so many panes, and none is over 1,000,000. The requirements give the number of panes beside the losses, which
// need not be as many.
fn losses_fit(panes: usize, losses: &[u32]) -> bool
    ensures { result ≡ losses_fit panes losses.now }
{
    losses.len() == panes && losses.iter().all(|&loss| loss <= MOST_LOSS)
}

// The pane of position p: a fault where the position or its pane is not there.
fn pane_at(indices: &[u32], panes: usize, p: usize) -> Result<usize, Refusal>
    ensures { PaneFound indices.now panes p result }
{
    if p < indices.len() {
        let k = indices[p] as usize;
        let there = k < panes;
        if there {
            return Ok(k);
        }
    }
    Err(Refusal::Fault)
}

// Adds to the total of pane k, if it has one.
fn charge(totals: &mut [u64], k: usize, taken: u64)
    requires { get_or totals.old k 0 + taken ≤ 18446744073709551615 }
    ensures { totals.new ≡ set totals.old k (get_or totals.old k 0 + taken) }
{
    if k < totals.len() {
        totals[k] += taken;
    }
}

// What rays lose light to: a record that its index words fit, and a loss for each of so many panes. The totals of rays and of panes stay two slices,
// as callers lend them: a struct of two `&mut` would say in each contract that it still holds the same two. RayReady stays a clause for that reason,
// since it is of the totals too.
#[derive(Clone, Copy)]
pub struct Scene<'a> {
    pub bytes: &'a [u8],
    pub indices: &'a [u32],
    pub panes: usize,
    pub losses: &'a [u32],
    pub ghost sizes: { Fit (length bytes.now) (length indices.now) },
    pub ghost fitting: { losses_fit panes losses.now ≡ true },
    pub ghost fields: { FieldsFit bytes.now },
}

// The loss of a ray over a record with nodes, where nothing refuses it on entry. Each pane's loss is added to its total too, where it has one.
// Each query has the loop over a walk written out: miss leaves both loops by a labelled break, as the requirements ask, and a closure could not.
fn walk_losses<G: Gate>(
    scene: Scene,
    aim: Aim,
    gate: G,
    totals: &mut [u64],
) -> Result<RayLoss, Refusal>
    requires { (0 < node_count scene.bytes.now) × (aim.octant ≡ octant_of aim.ray.direction)
        × RayReady (G.gates gate) scene.panes aim.ray totals.old }
    ensures result_value { loss_result result ≡ gated_loss (G.gates gate) scene.entry.bytes.now scene.entry.indices.now scene.entry.panes
        scene.entry.losses.now aim.ray }
    ensures charges { Charges (G.gates gate) scene.entry.bytes.now scene.entry.indices.now scene.entry.losses.now aim.ray result
        totals.old totals.new }
{
    let bvh = CwBvh {
        bytes: scene.bytes,
        positions: scene.indices.len(),
    };
    let mut walk = advance::begin();
    let mut stack = [0u64; 32];
    let mut sum: u64 = 0;
    loop {
        while walk.positions.bits > 0 {
            let held = walk.positions;
            let p = advance::first_position(held);
            let positions = advance::rest_of(held);
            walk = Walk { positions, ..walk };
            if !gate.admits(p)? {
                continue;
            }
            let k = pane_at(scene.indices, scene.panes, p)?;
            let taken = scene.losses[k] as u64;
            sum += taken;
            charge(totals, k, taken);
        }
        let turn = advance::seek_on(walk, &aim, gate, &mut stack, bvh);
        let reply = turn.answer;
        let next = advance::walk_after(turn);
        match reply {
            Answer::Tested(_) => walk = next,
            Answer::Done => {
                let tests = next.tests;
                return Ok(RayLoss { loss: sum, tests });
            }
            Answer::Refused(refusal) => return Err(refusal),
            Answer::Position(_) => return Err(Refusal::Fault),
        }
    }
}

// The loss of a ray where nothing refuses it on entry, over a record without nodes too.
#[tactic(auto, using(ray::proofs::Bounds::octant_lt))]
pub fn ray_loss<G: Gate>(
    scene: Scene,
    ray: Ray,
    gate: G,
    totals: &mut [u64],
) -> Result<RayLoss, Refusal>
    requires { RayReady (G.gates gate) scene.panes ray totals.old }
    ensures result_value { loss_result result ≡ gated_loss (G.gates gate) scene.entry.bytes.now scene.entry.indices.now scene.entry.panes
        scene.entry.losses.now ray }
    ensures charges { Charges (G.gates gate) scene.entry.bytes.now scene.entry.indices.now scene.entry.losses.now ray result totals.old totals.new }
{
    if scene.bytes.is_empty() {
        return Ok(RayLoss { loss: 0, tests: 0 });
    }
    let aim = Aim::new(ray, ray::octant(ray.direction));
    walk_losses(scene, aim, gate, totals)
}

// How the rays of a list walk: ray i beside gates of its own.
pub trait Walks: Copy {
    // the gates of ray i, and whether it is one of the list
    ghost gates: { Self → ℕ → Gates };

    ghost listed: { Self → ℕ → Type 0 };

    // The loss of ray i.
    fn loss_of(
        self,
        scene: Scene,
        ray: Ray,
        i: usize,
        totals: &mut [u64],
    ) -> Result<RayLoss, Refusal>
        requires there { listed self i }
        requires ready { RayReady (gates self i) scene.panes ray totals.old }
        ensures result_value { loss_result result ≡ gated_loss (gates self i) scene.entry.bytes.now scene.entry.indices.now scene.entry.panes
            scene.entry.losses.now ray }
        ensures charges { Charges (gates self i) scene.entry.bytes.now scene.entry.indices.now scene.entry.losses.now ray result
            totals.old totals.new };
}

// By boxes alone.
impl Walks for AllOpen {
    ghost gates = { λ walks i. all_open };

    ghost listed = { λ walks i. Unit {0} };

    fn loss_of(
        self,
        scene: Scene,
        ray: Ray,
        _i: usize,
        totals: &mut [u64],
    ) -> Result<RayLoss, Refusal> {
        ray_loss(scene, ray, self, totals)
    }
}

// Refuses losses that do not fit the panes, and then what the call's own causes between 12 and 9 say.
fn check_own(panes: usize, losses: &[u32], between: Result<(), Refusal>) -> Result<(), Refusal>
    ensures { cause_in result ≡ own_cause panes losses.now (cause_in between) }
{
    if losses_fit(panes, losses) {
        between
    } else {
        Err(Refusal::LossesUnfit)
    }
}

// A ray's loss, or what refuses it; `between` is what the call's own causes between 12 and 9 say.
pub fn loss<G: Gate>(
    record: &[u8],
    indices: &[u32],
    panes: usize,
    losses: &[u32],
    between: Result<(), Refusal>,
    gate: G,
    beam: Beam,
) -> Result<RayLoss, Refusal>
    requires { cause_in between ≡ 0 → (G.gates gate).forged ≡ false }
    ensures { loss_result result ≡ gated_loss_of (G.gates gate) (cause_in between) «record».now indices.now panes losses.now (ray_from beam) }
{
    let ray = Ray::new(beam);
    let own = check_own(panes, losses, between);
    query::check_entry(true, record.len(), indices.len(), own, ray)?;
    let scene = Scene {
        bytes: record,
        indices,
        panes,
        losses,
    };
    ray_loss(scene, ray, gate, &mut [])
}

// What refuses a report before its walks; there is room for so many totals of rays and of panes. `fits` says whether other lists have lengths that
// fit, `between` what the report's own causes between 12 and 9 say.
// It takes the arguments of a report one by one: a Scene is made behind it, since its fields say that sizes and losses fit.
fn check_report(
    fits: bool,
    record: &[u8],
    indices: &[u32],
    panes: usize,
    losses: &[u32],
    rays: &[f32],
    ray_room: usize,
    pane_room: usize,
    between: Result<(), Refusal>,
) -> Result<(), Refusal>
    ensures { cause_in result ≡ first_cause (conditions_between fits (cause_in between) «record».now indices.now panes losses.now rays.now
        ray_room pane_room) }
{
    if rays.len() % packed::RAY != 0 || !fits {
        return Err(Refusal::LengthUnfit);
    }
    causes::record_sizes(record.len(), indices.len())?;
    let count = rays.len() / packed::RAY;
    if count > MOST_RAYS {
        return Err(Refusal::TooMany);
    }
    if ray_room < count || pane_room < panes {
        return Err(Refusal::SliceShort);
    }
    if !losses_fit(panes, losses) {
        return Err(Refusal::LossesUnfit);
    }
    between?;
    if !packed::rays_accepted(rays) {
        return Err(Refusal::RayRefused);
    }
    Ok(())
}

// Looks for a fault in the walk of each ray.
fn check_walks<W: Walks>(scene: Scene, walks: W, rays: &[f32]) -> Result<(), Refusal>
    requires { RaysEntered rays.now × GatesEntered (W.gates walks) (W.listed walks) rays.now }
    ensures { cause_in result ≡ first_cause (gated_conditions (W.gates walks) scene.entry.bytes.now scene.entry.indices.now scene.entry.panes
        scene.entry.losses.now rays.now) }
{
    for i in 0..rays.len() / packed::RAY {
        let ray = packed::ray_at(rays, i);
        walks.loss_of(scene, ray, i, &mut [])?;
    }
    Ok(())
}

// Writes the totals of ray i, whose walk has no fault; its node tests.
fn total_ray<W: Walks>(
    scene: Scene,
    walks: W,
    ray: Ray,
    i: usize,
    ray_totals: &mut [u64],
    pane_totals: &mut [u64],
) -> u32
    requires { W.listed walks i × RayReady (W.gates walks i) scene.panes ray pane_totals.old
        × (is_summed (gated_loss (W.gates walks i) scene.bytes.now scene.indices.now scene.panes scene.losses.now ray).answer ≡ true)
        × (i < length ray_totals.old) }
    ensures value { result ≡ tests_made_by (W.gates walks i) scene.entry.bytes.now (length scene.entry.indices.now) ray }
    ensures ray_totals_after { ray_totals.new ≡ set ray_totals.old i (sum_over (loss_at scene.entry.indices.now scene.entry.losses.now)
        (positions_met_by (W.gates walks i) scene.entry.bytes.now (length scene.entry.indices.now) ray)) }
    ensures pane_totals_after { pane_totals.new ≡ charged scene.entry.losses.now pane_totals.old
        (panes_met scene.entry.indices.now (positions_met_by (W.gates walks i) scene.entry.bytes.now (length scene.entry.indices.now) ray)) }
{
    let found = walks.loss_of(scene, ray, i, pane_totals).unwrap();
    ray_totals[i] = found.loss;
    found.tests
}

// Writes the totals of rays whose walks have no fault; the node tests of all.
fn total<W: Walks>(
    scene: Scene,
    walks: W,
    rays: &[f32],
    ray_totals: &mut [u64],
    pane_totals: &mut [u64],
) -> u64
    requires entered { RaysEntered rays.now × GatesEntered (W.gates walks) (W.listed walks) rays.now }
    requires rays_in_bounds { (ray_count rays.now ≤ length ray_totals.old) × (scene.panes ≤ length pane_totals.old)
        × (all_below (gated_walks (W.gates walks) scene.bytes.now scene.indices.now scene.panes scene.losses.now rays.now)
        (ray_count rays.now) ≡ true) }
    ensures { record { answer = totalled result; ray_totals = ray_totals.new; pane_totals = pane_totals.new }
        ≡ gated_totals (W.gates walks) scene.entry.bytes.now scene.entry.indices.now scene.entry.panes scene.entry.losses.now rays.now
        ray_totals.old pane_totals.old }
{
    pane_totals[..scene.panes].fill(0);
    let mut tests: u64 = 0;
    for i in 0..rays.len() / packed::RAY {
        let ray = packed::ray_at(rays, i);
        tests += total_ray(scene, walks, ray, i, ray_totals, pane_totals) as u64;
    }
    tests
}

// A report over many rays of eight floats each, with the node tests of all: in front of `ray_totals` what each ray loses, in front of `pane_totals`
// what each pane takes from all rays together. One walk of each ray looks for faults, and where there is none another writes. `fits` and `between`
// are what `check_report` takes.
pub fn report<W: Walks>(
    fits: bool,
    record: &[u8],
    indices: &[u32],
    panes: usize,
    losses: &[u32],
    rays: &[f32],
    between: Result<(), Refusal>,
    walks: W,
    ray_totals: &mut [u64],
    pane_totals: &mut [u64],
) -> Result<u64, Refusal>
    requires { fits ≡ true → cause_in between ≡ 0 → GatesEntered (W.gates walks) (W.listed walks) rays.now }
    ensures { record { answer = totals_answer result; ray_totals = ray_totals.new; pane_totals = pane_totals.new }
        ≡ gated_report_of (W.gates walks) «record».now indices.now panes losses.now rays.now fits (cause_in between) ray_totals.old pane_totals.old }
{
    let ray_room = ray_totals.len();
    let pane_room = pane_totals.len();
    check_report(
        fits, record, indices, panes, losses, rays, ray_room, pane_room, between,
    )?;
    let scene = Scene {
        bytes: record,
        indices,
        panes,
        losses,
    };
    check_walks(scene, walks, rays)?;
    let tests = total(scene, walks, rays, ray_totals, pane_totals);
    Ok(tests)
}
