// Internal: any-hit beside any gate (cwbvh/mod.rs, ray_traverse_anyhit): the positions that a ray passes, in the order of the walk.
#![tactic(auto)]

ghost use Rattle.std.specs.Prelude.{◌≡◌, false, ◌+◌, ◌≤◌, length, take, set};
ghost use Rattle.causes.specs.Refusal.{cause_in};
ghost use Rattle.ray.specs.Ray.{ray_from};
ghost use Rattle.advance.specs.Turn.{walker_of};
ghost use Rattle.walk_record.specs.WalkRay.{walk_ray};
ghost use Rattle.any_hit_walk.specs.AnyHit.{fitted, walk_of, list_walked, gated_any_hit, gated_list, result_of};
ghost use Rattle.any_hit_walk.specs.declared.AnyHitError.TheVariants.{Refused};
ghost use Rattle.any_hit_walk.specs.Gather.{done_by, Walking, Counted, Gathers, list_fitted};

use advance::{Answer, Stack, Walk};
use causes::Refusal;
use gate::Gate;
use query::Query;
use ray::Beam;

// Over any number of positions that a walk reports.
const MANY: u32 = 0xffff_0000;

// How many positions any-hit has listed, and its node tests.
#[derive(Clone, Copy, Debug, PartialEq, Eq)]
pub struct AnyHit {
    pub count: u32,
    pub tests: u32,
}

// Why any-hit is refused: the list is short of the length needed, which is cause 11, or another cause.
#[derive(Clone, Copy, Debug, PartialEq, Eq)]
pub enum AnyHitError {
    Short(u32),
    Refused(Refusal),
}

impl From<Refusal> for AnyHitError {
    ghost from_gives = { λ refusal e. e ≡ Refused refusal };

    // Any other cause than a short list.
    fn from(refusal: Refusal) -> AnyHitError {
        AnyHitError::Refused(refusal)
    }
}

// A walk with the number of positions that it has noted, which stands beside an array, since there is no heap: it is done, or paused where those of
// another node may find no room; both have a walk and a count.
#[derive(Clone, Copy)]
struct Gathered {
    done: bool,
    walk: Walk,
    count: u32,
}

// Writes a position at this place, if the list is that long.
fn note(list: &mut [u32], at: usize, p: u32)
    ensures { list.new ≡ set list.old at p }
{
    if at < list.len() {
        list[at] = p;
    }
}

// Whether a walk is done after a search for positions with this answer, or why it is refused.
#[tactic(auto, unfolding(crate::specs::Gather::done_by))]
fn done_by(answer: Answer) -> Result<bool, Refusal>
    ensures { result ≡ done_by answer }
{
    match answer {
        Answer::Done => Ok(true),
        Answer::Refused(refusal) => Err(refusal),
        _ => Ok(false),
    }
}

// Goes on with a walk that has noted so many positions in `found`, as long as there is room, until it ends or has noted over `most`.
// Each query has the loop over a walk written out: miss leaves both loops by a labelled break, as the requirements ask, and a closure could not.
#[inline(always)]
fn gather<G: Gate>(
    query: Query,
    gate: G,
    start: Walk,
    noted: u32,
    most: u32,
    stack: &mut Stack,
    found: &mut [u32],
) -> Result<Gathered, Refusal>
    requires { let bvh = query.bvh in let aim = query.aim in (start.positions.bits ≡ 0) × (noted ≤ most + 24)
        × Walking (G.gates gate) bvh.bytes.now bvh.positions aim.ray (walker_of aim.ray aim.octant start stack.old) noted found.old found.old }
    ensures { let bvh = query.entry.bvh in let aim = query.entry.aim in
        Gathers (G.gates gate) bvh.bytes.now bvh.positions aim.ray aim.octant most found.old result stack.new found.new }
{
    let mut walk = start;
    let mut count = noted;
    // not a `for`: a turn notes as many positions as its node has
    while count <= most {
        let turn = advance::seek_on(walk, &query.aim, gate, stack, query.bvh);
        walk = advance::walk_after(turn);
        let done = done_by(turn.answer)?;
        if done {
            return Ok(Gathered { done, walk, count });
        }
        while walk.positions.bits > 0 {
            let held = walk.positions;
            let p = advance::first_position(held);
            walk.positions = advance::rest_of(held);
            let admitted = gate.admits(p)?;
            if !admitted {
                continue;
            }
            if p >= query.bvh.positions {
                return Err(Refusal::Fault);
            }
            note(found, count as usize, p as u32);
            count += 1;
        }
    }
    let done = false;
    Ok(Gathered { done, walk, count })
}

// Positions kept aside come into a list that is long enough for them.
fn deliver(found: &[u32], count: u32, tests: u32, list: &mut [u32]) -> Result<AnyHit, AnyHitError>
    requires { count ≤ length found.now }
    ensures result_value { result_of result ≡ fitted count tests (length list.old) }
    ensures list_after { list.new ≡ list_fitted count tests (take count found.now) list.old }
{
    let kept = count as usize;
    let short = kept > list.len();
    if short {
        return Err(AnyHitError::Short(count));
    }
    list[..kept].copy_from_slice(&found[..kept]);
    Ok(AnyHit { count, tests })
}

// After a walk without a fault: another one writes its positions into a list that is long enough for them.
fn walk_again<G: Gate>(
    query: Query,
    gate: G,
    count: u32,
    tests: u32,
    list: &mut [u32],
) -> Result<AnyHit, AnyHitError>
    requires entered { (G.gates gate).forged ≡ false }
    requires counted { Counted (G.gates gate) query.bvh.bytes.now query.bvh.positions query.aim.ray count tests }
    ensures result_value { let bvh = query.entry.bvh in
        result_of result ≡ walk_of (G.gates gate) bvh.bytes.now bvh.positions (walk_ray query.entry.aim.ray) (length list.old) }
    ensures list_after { let bvh = query.entry.bvh in
        list.new ≡ list_walked (G.gates gate) bvh.bytes.now bvh.positions (walk_ray query.entry.aim.ray) list.old }
{
    if list.len() < count as usize {
        return Err(AnyHitError::Short(count));
    }
    let start = advance::begin();
    let mut stack = [0u64; 32];
    let again = gather(query, gate, start, 0, MANY, &mut stack, list)?;
    Ok(AnyHit {
        count: again.count,
        tests: again.walk.tests,
    })
}

// Goes on with a walk whose positions so far lie in `found`. Up to 1,024 are kept aside until it has ended.
fn walk_on<G: Gate>(
    query: Query,
    gate: G,
    first: Gathered,
    found: &[u32],
    stack: &mut Stack,
    list: &mut [u32],
) -> Result<AnyHit, AnyHitError>
    requires entered { (G.gates gate).forged ≡ false }
    requires walking { let aim = query.aim in Walking (G.gates gate) query.bvh.bytes.now query.bvh.positions aim.ray
        (walker_of aim.ray aim.octant first.walk stack.old) first.count found.now found.now }
    requires between { (first.walk.positions.bits ≡ 0) × (first.count ≤ length found.now) × (first.count ≤ 1024) }
    ensures result_value { let bvh = query.entry.bvh in
        result_of result ≡ walk_of (G.gates gate) bvh.bytes.now bvh.positions (walk_ray query.entry.aim.ray) (length list.old) }
    ensures list_after { let bvh = query.entry.bvh in
        list.new ≡ list_walked (G.gates gate) bvh.bytes.now bvh.positions (walk_ray query.entry.aim.ray) list.old }
{
    let mut more = [0u32; 1024];
    let kept = first.count as usize;
    more[..kept].copy_from_slice(&found[..kept]);
    let rest = gather(query, gate, first.walk, first.count, MANY, stack, &mut more)?;
    if rest.count > 1024 {
        return walk_again(query, gate, rest.count, rest.walk.tests, list);
    }
    deliver(&more, rest.count, rest.walk.tests, list)
}

// A whole walk over a record with nodes: most rays pass few positions, for which 64 words are set aside; it goes on with more where they may not do.
fn walk_whole<G: Gate>(query: Query, gate: G, list: &mut [u32]) -> Result<AnyHit, AnyHitError>
    requires { (G.gates gate).forged ≡ false }
    ensures result_value { let bvh = query.entry.bvh in
        result_of result ≡ walk_of (G.gates gate) bvh.bytes.now bvh.positions (walk_ray query.entry.aim.ray) (length list.old) }
    ensures list_after { let bvh = query.entry.bvh in
        list.new ≡ list_walked (G.gates gate) bvh.bytes.now bvh.positions (walk_ray query.entry.aim.ray) list.old }
{
    let start = advance::begin();
    let mut stack = [0u64; 32];
    let mut found = [0u32; 64];
    let first = gather(query, gate, start, 0, 40, &mut stack, &mut found)?;
    if first.done {
        deliver(&found, first.count, first.walk.tests, list)
    } else {
        walk_on(query, gate, first, &found, &mut stack, list)
    }
}

// The positions that a ray passes in a record that is taken to have n positions, in front of `list`; nothing is written unless all fit. Positions are
// kept aside until the walk has ended; where they are too many for that, another walk writes them. `between` is what a query's own causes between 2
// and 9 say.
pub fn any_hit<G: Gate>(
    record: &[u8],
    n: usize,
    between: Result<(), Refusal>,
    gate: G,
    beam: Beam,
    list: &mut [u32],
) -> Result<AnyHit, AnyHitError>
    requires { cause_in between ≡ 0 → (G.gates gate).forged ≡ false }
    ensures result_value { result_of result ≡ gated_any_hit (G.gates gate) «record».now n (cause_in between) (ray_from beam) (length list.old) }
    ensures list_after { list.new ≡ gated_list (G.gates gate) «record».now n (cause_in between) (ray_from beam) list.old }
{
    match Query::begin(true, record, n, between, beam)? {
        Some(query) => walk_whole(query, gate, list),
        None => Ok(AnyHit { count: 0, tests: 0 }),
    }
}
