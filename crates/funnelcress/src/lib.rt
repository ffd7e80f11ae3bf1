// The library for C and Rust: each function is exported under its name. Numbers that are returned are those of
// refusals, 0 for none, but the record check's, conversion's, the queries', a report's and a join's, which also hold
// what they answer: C takes one number for an answer, so that its kind is a number here, and each answer has a function that makes it.
#![tactic(auto)]

mod hours;
mod joins;
mod reports;
mod walkers;

ghost use Rattle.std.specs.Prelude.{◌≡◌, ◌+◌, ◌*◌, ◌/◌, ◌≤◌, ◌<◌, length};
ghost use Rattle.causes.specs.Refusal.{cause_in, cause_number};
ghost use Rattle.packed.specs.Packed.{box_in};
ghost use Rattle.record_shape.specs.Check.{check_of, words_after};
ghost use Rattle.validate.specs.Validity.{verdict_of};
ghost use Rattle.bvh2_to_cwbvh.specs.Answer.{conversion_answer};
ghost use Rattle.funnelcress.specs.Answers.{answer_number};
ghost use Rattle.funnelcress.specs.Converted.{order_cause, conversion_by, conversion_number, handed};
ghost use Rattle.any_hit.specs.AnyHit.{result_of};
ghost use Rattle.closest.specs.Panes.{closest_answer, closest_result, miss_result};
ghost use Rattle.funnelcress.specs.Queries.{any_hit_by, list_by, closest_by, distance_in, miss_by, short_cause};
ghost use Rattle.funnelcress.specs.Queries.{number_of, any_hit_number, closest_number, miss_number, AnyHitFits, ClosestFits, MissFits};
ghost use Rattle.funnelcress.specs.Lists.{FilledBy, area_at, entry_at, refusal, ray_refusal, answered};

use aabb::Aabb;
use any_hit::{AnyHit, AnyHitError};
use bvh2_to_cwbvh::Converted;
use causes::Refusal;
use closest::{ClosestFound, ClosestHit, MissFound, Occlusion};

// An answer's number: a query's node tests count TESTS each, the kind of answer KIND, and what it holds is added.
const TESTS: u64 = 0x1_0000_0000_0000;

const KIND: u64 = 0x1_0000_0000;

// A refusal is of kind 2.
const REFUSED: u64 = 2 * KIND;

// A level of a converted tree counts so much: the nodes stand below it.
const LEVEL: u64 = 65536;

// Whether a list has whole boxes, and room for an answer to each.
fn check_list(boxes: &[f32], out: &[f32]) -> Result<(), Refusal>
    ensures { cause_in result ≡ refusal boxes.now out.now }
{
    if boxes.len() % packed::BOX != 0 {
        return Err(Refusal::LengthUnfit);
    }
    if boxes.len() / packed::BOX > out.len() {
        return Err(Refusal::SliceShort);
    }
    Ok(())
}

// Writes the answer to each box, at the front of the answers.
fn fill<F: Fn(Aabb) -> f32>(boxes: &[f32], out: &mut [f32], answer: F)
    requires room { length boxes.now / 6 ≤ length out.old }
    requires callable { F.IsAlwaysCallable answer }
    ensures { FilledBy (λ k. F.post answer (box_in boxes.now k)) (length boxes.now / 6) out.old out.new }
{
    for i in 0..boxes.len() / packed::BOX {
        out[i] = answer(packed::box_at(boxes, i));
    }
}

// The half area of each box, at the front of the answers.
#[unsafe(no_mangle)]
pub extern "C" fn funnelcress_half_areas(boxes: &[f32], out: &mut [f32]) -> u32
    ensures value { result ≡ refusal boxes.now out.old }
    ensures out_after { out.new ≡ answered result (area_at boxes.now) boxes.now out.old }
{
    match check_list(boxes, out) {
        Ok(()) => {
            fill(boxes, out, |b| b.half_area());
            0
        }
        Err(refusal) => u32::from(refusal),
    }
}

// The distance at which the ray enters each box, +infinity where it misses, at the front of the answers.
#[unsafe(no_mangle)]
pub extern "C" fn funnelcress_entry_distances(boxes: &[f32], ray: &[f32], out: &mut [f32]) -> u32
    ensures value { result ≡ ray_refusal boxes.now ray.now out.old }
    ensures out_after { out.new ≡ answered result (entry_at boxes.now ray.now) boxes.now out.old }
{
    if ray.len() != packed::RAY {
        return u32::from(Refusal::LengthUnfit);
    }
    match check_list(boxes, out) {
        Ok(()) => {
            let r = packed::ray_at(ray, 0);
            fill(boxes, out, |b| b.intersect_ray(r));
            0
        }
        Err(refusal) => u32::from(refusal),
    }
}

// The number of an answer that is a refusal. This part all calls share; what else an answer holds differs, so that each has a function of its own.
fn refusal_number(refusal: Refusal) -> u64
    ensures { result ≡ 0x2_0000_0000 + cause_number refusal }
{
    REFUSED + u64::from(u32::from(refusal))
}

// The record check's answer as a number.
#[tactic(auto, unfolding(crate::specs::Answers::answer_number, validate::specs::Validity::verdict_of, validate::specs::Validity::soundness))]
fn answer_number(verdict: Result<Option<u32>, Refusal>) -> u64
    ensures { result ≡ answer_number (verdict_of verdict) }
{
    match verdict {
        Ok(Some(level)) => u64::from(level),
        Ok(None) => KIND,
        Err(refusal) => refusal_number(refusal),
    }
}

// The record check: its answer, and below 2^32 the deepest level of a sound record or the number of a refusal.
#[unsafe(no_mangle)]
pub extern "C" fn funnelcress_validate(record: &[u8], n: usize, work: &mut [u32]) -> u64
    ensures value { result ≡ answer_number (check_of «record».now n (length work.old)) }
    ensures work_after { work.new ≡ words_after «record».now n work.old }
{
    answer_number(validate::validate(record, n, work))
}

// Conversion's answer as a number.
#[tactic(auto, unfolding(crate::specs::Converted::conversion_number, bvh2_to_cwbvh::specs::Answer::conversion_answer))]
fn conversion_number(conversion: Result<Converted, Refusal>) -> u64
    ensures { result ≡ conversion_number (conversion_answer conversion) }
{
    match conversion {
        Ok(converted) => u64::from(converted.level) * LEVEL + u64::from(converted.nodes),
        Err(refusal) => refusal_number(refusal),
    }
}

// What refuses an order that is neither 0 nor 1: its own cause comes behind those of the sizes.
fn order_refusal(words: &[u32], n: usize) -> Refusal
    ensures { cause_number result ≡ order_cause (length words.now) n }
{
    match bvh2_check::sizes(words, n) {
        Ok(_) => Refusal::LimitOver,
        Err(refusal) => refusal,
    }
}

// Conversion with ordering off for order 0 and on for 1, any other order being refused: its answer, and below 2^32 the deepest level and the sixteen
// bits of the node count, or the number of a refusal. The tables of the tree's decisions and costs are left in the working slices. C lends each slice
// on its own.
#[unsafe(no_mangle)]
pub extern "C" fn funnelcress_bvh2_to_cwbvh(
    words: &[u32],
    indices: &[u32],
    limit: u32,
    order: u32,
    decisions: &mut [u32],
    costs: &mut [f32],
    record: &mut [u8],
    list: &mut [u32],
) -> u64
    ensures { record {
      number = result;
      decisions = decisions.new;
      costs = costs.new;
      bytes = «record».new;
      list = list.new;
    } ≡ handed (conversion_by order (λ ordered. record {
      words = words.entry.now;
      indices = indices.now;
      limit = limit;
      ordered = ordered;
      decisions = decisions.old;
      costs = costs.old;
      bytes = «record».old;
      list = list.old;
    })) }
{
    if order > 1 {
        return refusal_number(order_refusal(words, indices.len()));
    }
    let ordered = order == 1;
    conversion_number(bvh2_to_cwbvh::bvh2_to_cwbvh(
        words, indices, limit, ordered, decisions, costs, record, list,
    ))
}

// Node tests, the kind of a query's answer, and what it holds, as one number.
fn query_number(tests: u32, kind: u64, held: u32) -> u64
    requires { (tests ≤ 65535) × (kind ≤ 1) }
    ensures { result ≡ number_of tests kind held }
{
    u64::from(tests) * TESTS + kind * KIND + u64::from(held)
}

// Any-hit's answer as a number.
#[tactic(auto, unfolding(crate::specs::Queries::any_hit_number, any_hit::specs::AnyHit::result_of, any_hit::specs::AnyHit::any_hit_answer))]
fn any_hit_number(found: Result<AnyHit, AnyHitError>) -> u64
    requires { AnyHitFits (result_of found) }
    ensures { result ≡ any_hit_number (result_of found) }
{
    match found {
        Ok(listed) => query_number(listed.tests, 0, listed.count),
        Err(AnyHitError::Short(needed)) => query_number(0, 1, needed),
        Err(AnyHitError::Refused(refusal)) => refusal_number(refusal),
    }
}

// Any-hit for a ray of eight floats: node tests, the kind of answer, and below 2^32 how many positions are listed, the length that
// a short list wants, or the number of a refusal. The positions are at the front of the list.
#[unsafe(no_mangle)]
pub extern "C" fn funnelcress_any_hit(record: &[u8], n: usize, ray: &[f32], list: &mut [u32]) -> u64
    ensures value { result ≡ any_hit_number (any_hit_by «record».now n ray.now (length list.old)) }
    ensures list_after { list.new ≡ list_by «record».now n ray.now list.old }
{
    if ray.len() != packed::RAY {
        return refusal_number(Refusal::LengthUnfit);
    }
    let beam = packed::beam_at(ray, 0);
    any_hit_number(any_hit::any_hit(record, n, beam, list))
}

// Closest's answer as a number, and the distance of a hit as the first float lent.
#[tactic(auto, unfolding(crate::specs::Queries::closest_number, crate::specs::Queries::distance_in, closest::specs::Panes::closest_answer))]
fn closest_number(found: ClosestFound, out: &mut [f32]) -> u64
    requires { ClosestFits (closest_result found) × (0 < length out.old) }
    ensures value { result ≡ closest_number (closest_result found) }
    ensures out_after { out.new ≡ distance_in (closest_answer found.answer) out.old }
{
    match found.answer {
        ClosestHit::Hit(position, distance) => {
            out[0] = distance;
            query_number(found.tests, 0, position)
        }
        ClosestHit::NoHit => query_number(found.tests, 1, 0),
        ClosestHit::Refused(refusal) => refusal_number(refusal),
    }
}

// What refuses closest where no float is lent, by what refuses it on entry.
fn short_refusal(entry: Result<(), Refusal>) -> Refusal
    ensures { cause_number result ≡ short_cause (cause_in entry) }
{
    match entry {
        Ok(()) => Refusal::SliceShort,
        Err(refusal) => refusal.min(Refusal::SliceShort),
    }
}

// Closest for a ray of eight floats: node tests, the kind of answer, and below 2^32 the position of a hit or the number of a
// refusal. The distance of a hit is the first float of `out`, which has at least one.
#[unsafe(no_mangle)]
pub extern "C" fn funnelcress_closest(
    record: &[u8],
    indices: &[u32],
    panes: &[f32],
    ray: &[f32],
    out: &mut [f32],
) -> u64
    ensures value { result ≡ closest_number (closest_by (length out.old) «record».now indices.now
        panes.now ray.now) }
    ensures out_after { out.new ≡ distance_in (closest_by (length out.old) «record».now indices.now
        panes.now ray.now).answer out.old }
{
    if ray.len() != packed::RAY {
        return refusal_number(Refusal::LengthUnfit);
    }
    if out.len() == 0 {
        let fits = panes.len() % packed::BOX == 0;
        let r = packed::ray_at(ray, 0);
        let entry = query::check_entry(fits, record.len(), indices.len(), Ok(()), r);
        return refusal_number(short_refusal(entry));
    }
    let beam = packed::beam_at(ray, 0);
    closest_number(closest::closest(record, indices, panes, beam), out)
}

// Miss's answer as a number.
#[tactic(auto, unfolding(crate::specs::Queries::miss_number, closest::specs::Panes::miss_result, closest::specs::Panes::miss_answer))]
fn miss_number(found: Result<MissFound, Refusal>) -> u64
    requires { MissFits (miss_result found) }
    ensures { result ≡ miss_number (miss_result found) }
{
    match found {
        Ok(found) => match found.answer {
            Occlusion::Missed => query_number(found.tests, 0, 0),
            Occlusion::Blocked => query_number(found.tests, 1, 0),
        },
        Err(refusal) => refusal_number(refusal),
    }
}

// Miss for a ray of eight floats: node tests, the kind of answer, and below 2^32 the number of a refusal.
#[unsafe(no_mangle)]
pub extern "C" fn funnelcress_miss(
    record: &[u8],
    indices: &[u32],
    panes: &[f32],
    ray: &[f32],
) -> u64
    ensures { result ≡ miss_number (miss_by «record».now indices.now panes.now ray.now) }
{
    if ray.len() != packed::RAY {
        return refusal_number(Refusal::LengthUnfit);
    }
    let beam = packed::beam_at(ray, 0);
    miss_number(closest::miss(record, indices, panes, beam))
}
