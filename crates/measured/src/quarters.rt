// What bench/ measures of quarter hours, where no function for C has it: timed queries, for a ray of eight floats each, and what they look at on
// entry.
use super::{REFUSED, two_words};
use pane_walk::{ClosestHit, Occlusion};

// Below 2^32 where nothing is hit.
const NO_HIT: u32 = 0xffff_ffff;

// Whether spans, side table and quarter hour fit, as each timed query looks at them: the whole list of spans.
#[unsafe(no_mangle)]
pub extern "C" fn measured_hours(
    record: &[u8],
    side: &[u8],
    indices: &[u32],
    panes: usize,
    spans: &[u8],
    quarter: u8,
) -> bool {
    timed_entry::hours_of(record, side, indices, panes, spans, quarter).is_ok()
}

// Timed any-hit: node tests, and below 2^32 how many positions are listed.
#[unsafe(no_mangle)]
pub extern "C" fn measured_any_hit_timed(
    record: &[u8],
    side: &[u8],
    indices: &[u32],
    panes: usize,
    spans: &[u8],
    ray: &[f32],
    quarter: u8,
    list: &mut [u32],
) -> u64 {
    if ray.len() != packed::RAY {
        return REFUSED;
    }
    let beam = packed::beam_at(ray, 0);
    match any_hit_timed::any_hit_timed(record, side, indices, panes, spans, beam, quarter, list) {
        Ok(listed) => two_words(listed.tests, listed.count),
        Err(_) => REFUSED,
    }
}

// Timed closest: node tests, and below 2^32 the position of a hit, whose distance is the first float of `out`.
#[unsafe(no_mangle)]
pub extern "C" fn measured_closest_timed(
    record: &[u8],
    side: &[u8],
    indices: &[u32],
    panes: &[f32],
    spans: &[u8],
    ray: &[f32],
    quarter: u8,
    out: &mut [f32],
) -> u64 {
    if ray.len() != packed::RAY || out.len() == 0 {
        return REFUSED;
    }
    let beam = packed::beam_at(ray, 0);
    let found = closest_timed::closest_timed(record, side, indices, panes, spans, beam, quarter);
    match found.answer {
        ClosestHit::Hit(position, distance) => {
            out[0] = distance;
            two_words(found.tests, position)
        }
        ClosestHit::NoHit => two_words(found.tests, NO_HIT),
        ClosestHit::Refused(_) => REFUSED,
    }
}

// Timed miss: node tests, and below 2^32 whether a pane blocks the ray.
#[unsafe(no_mangle)]
pub extern "C" fn measured_miss_timed(
    record: &[u8],
    side: &[u8],
    indices: &[u32],
    panes: &[f32],
    spans: &[u8],
    ray: &[f32],
    quarter: u8,
) -> u64 {
    if ray.len() != packed::RAY {
        return REFUSED;
    }
    let beam = packed::beam_at(ray, 0);
    match closest_timed::miss_timed(record, side, indices, panes, spans, beam, quarter) {
        Ok(found) => {
            let blocked = found.answer == Occlusion::Blocked;
            two_words(found.tests, u32::from(blocked))
        }
        Err(_) => REFUSED,
    }
}
