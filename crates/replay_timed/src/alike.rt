// The stored cases of timed losses by lengths: every index word, every loss, every span but that of one pane, every ray and every quarter hour is the
// same, and all nodes past the first are zero, and so are their slots.
ghost use Rattle.std.specs.Prelude.{◌≤◌};

use crate::lent::{Priced, Rays, Spaces};
use stored::{RECORD_BYTES, TOTAL, behind, byte, copy_bytes, filled_with, real, wide, word};
use stored_answers::same_report_alike;

// Room for the bytes of a side table, for index words, and for quarters, losses and lent words, guard words past them: more than a report accepts.
const MOST_SIDE: usize = 1048592;

const MANY: usize = 65548;

const MANY_FLOATS: usize = 524312;

const MANY_SPANS: usize = 131088;

// Room for few of them.
const FEW: usize = 16;

const FEW_FLOATS: usize = 64;

const FEW_BYTES: usize = 160;

// The bytes of a node, and of its slots.
const NODE: usize = 80;

const SLOTS: usize = 16;

// Sets all rays to the one of a case.
fn fill_rays(case: &[u8], floats: &mut [f32]) {
    for i in 0..floats.len() {
        floats[i] = real(case, 19 + i % 8);
    }
}

// Sets all spans to the one of a case, but for that of one pane.
fn fill_spans(case: &[u8], spans: &mut [u8]) {
    let other = word(case, 13) as usize;
    for i in 0..spans.len() {
        let from = if i / 2 == other { 16 } else { 14 };
        spans[i] = byte(case, from + i % 2);
    }
}

// Puts the first bytes of these that a case has from byte `from` on to the front of these zeros.
fn put_front(case: &[u8], from: usize, most: usize, into: &mut [u8]) {
    let front = into.len().min(most);
    copy_bytes(case, from, &mut into[..front]);
}

// Fills these zeros with what a case says: the first node, its slots, the spans and the rays.
fn fill(case: &[u8], record: &mut [u8], side: &mut [u8], spans: &mut [u8], floats: &mut [f32]) {
    put_front(case, 152, NODE, record);
    put_front(case, 232, SLOTS, side);
    fill_spans(case, spans);
    fill_rays(case, floats);
}

// Whether the single call and the report answer as stored, where the report is lent the first of these words.
fn compared(
    case: &[u8],
    priced: Priced,
    rays: Rays,
    ray_space: &mut [u64],
    pane_space: &mut [u64],
) -> bool {
    let mut spaces = Spaces {
        rays: ray_space,
        panes: pane_space,
    };
    priced.loses(behind(case, 19), byte(case, 18), behind(case, 34))
        && match spaces.report(case, priced, rays) {
            Some(answer) => {
                let left = spaces.totals(rays.floats.len() / 8, priced.panes);
                same_report_alike(behind(case, 27), word(case, 11) as usize, answer, left)
            }
            None => false,
        }
}

// How much of each list a case lends: bytes of the record and of the side table, index words, bytes of spans, losses, floats of rays, quarters.
#[derive(Clone, Copy)]
struct Sizes {
    bytes: usize,
    side: usize,
    positions: usize,
    spans: usize,
    losses: usize,
    floats: usize,
    quarters: usize,
}

fn sizes_of(case: &[u8]) -> Sizes {
    Sizes {
        bytes: word(case, 0) as usize,
        side: word(case, 1) as usize,
        positions: word(case, 2) as usize,
        spans: word(case, 5) as usize,
        losses: word(case, 6) as usize,
        floats: word(case, 7) as usize,
        quarters: word(case, 8) as usize,
    }
}

// A case with room for so many bytes of a record and of its side table, losses, quarters or totals, floats of rays, and bytes of spans: the stack has
// none for both a long record and many rays.
#[inline(never)]
fn in_room<
    const BYTES: usize,
    const SIDE: usize,
    const PANES: usize,
    const FLOATS: usize,
    const SPANS: usize,
>(case: &[u8], sizes: Sizes) -> bool
    requires stack_room { (BYTES ≤ 8388608) × (SIDE ≤ 8388608) × (PANES ≤ 8388608) × (FLOATS ≤ 8388608) × (SPANS ≤ 8388608) }
{
    if sizes.bytes > BYTES || sizes.side > SIDE || sizes.positions > MANY || sizes.spans > SPANS {
        return false;
    }
    if sizes.losses > PANES || sizes.floats > FLOATS || sizes.quarters > PANES {
        return false;
    }
    let mut record: [u8; BYTES] = filled_with(0);
    let mut side: [u8; SIDE] = filled_with(0);
    let list: [u32; MANY] = filled_with(word(case, 11));
    let losses: [u32; PANES] = filled_with(word(case, 12));
    let mut spans: [u8; SPANS] = filled_with(0);
    let mut floats: [f32; FLOATS] = filled_with(0.0);
    let quarters: [u8; PANES] = filled_with(byte(case, 18));
    let mut ray_space: [u64; PANES] = filled_with(TOTAL);
    let mut pane_space: [u64; PANES] = filled_with(TOTAL);
    fill(
        case,
        &mut record[..sizes.bytes],
        &mut side[..sizes.side],
        &mut spans[..sizes.spans],
        &mut floats[..sizes.floats],
    );
    let priced = Priced {
        record: &record[..sizes.bytes],
        side: &side[..sizes.side],
        list: &list[..sizes.positions],
        panes: wide(case, 3) as usize,
        spans: &spans[..sizes.spans],
        losses: &losses[..sizes.losses],
    };
    let rays = Rays {
        floats: &floats[..sizes.floats],
        quarters: &quarters[..sizes.quarters],
    };
    compared(case, priced, rays, &mut ray_space, &mut pane_space)
}

// Bytes of the record and of the side table, index words, panes, bytes of spans, losses, floats of rays, quarters, words lent for the totals of rays,
// and of panes; the index word, the loss, the pane that has another span; the span, that one; the quarter, the ray; the report's number, its node
// tests, the total of a ray and of the pane that the index word names; the single call's answer; the first node, its slots.
pub fn sized(case: &[u8]) -> bool {
    let sizes = sizes_of(case);
    if sizes.bytes > FEW_BYTES || sizes.side > FEW_BYTES {
        in_room::<RECORD_BYTES, MOST_SIDE, FEW, FEW_FLOATS, FEW_FLOATS>(case, sizes)
    } else {
        in_room::<FEW_BYTES, FEW_BYTES, MANY, MANY_FLOATS, MANY_SPANS>(case, sizes)
    }
}
