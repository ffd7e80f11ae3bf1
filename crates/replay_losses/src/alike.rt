// The stored cases of losses by lengths: every index word, every loss and every ray is the same, and all nodes past the first are zero.
ghost use Rattle.std.specs.Prelude.{◌≤◌};

use crate::lent::{Priced, Spaces};
use crate::single;
use stored::{RECORD_BYTES, TOTAL, behind, copy_bytes, filled_with, real, word};
use stored_answers::same_report_alike;

// Room for index words, losses, rays and lent words with guard words past them: more of the first and of rays than a report accepts.
const MANY: usize = 65548;

const MANY_FLOATS: usize = 524312;

// Room for few of them.
const FEW: usize = 16;

const FEW_FLOATS: usize = 64;

const FEW_BYTES: usize = 160;

// The bytes of a node.
const NODE: usize = 80;

// Sets all rays to the one of a case.
fn fill_rays(case: &[u8], floats: &mut [f32]) {
    for i in 0..floats.len() {
        floats[i] = real(case, 9 + i % 8);
    }
}

// Whether the single call answers as stored.
fn same_single(case: &[u8], priced: Priced) -> bool {
    case.len() >= 192 && single::same_loss(&case[36..], &case[96..], priced)
}

// Whether the single call and the report answer as stored.
fn compared(case: &[u8], priced: Priced, rays: &[f32], mut spaces: Spaces) -> bool {
    same_single(case, priced)
        && match spaces.report(case, priced, rays) {
            Some(answer) => {
                let left = spaces.totals(rays.len() / 8, priced.panes);
                same_report_alike(behind(case, 17), word(case, 7) as usize, answer, left)
            }
            None => false,
        }
}

// Puts the first node of a case to the front of these zeros.
fn put_node(case: &[u8], record: &mut [u8]) {
    let front = record.len().min(NODE);
    copy_bytes(case, 112, &mut record[..front]);
}

// A case with room for so many bytes of a record, losses or totals, and floats of rays: the stack has none for both a long record and many rays.
#[inline(never)]
fn in_room<const BYTES: usize, const PANES: usize, const FLOATS: usize>(
    case: &[u8],
    bytes: usize,
    positions: usize,
    taken: usize,
    floats: usize,
) -> bool
    requires list_room { positions ≤ 65548 }
    requires stack_room { (BYTES ≤ 8388608) × (PANES ≤ 8388608) × (FLOATS ≤ 8388608) }
{
    if bytes > BYTES || taken > PANES || floats > FLOATS {
        return false;
    }
    let mut record: [u8; BYTES] = filled_with(0);
    let list: [u32; MANY] = filled_with(word(case, 7));
    let losses: [u32; PANES] = filled_with(word(case, 8));
    let mut rays: [f32; FLOATS] = filled_with(0.0);
    let mut ray_space: [u64; PANES] = filled_with(TOTAL);
    let mut pane_space: [u64; PANES] = filled_with(TOTAL);
    put_node(case, &mut record[..bytes]);
    fill_rays(case, &mut rays[..floats]);
    let priced = Priced {
        record: &record[..bytes],
        list: &list[..positions],
        panes: word(case, 2) as usize,
        losses: &losses[..taken],
    };
    let spaces = Spaces {
        rays: &mut ray_space,
        panes: &mut pane_space,
    };
    compared(case, priced, &rays[..floats], spaces)
}

// Bytes of the record, index words, panes, losses, floats of rays, words lent for the totals of rays, and of panes; the index word, the loss, the
// ray; the report's number, its node tests, the total of a ray and of the pane that the index word names; the single call's answer; the first node.
pub fn sized(case: &[u8]) -> bool {
    let bytes = word(case, 0) as usize;
    let positions = word(case, 1) as usize;
    let taken = word(case, 3) as usize;
    let floats = word(case, 4) as usize;
    if positions > MANY {
        false
    } else if bytes > FEW_BYTES {
        in_room::<RECORD_BYTES, FEW, FEW_FLOATS>(case, bytes, positions, taken, floats)
    } else {
        in_room::<FEW_BYTES, MANY, MANY_FLOATS>(case, bytes, positions, taken, floats)
    }
}
