// The stored cases of losses: a record with index words, losses and rays; a report's answer, and the single call's for each ray.
ghost use Rattle.std.specs.Prelude.{◌≤◌, length};

use crate::lent::{Priced, Spaces};
use crate::single;
use stored::{TOTAL, behind, copy_bytes, copy_words, word};
use stored_answers::same_report;

// Room for the bytes of a record, its index words, its losses and the floats of its rays.
const MOST_BYTES: usize = 49152;

const MOST_POSITIONS: usize = 4400;

const MOST_LOSSES: usize = 64;

const MOST_FLOATS: usize = 512;

// Room for the words lent for totals with guard words past them.
const RAY_SPACE: usize = 80;

const PANE_SPACE: usize = 80;

// Whether a report answers as stored.
fn answers(case: &[u8], totals: &[u8], priced: Priced, rays: &[f32]) -> bool {
    let mut ray_space = [TOTAL; RAY_SPACE];
    let mut pane_space = [TOTAL; PANE_SPACE];
    let mut spaces = Spaces {
        rays: &mut ray_space,
        panes: &mut pane_space,
    };
    match spaces.report(case, priced, rays) {
        Some(answer) => {
            let left = spaces.totals(rays.len() / 8, priced.panes);
            same_report(behind(case, 7), totals, answer, left)
        }
        None => false,
    }
}

// The words of the totals of so many rays and of the panes: none in a case that is refused.
fn totals_words(case: &[u8], count: usize) -> usize
    requires { count ≤ 65536 }
    ensures { result ≤ 8590065662 }
{
    if word(case, 7) > 0 {
        0
    } else {
        (count + word(case, 2) as usize) * 2
    }
}

// Whether the single call answers as stored for each ray, whose eight floats stand in `floats`.
fn same_losses(floats: &[u8], answers: &[u8], priced: Priced) -> bool {
    floats
        .chunks_exact(32)
        .zip(answers.chunks_exact(16))
        .all(|(ray, answer)| single::same_loss(ray, answer, priced))
}

// Whether the report and the single calls answer as stored, where the floats of the rays stand from word `from` on, then the totals, and the single
// call's answers end the case.
fn compared(case: &[u8], from: usize, priced: Priced, rays: &mut [f32]) -> bool
    requires { (from ≤ 32768) × (length rays.old ≤ 512) }
{
    let floats = behind(case, from);
    let totals = copy_words(floats, rays);
    let count = rays.len() / 8;
    let written = totals_words(case, count);
    from + rays.len() + written + count * 4 == case.len() / 4
        && answers(case, totals, priced, rays)
        && same_losses(floats, behind(totals, written), priced)
}

// The same, where the record, index words and losses of a case go to these.
fn copied(
    case: &[u8],
    record: &mut [u8],
    list: &mut [u32],
    losses: &mut [u32],
    rays: &mut [f32],
) -> bool
    requires few { (length record.old ≤ 49152) × (length list.old ≤ 4400) }
    requires short { (length losses.old ≤ 64) × (length rays.old ≤ 512) }
{
    let positions = 10 + (record.len() + 3) / 4;
    let from = positions + list.len() + losses.len();
    copy_bytes(case, 40, record);
    let taken = copy_words(behind(case, positions), list);
    copy_words(taken, losses);
    let priced = Priced {
        record,
        list,
        panes: word(case, 2) as usize,
        losses,
    };
    compared(case, from, priced, rays)
}

// Bytes of the record, index words, panes, losses, floats of rays, words lent for the totals of rays, and of panes; the report's number and its node
// tests; record, index words, losses, floats; totals; answers of the single call.
pub fn reported(case: &[u8]) -> bool {
    let bytes = word(case, 0) as usize;
    let positions = word(case, 1) as usize;
    let taken = word(case, 3) as usize;
    let floats = word(case, 4) as usize;
    if bytes > MOST_BYTES || positions > MOST_POSITIONS {
        return false;
    }
    if taken > MOST_LOSSES || floats > MOST_FLOATS {
        return false;
    }
    let mut record = [0u8; MOST_BYTES];
    let mut list = [0u32; MOST_POSITIONS];
    let mut losses = [0u32; MOST_LOSSES];
    let mut rays = [0.0f32; MOST_FLOATS];
    copied(
        case,
        &mut record[..bytes],
        &mut list[..positions],
        &mut losses[..taken],
        &mut rays[..floats],
    )
}
