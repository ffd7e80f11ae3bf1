// The stored cases of timed losses: a record with side table, index words, spans, losses and rays at their quarter hours; a report's answer, and the
// single call's for each ray.
use crate::lent::{Priced, Rays, Spaces};
use stored::{TOTAL, behind, copy_words, wide, word};
use stored_answers::same_report;

// Room for index words, losses and the floats of rays.
const MOST_POSITIONS: usize = 64;

const MOST_LOSSES: usize = 64;

const MOST_FLOATS: usize = 128;

// Room for the words lent for totals with guard words past them.
const RAY_SPACE: usize = 80;

const PANE_SPACE: usize = 80;

// Whether a report answers as stored, with the totals that `totals` starts with.
fn answers(case: &[u8], totals: &[u8], priced: Priced, rays: Rays) -> bool {
    let mut ray_space = [TOTAL; RAY_SPACE];
    let mut pane_space = [TOTAL; PANE_SPACE];
    let mut spaces = Spaces {
        rays: &mut ray_space,
        panes: &mut pane_space,
    };
    match spaces.report(case, priced, rays) {
        Some(answer) => {
            let left = spaces.totals(rays.floats.len() / 8, priced.panes);
            same_report(behind(case, 11), totals, answer, left)
        }
        None => false,
    }
}

// Whether the single call answers as stored for each ray, whose eight floats stand in `floats`; at quarter 0 where it has none.
fn same_losses(floats: &[u8], quarters: &[u8], answers: &[u8], priced: Priced) -> bool {
    floats
        .chunks_exact(32)
        .zip(answers.chunks_exact(16))
        .enumerate()
        .all(|(k, (ray, answer))| priced.loses(ray, quarters.get(k).copied().unwrap_or(0), answer))
}

// The words of the totals of so many rays and panes: none in a case that is refused.
fn totals_words(case: &[u8], rays: usize, panes: usize) -> usize {
    if word(case, 11) > 0 {
        0
    } else {
        rays.saturating_add(panes).saturating_mul(2)
    }
}

// Whether the report and the single calls answer as stored, where the case's floats of the rays stand first in `floats`, then the quarters, then the
// totals, and the single call's answers end it.
fn compared(case: &[u8], floats: &[u8], priced: Priced, space: &mut [f32]) -> bool {
    let rest = copy_words(floats, space);
    let count = word(case, 8) as usize;
    let Some(quarters) = rest.get(..count) else {
        return false;
    };
    let totals = behind(rest, (count + 3) / 4);
    let last = behind(totals, totals_words(case, space.len() / 8, priced.panes));
    let rays = Rays {
        floats: space,
        quarters,
    };
    last.len() == rays.floats.len() / 8 * 16
        && answers(case, totals, priced, rays)
        && same_losses(floats, quarters, last, priced)
}

// The same, where index words, losses and rays of a case go to these; none where the case is too short.
fn copied(case: &[u8], list: &mut [u32], losses: &mut [u32], rays: &mut [f32]) -> Option<bool> {
    let bytes = word(case, 0) as usize;
    let slots = word(case, 1) as usize;
    let spans_end = word(case, 5) as usize;
    let lists = behind(case, 14);
    let record = lists.get(..bytes)?;
    let rest = behind(lists, (bytes + 3) / 4);
    let side = rest.get(..slots)?;
    let rest = copy_words(behind(rest, (slots + 3) / 4), list);
    let spans = rest.get(..spans_end)?;
    let floats = copy_words(behind(rest, (spans_end + 3) / 4), losses);
    let priced = Priced {
        record,
        side,
        list,
        panes: wide(case, 3) as usize,
        spans,
        losses,
    };
    Some(compared(case, floats, priced, rays))
}

// Bytes of the record and of the side table, index words, panes, bytes of spans, losses, floats of rays, quarters, words lent for the totals of rays,
// and of panes; the report's number and its node tests; record, side table, index words, spans, losses, floats, quarters; totals; answers of the
// single call.
pub fn reported(case: &[u8]) -> bool {
    let positions = word(case, 2) as usize;
    let taken = word(case, 6) as usize;
    let floats = word(case, 7) as usize;
    if positions > MOST_POSITIONS || taken > MOST_LOSSES || floats > MOST_FLOATS {
        return false;
    }
    let mut list = [0u32; MOST_POSITIONS];
    let mut losses = [0u32; MOST_LOSSES];
    let mut rays = [0.0f32; MOST_FLOATS];
    let same = copied(
        case,
        &mut list[..positions],
        &mut losses[..taken],
        &mut rays[..floats],
    );
    same == Some(true)
}
