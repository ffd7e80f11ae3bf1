// The stored cases of queries: a record with index words and panes, and questions with their answers.
ghost use Rattle.std.specs.Prelude.{◌+◌, ◌≤◌, IfSome};

use crate::nearest::Site;
use crate::{any, nearest};
use stored::{RECORD_BYTES, behind, copy_bytes, copy_words, filled_with, same_parts, word};

// Room for index words, more than queries accept, and for the floats of panes.
const MOST_POSITIONS: usize = 65537;

const MOST_CORNERS: usize = 512;

// Where a part that starts with its count at word `at` ends.
fn past(asked: &[u8], at: usize) -> usize
    requires { at ≤ 1099511627776 }
    ensures { result ≤ at + 4294967296 }
{
    at + 1 + word(asked, at) as usize
}

// The words of a question, if any-hit, closest and miss answer it as stored.
fn question_words(asked: &[u8], site: Site) -> Option<usize>
    ensures { IfSome result (λ words. words ≤ 1099511627776) }
{
    let closest = past(asked, 12);
    let miss = past(asked, closest + 2);
    let end = past(asked, miss + 2);
    let same = any::same_any_hit(asked, site.record)
        && nearest::same_closest(asked, closest, site)
        && nearest::same_miss(asked, miss, site);
    same.then_some(end)
}

// Whether the questions of a case are answered as stored, where its stored bytes, index words and floats of panes go to the front of these zeros.
fn answered(case: &[u8], record: &mut [u8], list: &mut [u32], panes: &mut [f32]) -> bool {
    let bytes = word(case, 4) as usize;
    let positions = word(case, 5) as usize;
    let corners = word(case, 6) as usize;
    let from = 7 + (bytes + 3) / 4;
    let end = from + positions + corners;
    if bytes > record.len() || positions > list.len() || corners > panes.len() {
        return false;
    }
    copy_bytes(case, 28, &mut record[..bytes]);
    let floats = copy_words(behind(case, from), &mut list[..positions]);
    copy_words(floats, &mut panes[..corners]);
    let site = Site {
        record,
        list,
        panes,
    };
    same_parts(
        case,
        end,
        word(case, 3),
        |asked| question_words(asked, site),
    )
}

// Bytes of the record, index words, floats of panes, questions; how many of the first three are stored; these, and the questions.
fn queried(case: &[u8]) -> bool {
    let bytes = word(case, 0) as usize;
    let positions = word(case, 1) as usize;
    let corners = word(case, 2) as usize;
    if bytes > RECORD_BYTES || positions > MOST_POSITIONS || corners > MOST_CORNERS {
        return false;
    }
    let mut record: [u8; RECORD_BYTES] = filled_with(0);
    let mut list: [u32; MOST_POSITIONS] = filled_with(0);
    let mut panes = [0.0f32; MOST_CORNERS];
    answered(
        case,
        &mut record[..bytes],
        &mut list[..positions],
        &mut panes[..corners],
    )
}

// Whether the library agrees with a case, whose kind the file tells by a number.
pub fn agrees(kind: u32, case: &[u8]) -> bool {
    match kind {
        32 | 33 | 34 | 35 => queried(case),
        _ => false,
    }
}
