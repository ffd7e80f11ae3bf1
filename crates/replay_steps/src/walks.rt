// The stored cases of walks: a record, and walkers with their calls.
ghost use Rattle.std.specs.Prelude.{◌≤◌, IfSome};

use crate::calls::{Run, last_walker};
use crate::walkers::starting;
use stored::{RECORD_BYTES, copy_bytes, filled_with, same_parts, word};
use stored_answers::came_to;

// The words that tell what a walk came to.
const END_WORDS: usize = 5;

// The words of a walk, if its calls are as stored and it comes to what is stored.
fn walk_words(walk: &[u8], record: &[u8], bytes: usize, n: usize) -> Option<usize>
    ensures { IfSome result (λ words. words ≤ 1099511627776) }
{
    let begun = starting(walk)?;
    let calls = begun.words as usize;
    let from = calls + 1;
    let end = from + word(walk, calls) as usize;
    if end > walk.len() / 4 {
        return None;
    }
    let walker = begun.walker;
    let last = last_walker(Run { walker, bytes, n }, &walk[from * 4..end * 4], record)?;
    came_to(&walk[end * 4..], last).then_some(end + END_WORDS)
}

// Whether the walks of a case are as stored, where its stored bytes go to the front of these zeros.
fn walked_on(case: &[u8], record: &mut [u8]) -> bool {
    let bytes = word(case, 1) as usize;
    let lent = word(case, 2) as usize;
    let n = word(case, 3) as usize;
    let walks = word(case, 4);
    let from = 5 + (bytes + 3) / 4;
    if bytes > record.len() {
        return false;
    }
    copy_bytes(case, 20, &mut record[..bytes]);
    same_parts(case, from, walks, |walk| walk_words(walk, record, lent, n))
}

// Bytes of the record, how many of them are stored, bytes lent at first, number of positions at first, walks; the record, and the walks.
fn walked(case: &[u8]) -> bool {
    let bytes = word(case, 0) as usize;
    if bytes > RECORD_BYTES {
        return false;
    }
    let mut record: [u8; RECORD_BYTES] = filled_with(0);
    walked_on(case, &mut record[..bytes])
}

// Whether the library agrees with a case, whose kind the file tells by a number.
pub fn agrees(kind: u32, case: &[u8]) -> bool {
    match kind {
        36 | 37 | 38 | 39 => walked(case),
        _ => false,
    }
}
