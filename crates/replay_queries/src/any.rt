// Any-hit on a stored question: a ray's eight floats, the number of positions, the words lent, and the answer.
use stored::{WORD, beam, behind, word};

// Room for the words lent with guard words past them.
const SPACE: usize = 1600;

// Whether any-hit answers as stored, where it is lent the first of these words.
fn answers(asked: &[u8], record: &[u8], space: &mut [u32]) -> bool {
    let n = word(asked, 8) as usize;
    let lent = word(asked, 9) as usize;
    if lent > space.len() {
        return false;
    }
    let found = any_hit::any_hit(record, n, beam(asked, 0), &mut space[..lent]);
    stored_answers::same_any_hit(behind(asked, 10), found, space)
}

// Whether any-hit answers as stored; the words are lent to another function, as in other programs, whose calls differ.
pub fn same_any_hit(asked: &[u8], record: &[u8]) -> bool {
    let mut space = [WORD; SPACE];
    answers(asked, record, &mut space)
}
