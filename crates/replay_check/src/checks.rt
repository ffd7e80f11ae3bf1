// The stored cases of record checks: each verdict, and what the working words hold then.
ghost use Rattle.std.specs.Prelude.{◌≤◌};

use stored::{RECORD_BYTES, WORD, cleared_words, filled_up, filled_with, word};

// A working word for each of 65,535 nodes and 65,536 positions.
const MOST_WORDS: usize = 131071;

// The verdict that a case stores in words 3 and 4, where 0 is sound with its deepest level, 1 unsound, and 2 refused with its number.
fn verdict(case: &[u8]) -> Option<Result<Option<u32>, u32>> {
    match (word(case, 3), word(case, 4)) {
        (0, level) => Some(Ok(Some(level))),
        (1, 0) => Some(Ok(None)),
        (2, number) => Some(Err(number)),
        _ => None,
    }
}

// Whether the check of a record answers as the first words of a case say: its bytes, n, working words, verdict, level or number. A refusal leaves the
// working words untouched; else those used are zero.
fn answers_with(case: &[u8], record: &[u8], words: &mut [u32]) -> bool {
    let n = word(case, 1) as usize;
    let room = word(case, 2) as usize;
    if room > words.len() {
        return false;
    }
    let answer = validate::validate(record, n, &mut words[..room]).map_err(u32::from);
    let used = if answer.is_ok() {
        record.len() / node::BYTES + n
    } else {
        0
    };
    verdict(case) == Some(answer) && cleared_words(words, used)
}

// Whether it answers as stored; the words are lent to another function, as in other programs, whose calls differ.
fn answers(case: &[u8], record: &[u8]) -> bool {
    let mut words = [WORD; MOST_WORDS];
    answers_with(case, record, &mut words)
}

// Whether it does so where the record follows at byte `from`.
fn checked(case: &[u8], from: usize) -> bool
    requires { from ≤ 24 }
{
    let bytes = word(case, 0);
    if case.len() != from + filled_up(bytes) {
        return false;
    }
    let end = from + bytes as usize;
    answers(case, &case[from..end])
}

// Whether it is unsound, with a word before the record that says that the published `validate` passes it, 1, or never ends, 2.
fn laxer(case: &[u8]) -> bool {
    word(case, 3) == 1 && matches!(word(case, 5), 1 | 2) && checked(case, 24)
}

// The first words of a case, for a record of zeros.
fn lengths(case: &[u8]) -> bool {
    let bytes = word(case, 0) as usize;
    if bytes > RECORD_BYTES {
        return false;
    }
    let record: [u8; RECORD_BYTES] = filled_with(0);
    answers(case, &record[..bytes])
}

// Whether the library agrees with a case, whose kind the file tells by a number.
pub fn agrees(kind: u32, case: &[u8]) -> bool {
    match kind {
        24 => checked(case, 20),
        25 => laxer(case),
        26 => lengths(case),
        _ => false,
    }
}
