// Answers of queries: a number, the node tests, how many words were found, and these.
use any_hit::{AnyHit, AnyHitError};
use causes::Refusal;
use closest::{ClosestFound, ClosestHit, MissFound, Occlusion};
use stored::{behind, same, untouched, word, written_words};

// The number of a refusal for a short list, as it is stored: it is none of those that other calls give.
const SHORT: u32 = 11;

// Whether an answer has this number, so many tests, and so many words.
fn same_head(answer: &[u8], number: u32, tests: u32, count: u32) -> bool {
    word(answer, 0) == number && word(answer, 1) == tests && word(answer, 2) == count
}

// Whether any-hit found what is stored, and left in the words, those past the lent ones too, what it should: all as it was beside a refusal.
pub fn same_any_hit(answer: &[u8], found: Result<AnyHit, AnyHitError>, space: &[u32]) -> bool {
    match found {
        Ok(found) => {
            same_head(answer, 0, found.tests, found.count)
                && written_words(behind(answer, 3), space, found.count as usize)
        }
        Err(AnyHitError::Short(needed)) => {
            same_head(answer, SHORT, 0, 1) && word(answer, 3) == needed && untouched(space)
        }
        Err(AnyHitError::Refused(refusal)) => {
            same_head(answer, u32::from(refusal), 0, 0) && untouched(space)
        }
    }
}

// Whether closest found what is stored.
pub fn same_closest(answer: &[u8], found: ClosestFound) -> bool {
    let tests = found.tests;
    match found.answer {
        ClosestHit::Hit(p, distance) => {
            same_head(answer, 0, tests, 2) && word(answer, 3) == p && same(answer, 4, distance)
        }
        ClosestHit::NoHit => same_head(answer, 0, tests, 0),
        ClosestHit::Refused(refusal) => same_head(answer, u32::from(refusal), tests, 0),
    }
}

// Whether miss found what is stored: one that is not refused finds one, which is 1 where it missed and 0 where it was blocked.
pub fn same_miss(answer: &[u8], found: Result<MissFound, Refusal>) -> bool {
    match found {
        Ok(found) => {
            same_head(answer, 0, found.tests, 1)
                && word(answer, 3) == u32::from(found.answer == Occlusion::Missed)
        }
        Err(refusal) => same_head(answer, u32::from(refusal), 0, 0),
    }
}
