// How a stored walk starts.
use stored::{beam, word};
use stored_answers::{Made, made_up, no_walker};
use traverse::Walker;

// A walker just begun for a ray of eight floats, if the number of its refusal is as stored. Beside a refusal the calls are of a walker of zeros.
fn begun(walk: &[u8]) -> Option<Made> {
    let (walker, number) = match Walker::new(beam(walk, 1)) {
        Ok(walker) => (walker, 0),
        Err(refusal) => (no_walker(), u32::from(refusal)),
    };
    (number == word(walk, 9)).then_some(Made { walker, words: 10 })
}

// The walker of a stored walk, if it came about as stored.
pub fn starting(walk: &[u8]) -> Option<Made> {
    if word(walk, 0) == 1 {
        begun(walk)
    } else {
        made_up(walk)
    }
}
