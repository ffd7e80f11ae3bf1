// A call of a join, with what a case says of it in front: words of the first tree, its index words, words of the second, its index words, words lent
// as marks, for nodes, for index words; the panes in two words; the number, marks that are zero afterwards, words of nodes written, index words
// written.
use causes::Refusal;
use stored::{WORD, cleared_words, wide, word};

// How many words a case starts with.
pub const HEAD: usize = 13;

// What is lent in a second turn beyond the first.
pub const SPARE: u32 = 5;

// Whether a case is refused for want of room, so that with more it would not be.
fn is_short(case: &[u8]) -> bool {
    word(case, 9) == u32::from(Refusal::SliceShort)
}

// Whether a join ends as stored in two turns, the second with more to spare.
pub fn in_two_turns<F: FnMut(u32) -> bool>(case: &[u8], mut ends: F) -> bool
    requires { F.IsAlwaysCallable ends }
{
    ends(0) && (is_short(case) || ends(SPARE))
}

// The answer that a case stores: as many leaves as there are index words written, or the number.
fn answer(case: &[u8]) -> Result<u32, u32> {
    match word(case, 9) {
        0 => Ok(word(case, 12)),
        number => Err(number),
    }
}

// Whether a join answers as stored, and leaves the marks so, where it is lent the front of these words, and so many more than the case says. All are
// filled with a pattern before. The slices of a join go one by one, as its call takes them.
pub fn answers(
    case: &[u8],
    spare: u32,
    first: &[u32],
    first_indices: &[u32],
    second: &[u32],
    second_indices: &[u32],
    marks: &mut [u32],
    words: &mut [u32],
    indices: &mut [u32],
) -> bool {
    let spare = spare as usize;
    let marks_end = word(case, 4) as usize + spare;
    let words_end = word(case, 5) as usize + spare;
    let indices_end = word(case, 6) as usize + spare;
    if marks_end > marks.len() || words_end > words.len() || indices_end > indices.len() {
        return false;
    }
    marks.fill(WORD);
    words.fill(WORD);
    indices.fill(WORD);
    let joined = join::join(
        first,
        first_indices,
        wide(case, 7) as usize,
        second,
        second_indices,
        &mut marks[..marks_end],
        &mut words[..words_end],
        &mut indices[..indices_end],
    );
    joined.map_err(u32::from) == answer(case) && cleared_words(marks, word(case, 10) as usize)
}
