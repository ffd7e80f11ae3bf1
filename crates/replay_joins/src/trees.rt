// The stored cases of joins: two trees, and what their join answers and leaves in the slices that it is lent.
use crate::calls::{HEAD, answers, in_two_turns};
use stored::{WORD, behind, copy_words, word, written_words};

// Room for the words of a tree and for its index words.
const MOST_WORDS: usize = 2048;

const MOST_LEAVES: usize = 136;

// Room for what is lent, with guard words past it.
const MARK_SPACE: usize = 512;

const WORD_SPACE: usize = 2048;

const INDEX_SPACE: usize = 256;

// Whether the words and the index words, those past the lent ones too, are the outputs that a case ends with.
fn same_outputs(case: &[u8], outputs: &[u8], words: &[u32], indices: &[u32]) -> bool {
    let count = word(case, 11) as usize;
    written_words(outputs, words, count)
        && written_words(behind(outputs, count), indices, word(case, 12) as usize)
}

// Whether a join ends as stored, with so much lent beyond what the case says.
fn ends(
    case: &[u8],
    outputs: &[u8],
    spare: u32,
    first: &[u32],
    first_indices: &[u32],
    second: &[u32],
    second_indices: &[u32],
) -> bool {
    let mut marks = [WORD; MARK_SPACE];
    let mut words = [WORD; WORD_SPACE];
    let mut indices = [WORD; INDEX_SPACE];
    answers(
        case,
        spare,
        first,
        first_indices,
        second,
        second_indices,
        &mut marks,
        &mut words,
        &mut indices,
    ) && same_outputs(case, outputs, &words, &indices)
}

// The same in two turns, where the words and index words of a case go to these.
fn copied(
    case: &[u8],
    first: &mut [u32],
    first_indices: &mut [u32],
    second: &mut [u32],
    second_indices: &mut [u32],
) -> bool {
    let trees = HEAD + first.len() + first_indices.len() + second.len() + second_indices.len();
    if case.len() / 4 != trees + word(case, 11) as usize + word(case, 12) as usize {
        return false;
    }
    let leaves = copy_words(behind(case, HEAD), first);
    let rest = copy_words(leaves, first_indices);
    let last_leaves = copy_words(rest, second);
    let outputs = copy_words(last_leaves, second_indices);
    in_two_turns(case, |spare| {
        ends(
            case,
            outputs,
            spare,
            first,
            first_indices,
            second,
            second_indices,
        )
    })
}

// What a call starts with; words and index words of the first tree, of the second; words and index words written.
pub fn joined(case: &[u8]) -> bool {
    let first_words = word(case, 0) as usize;
    let first_leaves = word(case, 1) as usize;
    let second_words = word(case, 2) as usize;
    let second_leaves = word(case, 3) as usize;
    if first_words > MOST_WORDS || second_words > MOST_WORDS {
        return false;
    }
    if first_leaves > MOST_LEAVES || second_leaves > MOST_LEAVES {
        return false;
    }
    let mut first = [0u32; MOST_WORDS];
    let mut first_indices = [0u32; MOST_LEAVES];
    let mut second = [0u32; MOST_WORDS];
    let mut second_indices = [0u32; MOST_LEAVES];
    copied(
        case,
        &mut first[..first_words],
        &mut first_indices[..first_leaves],
        &mut second[..second_words],
        &mut second_indices[..second_leaves],
    )
}
