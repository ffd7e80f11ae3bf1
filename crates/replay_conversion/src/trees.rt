// The stored cases of binary trees: what their conversion answers, and what it leaves in the slices that it is lent.
ghost use Rattle.std.specs.Prelude.{◌≤◌};

use bvh2_to_cwbvh::{Converted, bvh2_to_cwbvh};
use stored::{
    BYTE, COST, WORD, behind, cleared, cleared_words, copy_words, filled_with, record_size,
    tree_size, untouched, word, written_bytes, written_words,
};

// Room for the words of a tree, its index words, and the bytes of its record.
const MOST_WORDS: usize = 2048;

const MOST_LEAVES: usize = 136;

const MOST_BYTES: usize = 12288;

// The most leaves of an accepted tree among the cases, and their words.
const ACCEPTED_LEAVES: usize = 128;

const ACCEPTED_WORDS: usize = 1785;

// Zero words for trees that are refused by lengths alone.
const ZERO_WORDS: usize = 917518;

const ZERO_LEAVES: usize = 65537;

// What is lent beyond what an accepted tree needs, after a first turn with nothing to spare.
const SPARE: usize = 5;

// Whether the tables, the record and the list are the outputs that an accepted case ends with, and what is past them as it was lent: the slices are
// the conversion's, lent to it one by one.
fn same_slices(
    outputs: &[u8],
    nodes: u32,
    size: usize,
    n: usize,
    decisions: &[u32],
    costs: &[f32],
    record: &[u8],
    list: &[u32],
) -> bool {
    let nodes = nodes as usize;
    let floats = behind(outputs, size);
    let bytes = behind(floats, size);
    written_words(outputs, decisions, size)
        && written_words(floats, costs, size)
        && written_bytes(bytes, record, node::BYTES * nodes)
        && written_words(behind(bytes, 20 * nodes), list, n)
}

// Whether a conversion with these slices, lent to it one by one, ends as an accepted case says.
fn ends_converted(
    case: &[u8],
    outputs: &[u8],
    words: &[u32],
    indices: &[u32],
    decisions: &mut [u32],
    costs: &mut [f32],
    record: &mut [u8],
    list: &mut [u32],
) -> bool {
    let limit = word(case, 1);
    let ordered = word(case, 2) == 1;
    let answer = bvh2_to_cwbvh(
        words, indices, limit, ordered, decisions, costs, record, list,
    );
    let nodes = word(case, 3);
    let level = word(case, 4);
    answer == Ok(Converted { nodes, level })
        && same_slices(
            outputs,
            nodes,
            words.len(),
            indices.len(),
            decisions,
            costs,
            record,
            list,
        )
}

// The same with so much lent beyond what the tree needs.
fn converts(case: &[u8], outputs: &[u8], words: &[u32], indices: &[u32], spare: usize) -> bool
    requires { spare ≤ 5 }
{
    if words.len() > ACCEPTED_WORDS || indices.len() > ACCEPTED_LEAVES {
        return false;
    }
    let table = words.len() + spare;
    let bytes = record_size(indices.len()) + spare;
    let n = indices.len() + spare;
    let mut decisions = [WORD; MOST_WORDS];
    let mut costs = [COST; MOST_WORDS];
    let mut record = [BYTE; MOST_BYTES];
    let mut list = [WORD; MOST_LEAVES];
    ends_converted(
        case,
        outputs,
        words,
        indices,
        &mut decisions[..table],
        &mut costs[..table],
        &mut record[..bytes],
        &mut list[..n],
    )
}

// Leaves, limit, order, record nodes, deepest level; node words, indices; decision words, costs, record, list.
pub fn accepted(case: &[u8]) -> bool {
    let n = word(case, 0) as usize;
    let nodes = word(case, 3) as usize;
    if n > ACCEPTED_LEAVES || nodes > ACCEPTED_LEAVES {
        return false;
    }
    let size = tree_size(n);
    if case.len() / 4 != 5 + 3 * size + 2 * n + 20 * nodes {
        return false;
    }
    let mut word_space = [0u32; MOST_WORDS];
    let mut index_space = [0u32; MOST_LEAVES];
    let words: &mut [u32] = &mut word_space[..size];
    let indices: &mut [u32] = &mut index_space[..n];
    let positions = copy_words(behind(case, 5), words);
    let outputs = copy_words(positions, indices);
    converts(case, outputs, words, indices, 0) && converts(case, outputs, words, indices, SPARE)
}

// Whether a conversion with these slices, lent to it one by one, ends as a refused case says: both outputs as they were lent, and of the tables all
// that is not zeroed.
fn ends_refused(
    case: &[u8],
    words: &[u32],
    indices: &[u32],
    decisions: &mut [u32],
    costs: &mut [f32],
    record: &mut [u8],
    list: &mut [u32],
) -> bool {
    let limit = word(case, 6);
    let ordered = word(case, 7) == 1;
    let number = word(case, 8);
    let answer = bvh2_to_cwbvh(
        words, indices, limit, ordered, decisions, costs, record, list,
    );
    let size = cleared(number, words.len());
    answer.map_err(u32::from) == Err(number)
        && untouched(record)
        && untouched(list)
        && cleared_words(decisions, size)
        && cleared_words(costs, size)
}

// The same with slices of the lengths that the case says.
fn refuses(case: &[u8], words: &[u32], indices: &[u32]) -> bool {
    let decisions_end = word(case, 2) as usize;
    let costs_end = word(case, 3) as usize;
    let record_end = word(case, 4) as usize;
    let list_end = word(case, 5) as usize;
    if decisions_end > MOST_WORDS || costs_end > MOST_WORDS {
        return false;
    }
    if record_end > MOST_BYTES || list_end > MOST_LEAVES {
        return false;
    }
    let mut decisions = [WORD; MOST_WORDS];
    let mut costs = [COST; MOST_WORDS];
    let mut record = [BYTE; MOST_BYTES];
    let mut list = [WORD; MOST_LEAVES];
    ends_refused(
        case,
        words,
        indices,
        &mut decisions[..decisions_end],
        &mut costs[..costs_end],
        &mut record[..record_end],
        &mut list[..list_end],
    )
}

// Lengths of nodes, indices, decisions, costs, record, list; limit, order, number; node words, indices.
pub fn refused(case: &[u8]) -> bool {
    let size = word(case, 0) as usize;
    let n = word(case, 1) as usize;
    if size > MOST_WORDS || n > MOST_LEAVES {
        return false;
    }
    if case.len() / 4 != 9 + size + n {
        return false;
    }
    let mut word_space = [0u32; MOST_WORDS];
    let mut index_space = [0u32; MOST_LEAVES];
    let words: &mut [u32] = &mut word_space[..size];
    let indices: &mut [u32] = &mut index_space[..n];
    let positions = copy_words(behind(case, 9), words);
    copy_words(positions, indices);
    refuses(case, words, indices)
}

// The first nine of these, for words that are zero.
pub fn lengths(case: &[u8]) -> bool {
    let size = word(case, 0) as usize;
    let n = word(case, 1) as usize;
    if size > ZERO_WORDS || n > ZERO_LEAVES {
        return false;
    }
    let words: [u32; ZERO_WORDS] = filled_with(0);
    let indices: [u32; ZERO_LEAVES] = filled_with(0);
    refuses(case, &words[..size], &indices[..n])
}
