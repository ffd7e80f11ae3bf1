// The stored cases of trees that are converted both ways.
ghost use Rattle.std.specs.Prelude.{◌≤◌};

use crate::pairs::{Glazed, MOST_LEAVES, Pair, Panes, loss_of};
use crate::rays;
use crate::reports::same_reports;
use bvh2_to_cwbvh::{Converted, bvh2_to_cwbvh};
use stored::{BYTE, COST, WORD, behind, copy_words, word};

// Room for the words of a tree, the bytes of its record, and the floats of its rays.
const MOST_WORDS: usize = 889;

const MOST_BYTES: usize = 5040;

const MOST_FLOATS: usize = 64;

// The words before those of the tree.
const HEAD: usize = 5;

// The words of n leaves.
fn tree_size(n: usize) -> usize
    requires { n ≤ 64 }
    ensures { result ≤ 889 }
{
    if n == 0 { 0 } else { (2 * n - 1) * 7 }
}

// Whether a tree is converted to as many nodes as a case says, with that deepest level.
fn converts(
    case: &[u8],
    words: &[u32],
    indices: &[u32],
    ordered: bool,
    record: &mut [u8],
    list: &mut [u32],
) -> bool {
    let mut decisions = [WORD; MOST_WORDS];
    let mut costs = [COST; MOST_WORDS];
    let limit = word(case, 1);
    let answer = bvh2_to_cwbvh(
        words,
        indices,
        limit,
        ordered,
        &mut decisions,
        &mut costs,
        record,
        list,
    );
    let nodes = word(case, 2);
    let level = word(case, 3);
    answer == Ok(Converted { nodes, level })
}

// Whether rays and reports are answered as stored over both records, where the floats of the rays and the answers stand in `floats`.
fn answered(case: &[u8], floats: &[u8], pair: Pair) -> bool {
    let long = word(case, 4) as usize * 8;
    if long > MOST_FLOATS || long > floats.len() / 4 {
        return false;
    }
    let mut space = [0.0f32; MOST_FLOATS];
    let rays: &mut [f32] = &mut space[..long];
    let answers = copy_words(floats, rays);
    match rays::all_tests(&floats[..long * 4], answers, pair) {
        Some(tests) => same_reports(pair, rays, tests),
        None => false,
    }
}

// Whether a tree is converted both ways and answered over both records as stored.
fn compared(case: &[u8], floats: &[u8], words: &[u32], indices: &[u32], panes: Panes) -> bool {
    let mut record = [BYTE; MOST_BYTES];
    let mut list = [WORD; MOST_LEAVES];
    let mut other_record = [BYTE; MOST_BYTES];
    let mut other_list = [WORD; MOST_LEAVES];
    let bytes = word(case, 2) as usize * node::BYTES;
    let n = indices.len();
    if bytes > MOST_BYTES || n > MOST_LEAVES {
        return false;
    }
    if !converts(case, words, indices, true, &mut record, &mut list) {
        return false;
    }
    if !converts(
        case,
        words,
        indices,
        false,
        &mut other_record,
        &mut other_list,
    ) {
        return false;
    }
    let ordered = Glazed {
        record: &record[..bytes],
        list: &list[..n],
        panes,
    };
    let gathered = Glazed {
        record: &other_record[..bytes],
        list: &other_list[..n],
        panes,
    };
    answered(case, floats, Pair { ordered, gathered })
}

// Pane k has the box of node k.
fn put_boxes(case: &[u8], boxes: &mut [f32]) {
    for k in 0..boxes.len() / 6 {
        copy_words(behind(case, HEAD + 7 * k), &mut boxes[6 * k..6 * k + 6]);
    }
}

// Leaves, leaf limit, record nodes, deepest level, rays; node words, index words, floats of the rays; for each ray its node tests, whether it is
// blocked, how many panes it meets, and these in rising order.
pub fn both_ways(case: &[u8]) -> bool {
    let n = word(case, 0) as usize;
    if n > MOST_LEAVES {
        return false;
    }
    let mut word_space = [0u32; MOST_WORDS];
    let mut index_space = [0u32; MOST_LEAVES];
    let mut losses = [0u32; MOST_LEAVES];
    for k in 0..MOST_LEAVES {
        losses[k] = loss_of(k as u32);
    }
    let mut boxes = [0.0f32; MOST_LEAVES * 6];
    put_boxes(case, &mut boxes[..n * 6]);
    let words: &mut [u32] = &mut word_space[..tree_size(n)];
    let indices: &mut [u32] = &mut index_space[..n];
    let positions = copy_words(behind(case, HEAD), words);
    let floats = copy_words(positions, indices);
    let panes = Panes {
        losses: &losses[..n],
        boxes: &boxes[..n * 6],
    };
    compared(case, floats, words, indices, panes)
}
