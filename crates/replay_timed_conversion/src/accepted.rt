// The stored cases of accepted trees: what their timed conversion answers, and what it leaves in the slices that it is lent.
ghost use Rattle.std.specs.Prelude.{◌≤◌};

use crate::asked::{Asked, convert};
use bvh2_to_cwbvh::Converted;
use stored::{
    BYTE, COST, WORD, behind, copy_words, record_size, side_size, tree_size, word, written_bytes,
    written_words,
};

// Room for the words of a tree, its index words, the bytes of its record, and those of its side table.
const MOST_WORDS: usize = 1792;

const MOST_LEAVES: usize = 136;

const MOST_BYTES: usize = 10240;

const MOST_SIDE: usize = 2048;

// The most leaves of a tree among the cases, their words, and the most panes.
const ACCEPTED_LEAVES: usize = 128;

const ACCEPTED_WORDS: usize = 1785;

const ACCEPTED_PANES: usize = 1024;

// What is lent beyond what a tree needs, after a first turn with nothing to spare.
const SPARE: usize = 5;

// Whether the tables, the record, the list and the side table are the outputs that a case ends with, and what is past them as it was lent: the
// slices are the conversion's, lent to it one by one.
fn same_slices(
    outputs: &[u8],
    nodes: u32,
    asked: Asked,
    decisions: &[u32],
    costs: &[f32],
    record: &[u8],
    list: &[u32],
    side: &[u8],
) -> bool {
    let nodes = nodes as usize;
    let size = asked.words.len();
    let n = asked.indices.len();
    let floats = behind(outputs, size);
    let bytes = behind(floats, size);
    let positions = behind(bytes, 20 * nodes);
    written_words(outputs, decisions, size)
        && written_words(floats, costs, size)
        && written_bytes(bytes, record, 80 * nodes)
        && written_words(positions, list, n)
        && written_bytes(behind(positions, n), side, 16 * nodes)
}

// Whether a conversion with these slices, lent to it one by one, ends as a case says.
fn ends_converted(
    case: &[u8],
    outputs: &[u8],
    asked: Asked,
    decisions: &mut [u32],
    costs: &mut [f32],
    record: &mut [u8],
    list: &mut [u32],
    side: &mut [u8],
) -> bool {
    let answer = convert(asked, decisions, costs, record, list, side);
    let nodes = word(case, 4);
    let level = word(case, 5);
    answer == Ok(Converted { nodes, level })
        && same_slices(outputs, nodes, asked, decisions, costs, record, list, side)
}

// The same with so much lent beyond what the tree needs.
fn converts(case: &[u8], outputs: &[u8], asked: Asked, spare: usize) -> bool
    requires { spare ≤ 5 }
{
    let n = asked.indices.len();
    if asked.words.len() > ACCEPTED_WORDS || n > ACCEPTED_LEAVES {
        return false;
    }
    let table = asked.words.len() + spare;
    let bytes = record_size(n) + spare;
    let slots = side_size(n) + spare;
    let positions = n + spare;
    let mut decisions = [WORD; MOST_WORDS];
    let mut costs = [COST; MOST_WORDS];
    let mut record = [BYTE; MOST_BYTES];
    let mut list = [WORD; MOST_LEAVES];
    let mut side = [BYTE; MOST_SIDE];
    ends_converted(
        case,
        outputs,
        asked,
        &mut decisions[..table],
        &mut costs[..table],
        &mut record[..bytes],
        &mut list[..positions],
        &mut side[..slots],
    )
}

// Whether the tree of a case converts as stored, where its words go to these, and so many words of spans and outputs follow them.
fn converts_tree(case: &[u8], words: &mut [u32], indices: &mut [u32], panes: usize) -> bool
    requires { panes ≤ 1024 }
{
    let positions = copy_words(behind(case, 6), words);
    let rest = copy_words(positions, indices);
    let Some(spans) = rest.get(..2 * panes) else {
        return false;
    };
    let outputs = behind(rest, (panes + 1) / 2);
    let asked = Asked {
        words,
        indices,
        limit: word(case, 1),
        ordered: word(case, 2) == 1,
        panes,
        spans,
    };
    converts(case, outputs, asked, 0) && converts(case, outputs, asked, SPARE)
}

// Leaves, limit, order, panes, record nodes, deepest level; node words, indices, spans; decision words, costs, record, list, side table.
pub fn accepted(case: &[u8]) -> bool {
    let n = word(case, 0) as usize;
    let panes = word(case, 3) as usize;
    let nodes = word(case, 4) as usize;
    if n > ACCEPTED_LEAVES || nodes > ACCEPTED_LEAVES || panes > ACCEPTED_PANES {
        return false;
    }
    let size = tree_size(n);
    if case.len() / 4 != 6 + 3 * size + 2 * n + (panes + 1) / 2 + 24 * nodes {
        return false;
    }
    let mut words = [0u32; MOST_WORDS];
    let mut indices = [0u32; MOST_LEAVES];
    converts_tree(case, &mut words[..size], &mut indices[..n], panes)
}
