// The stored cases of refused trees: the number, and what it leaves in the slices that the conversion is lent.
use crate::asked::{Asked, convert};
use bvh2_to_cwbvh::Converted;
use causes::Refusal;
use stored::{
    BYTE, COST, WORD, behind, byte, cleared, cleared_words, copy_words, filled_with, untouched,
    wide, word,
};

// Room for the words of a tree, its index words, the bytes of its record, and those of its side table.
const MOST_WORDS: usize = 1536;

const MOST_LEAVES: usize = 136;

const MOST_BYTES: usize = 12288;

const MOST_SIDE: usize = 2048;

// Zero words for trees that are refused by lengths alone, and bytes for their spans.
const ZERO_WORDS: usize = 917518;

const ZERO_LEAVES: usize = 65537;

const ZERO_SPANS: usize = 140000;

// Whether an answer has this number, which is 0 for the record of no leaves.
fn numbered(answer: Result<Converted, Refusal>, number: u32) -> bool {
    match answer {
        Ok(converted) => number == 0 && converted == Converted { nodes: 0, level: 0 },
        Err(refusal) => u32::from(refusal) == number,
    }
}

// Whether a conversion with these slices, lent to it one by one, ends as a refused case says: all outputs as they were lent, and of the tables all
// that is not zeroed.
fn ends_refused(
    case: &[u8],
    asked: Asked,
    decisions: &mut [u32],
    costs: &mut [f32],
    record: &mut [u8],
    list: &mut [u32],
    side: &mut [u8],
) -> bool {
    let number = word(case, 12);
    let answer = convert(asked, decisions, costs, record, list, side);
    let size = cleared(number, asked.words.len());
    numbered(answer, number)
        && untouched(record)
        && untouched(list)
        && untouched(side)
        && cleared_words(decisions, size)
        && cleared_words(costs, size)
}

// The same with slices of the lengths that the case says.
fn refuses(case: &[u8], asked: Asked) -> bool {
    let decisions_end = word(case, 2) as usize;
    let costs_end = word(case, 3) as usize;
    let record_end = word(case, 4) as usize;
    let list_end = word(case, 5) as usize;
    let side_end = word(case, 6) as usize;
    if decisions_end > MOST_WORDS || costs_end > MOST_WORDS {
        return false;
    }
    if record_end > MOST_BYTES || list_end > MOST_LEAVES || side_end > MOST_SIDE {
        return false;
    }
    let mut decisions = [WORD; MOST_WORDS];
    let mut costs = [COST; MOST_WORDS];
    let mut record = [BYTE; MOST_BYTES];
    let mut list = [WORD; MOST_LEAVES];
    let mut side = [BYTE; MOST_SIDE];
    ends_refused(
        case,
        asked,
        &mut decisions[..decisions_end],
        &mut costs[..costs_end],
        &mut record[..record_end],
        &mut list[..list_end],
        &mut side[..side_end],
    )
}

// What a refused case asks, over these words and spans.
fn asked_of<'a>(case: &[u8], words: &'a [u32], indices: &'a [u32], spans: &'a [u8]) -> Asked<'a> {
    Asked {
        words,
        indices,
        limit: word(case, 10),
        ordered: word(case, 11) == 1,
        panes: wide(case, 8) as usize,
        spans,
    }
}

// Lengths of nodes, indices, decisions, costs, record, list, side table, spans; panes; limit, order, number; node words, indices, spans.
pub fn refused(case: &[u8]) -> bool {
    let size = word(case, 0) as usize;
    let n = word(case, 1) as usize;
    let bytes = word(case, 7) as usize;
    if size > MOST_WORDS || n > MOST_LEAVES {
        return false;
    }
    if case.len() / 4 != 13 + size + n + (bytes + 3) / 4 {
        return false;
    }
    let mut word_space = [0u32; MOST_WORDS];
    let mut index_space = [0u32; MOST_LEAVES];
    let words: &mut [u32] = &mut word_space[..size];
    let indices: &mut [u32] = &mut index_space[..n];
    let positions = copy_words(behind(case, 13), words);
    match copy_words(positions, indices).get(..bytes) {
        Some(spans) => refuses(case, asked_of(case, words, indices, spans)),
        None => false,
    }
}

// Puts a span of two bytes at a pane's place, if it is there.
fn put_span(spans: &mut [u8], pane: usize, first: u8, last: u8) {
    if pane < spans.len() / 2 {
        spans[2 * pane] = first;
        spans[2 * pane + 1] = last;
    }
}

// The first thirteen of these, for words that are zero, and spans but for that of one pane: the pane, its first and last quarter.
pub fn lengths(case: &[u8]) -> bool {
    let size = word(case, 0) as usize;
    let n = word(case, 1) as usize;
    let bytes = word(case, 7) as usize;
    if size > ZERO_WORDS || n > ZERO_LEAVES || bytes > ZERO_SPANS {
        return false;
    }
    let words: [u32; ZERO_WORDS] = filled_with(0);
    let indices: [u32; ZERO_LEAVES] = filled_with(0);
    let mut space: [u8; ZERO_SPANS] = filled_with(0);
    let spans: &mut [u8] = &mut space[..bytes];
    put_span(
        spans,
        word(case, 13) as usize,
        byte(case, 14),
        byte(case, 15),
    );
    refuses(case, asked_of(case, &words[..size], &indices[..n], spans))
}
