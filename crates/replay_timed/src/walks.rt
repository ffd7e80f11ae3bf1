// The stored cases of timed walks: a record, lists in one turn or two, and walkers with their calls.
use crate::calls::{Ground, Lengths, Run, last_walker};
use stored::{
    RECORD_BYTES, beam, behind, byte, copy_bytes, copy_words, filled_up, filled_with, same_parts,
    word,
};
use stored_answers::{Made, came_to, made_up, no_walker};
use traverse_timed::TimedWalker;

// Room for the bytes of side tables, for index words, and for the bytes of spans, of all turns.
const MOST_SIDES: usize = 1048592;

const MOST_POSITIONS: usize = 65552;

const MOST_SPANS: usize = 512;

// The words that tell what a walk came to.
const END_WORDS: usize = 5;

// A walker with its quarter hour, and how many words tell of it.
#[derive(Clone, Copy)]
struct Start {
    walker: TimedWalker,
    words: u32,
}

// A walker just begun for a ray of eight floats at a quarter hour, if the number of its refusal is as stored. Beside a refusal the calls are of a
// walker of zeros.
fn begun(walk: &[u8], quarter: u8) -> Option<Start> {
    let (walker, number) = match TimedWalker::new(beam(walk, 1), quarter) {
        Ok(walker) => (walker, 0),
        Err(refusal) => {
            let walker = no_walker();
            (TimedWalker { walker, quarter }, u32::from(refusal))
        }
    };
    (number == word(walk, 9)).then_some(Start { walker, words: 10 })
}

// A walker that is made up.
fn made(walk: &[u8], quarter: u8) -> Option<Start> {
    let Made { walker, words } = made_up(walk)?;
    Some(Start {
        walker: TimedWalker { walker, quarter },
        words,
    })
}

// The walker of a stored walk, if it came about as stored.
fn starting(walk: &[u8], quarter: u8) -> Option<Start> {
    if word(walk, 0) == 1 {
        begun(walk, quarter)
    } else {
        made(walk, quarter)
    }
}

// The words of a walk, its quarter first, if its calls are as stored and it comes to what is stored.
fn walk_words(walk: &[u8], ground: Ground, sizes: Lengths, lent: Lengths) -> Option<usize> {
    let quarter = byte(walk, 0);
    let start = starting(behind(walk, 1), quarter)?;
    let calls = 1 + start.words as usize;
    let from = calls + 1;
    let end = from + word(walk, calls) as usize;
    if end > walk.len() / 4 {
        return None;
    }
    let run = Run {
        walker: start.walker,
        lent,
        second: false,
    };
    let last = last_walker(run, &walk[from * 4..end * 4], ground, sizes)?;
    let same = last.quarter == quarter && came_to(&walk[end * 4..], last.walker);
    same.then_some(end + END_WORDS)
}

// How much of each list there is in a turn of a case.
fn turn_sizes(case: &[u8]) -> Lengths {
    Lengths {
        record: word(case, 0) as usize,
        side: word(case, 1) as usize,
        list: word(case, 2) as usize,
        panes: 0,
        spans: word(case, 3) as usize,
    }
}

// How much of each list is lent at first.
fn lent_at_first(case: &[u8]) -> Lengths {
    Lengths {
        record: word(case, 9) as usize,
        side: word(case, 10) as usize,
        list: word(case, 11) as usize,
        panes: word(case, 12) as usize,
        spans: word(case, 13) as usize,
    }
}

// Puts what a case stores of the lists to the front of these zeros, and gives the word from which the walks stand; none where it stores more than
// there are.
fn put_lists(
    case: &[u8],
    record: &mut [u8],
    sides: &mut [u8],
    lists: &mut [u32],
    spans: &mut [u8],
) -> Option<usize> {
    let bytes = word(case, 5) as usize;
    let slots = word(case, 6) as usize;
    let positions = word(case, 7) as usize;
    let quarters = word(case, 8) as usize;
    let slots_from = 60 + filled_up(word(case, 5));
    let positions_from = slots_from + filled_up(word(case, 6));
    copy_bytes(case, 60, record.get_mut(..bytes)?);
    copy_bytes(case, slots_from, sides.get_mut(..slots)?);
    let rest = copy_words(
        behind(case, positions_from / 4),
        lists.get_mut(..positions)?,
    );
    copy_bytes(rest, 0, spans.get_mut(..quarters)?);
    Some(positions_from / 4 + positions + (quarters + 3) / 4)
}

// Whether the walks of a case are as stored, where what it stores of the lists goes to the front of these zeros.
fn walked_on(
    case: &[u8],
    record: &mut [u8],
    sides: &mut [u8],
    lists: &mut [u32],
    spans: &mut [u8],
) -> bool {
    let Some(from) = put_lists(case, record, sides, lists, spans) else {
        return false;
    };
    let sizes = turn_sizes(case);
    let lent = lent_at_first(case);
    let ground = Ground {
        record,
        sides,
        lists,
        spans,
    };
    same_parts(
        case,
        from,
        word(case, 14),
        |walk| walk_words(walk, ground, sizes, lent),
    )
}

// Bytes of the record, and in one turn bytes of the side table, index words, bytes of spans; turns; how many of the four are stored of all turns; how
// much is lent at first, panes before spans; walks; the four, and the walks.
#[inline(never)]
pub fn walked(case: &[u8]) -> bool {
    let bytes = word(case, 0) as usize;
    let turns = word(case, 4) as usize;
    let slots = word(case, 1) as usize * turns;
    let positions = word(case, 2) as usize * turns;
    let quarters = word(case, 3) as usize * turns;
    if turns > 2 || bytes > RECORD_BYTES || slots > MOST_SIDES {
        return false;
    }
    if positions > MOST_POSITIONS || quarters > MOST_SPANS {
        return false;
    }
    let mut record: [u8; RECORD_BYTES] = filled_with(0);
    let mut sides: [u8; MOST_SIDES] = filled_with(0);
    let mut lists: [u32; MOST_POSITIONS] = filled_with(0);
    let mut spans = [0u8; MOST_SPANS];
    walked_on(
        case,
        &mut record[..bytes],
        &mut sides[..slots],
        &mut lists[..positions],
        &mut spans[..quarters],
    )
}
