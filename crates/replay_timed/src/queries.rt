// The stored cases of timed queries: a record with side table, index words, panes and spans, and questions with their answers.
use crate::questions::{Site, question_words};
use stored::{
    RECORD_BYTES, behind, copy_bytes, copy_words, filled_up, filled_with, same_parts, word,
};

// Room for the bytes of a side table, for index words, more than queries accept, for the floats of panes, and for the bytes of spans.
const MOST_SIDE: usize = 1048592;

const MOST_POSITIONS: usize = 65537;

const MOST_CORNERS: usize = 512;

const MOST_SPANS: usize = 140000;

// Puts what a case stores of the five lists to the front of these zeros, and gives the word from which the questions stand; none where it stores more
// than there are.
fn put_lists(
    case: &[u8],
    record: &mut [u8],
    side: &mut [u8],
    list: &mut [u32],
    panes: &mut [f32],
    spans: &mut [u8],
) -> Option<usize> {
    let bytes = word(case, 6) as usize;
    let slots = word(case, 7) as usize;
    let positions = word(case, 8) as usize;
    let corners = word(case, 9) as usize;
    let quarters = word(case, 10) as usize;
    let slots_from = 44 + filled_up(word(case, 6));
    let positions_from = slots_from + filled_up(word(case, 7));
    copy_bytes(case, 44, record.get_mut(..bytes)?);
    copy_bytes(case, slots_from, side.get_mut(..slots)?);
    let floats = copy_words(behind(case, positions_from / 4), list.get_mut(..positions)?);
    let rest = copy_words(floats, panes.get_mut(..corners)?);
    copy_bytes(rest, 0, spans.get_mut(..quarters)?);
    Some(positions_from / 4 + positions + corners + (quarters + 3) / 4)
}

// Whether the questions of a case are answered as stored, where what it stores of the five lists goes to the front of these zeros.
fn answered(
    case: &[u8],
    record: &mut [u8],
    side: &mut [u8],
    list: &mut [u32],
    panes: &mut [f32],
    spans: &mut [u8],
) -> bool {
    let Some(from) = put_lists(case, record, side, list, panes, spans) else {
        return false;
    };
    let site = Site {
        record,
        side,
        list,
        panes,
        spans,
    };
    same_parts(
        case,
        from,
        word(case, 5),
        |asked| question_words(asked, site),
    )
}

// Bytes of the record and of the side table, index words, floats of panes, bytes of spans, questions; how many of the first five are stored; these,
// and the questions.
#[inline(never)]
pub fn queried(case: &[u8]) -> bool {
    let bytes = word(case, 0) as usize;
    let slots = word(case, 1) as usize;
    let positions = word(case, 2) as usize;
    let corners = word(case, 3) as usize;
    let quarters = word(case, 4) as usize;
    if bytes > RECORD_BYTES || slots > MOST_SIDE || quarters > MOST_SPANS {
        return false;
    }
    if positions > MOST_POSITIONS || corners > MOST_CORNERS {
        return false;
    }
    let mut record: [u8; RECORD_BYTES] = filled_with(0);
    let mut side: [u8; MOST_SIDE] = filled_with(0);
    let mut list: [u32; MOST_POSITIONS] = filled_with(0);
    let mut panes = [0.0f32; MOST_CORNERS];
    let mut spans: [u8; MOST_SPANS] = filled_with(0);
    answered(
        case,
        &mut record[..bytes],
        &mut side[..slots],
        &mut list[..positions],
        &mut panes[..corners],
        &mut spans[..quarters],
    )
}
