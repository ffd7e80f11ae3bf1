// A timed walker's calls: steps, tellings, and what of the lists is lent.
use stored::{real, word};
use stored_answers::{TELL, all_called, same_answer, same_done, same_walker};
use traverse::{Answer, Group, Walk, Walker};
use traverse_timed::TimedWalker;

// The first of the calls whose next word is lent from there on; added to it is which of the lengths it is.
const LEND: u32 = 0xc020_0000;

// Lists of which one turn is lent at a time, one behind the other; the record is lent in every turn.
#[derive(Clone, Copy)]
pub struct Ground<'a> {
    pub record: &'a [u8],
    pub sides: &'a [u8],
    pub lists: &'a [u32],
    pub spans: &'a [u8],
}

// How much there is in a turn, or how much of it is lent: bytes of the record and of the side table, index words, panes, bytes of spans.
#[derive(Clone, Copy)]
pub struct Lengths {
    pub record: usize,
    pub side: usize,
    pub list: usize,
    pub panes: usize,
    pub spans: usize,
}

// A walker under way with what it is lent.
#[derive(Clone, Copy)]
pub struct Run {
    pub walker: TimedWalker,
    pub lent: Lengths,
    pub second: bool,
}

// Where a turn of so many items begins.
fn turn_at(second: bool, size: usize) -> usize {
    if second { size } else { 0 }
}

// What is lent from a turn on, of the items of all turns.
fn lent_of<T>(items: &[T], from: usize, lent: usize) -> Option<&[T]> {
    items.get(from..)?.get(..lent)
}

// A walker without its positions in hand: a step that is done has passed over them.
fn without_positions(w: Walker) -> Walker {
    let walk = Walk {
        positions: Group { base: 0, bits: 0 },
        ..w.walk
    };
    Walker { walk, ..w }
}

// Whether a step gave back the walker that it took, if it is refused; if it is done, all but the positions that it passed over.
fn same_after(answer: Answer, bytes: usize, before: TimedWalker, after: TimedWalker) -> bool {
    before.quarter == after.quarter
        && match answer {
            Answer::Refused(_) => same_walker(before.walker, after.walker),
            Answer::Done => {
                let first = without_positions(before.walker);
                same_done(bytes, first, without_positions(after.walker))
            }
            _ => true,
        }
}

// A step on what is lent, if it is as stored.
fn stepped(run: Run, call: u32, ground: Ground, sizes: Lengths) -> Option<Run> {
    let lent = run.lent;
    let second = run.second;
    let record = ground.record.get(..lent.record)?;
    let side = lent_of(ground.sides, turn_at(second, sizes.side), lent.side)?;
    let list = lent_of(ground.lists, turn_at(second, sizes.list), lent.list)?;
    let spans = lent_of(ground.spans, turn_at(second, sizes.spans), lent.spans)?;
    let s = run.walker.step(record, side, list, lent.panes, spans);
    let walker = s.walker;
    let same = same_answer(call, s.answer) && same_after(s.answer, lent.record, run.walker, walker);
    same.then_some(Run { walker, ..run })
}

// What is lent from here on, if one of these calls says so.
fn lends(run: Run, call: u32, x: usize) -> Option<Run> {
    let lent = run.lent;
    let (lent, second) = match call.checked_sub(LEND)? {
        0 => (Lengths { record: x, ..lent }, run.second),
        1 => (Lengths { side: x, ..lent }, run.second),
        2 => (Lengths { list: x, ..lent }, run.second),
        3 => (Lengths { panes: x, ..lent }, run.second),
        4 => (Lengths { spans: x, ..lent }, run.second),
        5 => (lent, x == 1),
        _ => return None,
    };
    Some(Run {
        lent,
        second,
        ..run
    })
}

// The call that these words start with, if it is as stored.
fn called(run: Run, calls: &[u8], ground: Ground, sizes: Lengths) -> Option<Run> {
    let call = word(calls, 0);
    if call < TELL {
        return stepped(run, call, ground, sizes);
    }
    if call == TELL {
        let walker = run.walker.tell(real(calls, 1));
        return Some(Run { walker, ..run });
    }
    lends(run, call, word(calls, 1) as usize)
}

// The walker after all of the calls, if each is as stored.
pub fn last_walker(
    first: Run,
    calls: &[u8],
    ground: Ground,
    sizes: Lengths,
) -> Option<TimedWalker> {
    let last = all_called(first, calls, |run, calls| called(run, calls, ground, sizes))?;
    Some(last.walker)
}
