// A walker's calls: steps, tellings, and how much of the lists is lent.
use stored::{real, word};
use stored_answers::{TELL, all_called, same_answer, same_done, same_walker};
use traverse::{Answer, Walker};

// Calls whose next word is lent from there on: the number of positions, or the bytes of the record.
const POSITIONS: u32 = 0xc020_0000;

const BYTES: u32 = 0xc030_0000;

// A walker under way with what it is lent.
#[derive(Clone, Copy)]
pub struct Run {
    pub walker: Walker,
    pub bytes: usize,
    pub n: usize,
}

// Whether a step on so many bytes was as stored: a refused one also gives back the walker that it took.
fn same_step(answer: Answer, call: u32, bytes: usize, before: Walker, after: Walker) -> bool {
    same_answer(call, answer)
        && match answer {
            Answer::Refused(_) => same_walker(before, after),
            Answer::Done => same_done(bytes, before, after),
            _ => true,
        }
}

// A step on the bytes lent, if it is as stored.
fn stepped(run: Run, call: u32, record: &[u8]) -> Option<Run> {
    let lent = record.get(..run.bytes)?;
    let s = run.walker.step(lent, run.n);
    let walker = s.walker;
    same_step(s.answer, call, run.bytes, run.walker, walker).then_some(Run { walker, ..run })
}

// The call that these words start with, if it is as stored.
fn called(run: Run, calls: &[u8], record: &[u8]) -> Option<Run> {
    let call = word(calls, 0);
    let lent = word(calls, 1) as usize;
    match call {
        TELL => {
            let walker = run.walker.tell(real(calls, 1));
            Some(Run { walker, ..run })
        }
        POSITIONS => Some(Run { n: lent, ..run }),
        BYTES => Some(Run { bytes: lent, ..run }),
        _ => stepped(run, call, record),
    }
}

// The walker after all of the calls, if each is as stored.
pub fn last_walker(first: Run, calls: &[u8], record: &[u8]) -> Option<Walker> {
    let last = all_called(first, calls, |run, calls| called(run, calls, record))?;
    Some(last.walker)
}
