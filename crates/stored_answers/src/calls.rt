// A walker's calls: words that say what the next step does, that a distance is told, or what is lent from there on.
ghost use Rattle.std.specs.Prelude.{◌≤◌};

use stored::{behind, word};
use traverse::Answer;

// The first of the calls that are no steps: that the next word is a distance told. Those above say what the next word is lent of.
// They are numbers, as the files have them: an enum would be made of a word only to be matched at once.
pub const TELL: u32 = 0xc010_0000;

// A tag with a number below 2^20 added; no stored step is all ones.
fn tagged(tag: u32, x: u32) -> u32
    requires { tag ≤ 3221225472 }
{
    if x < 0x10_0000 { tag + x } else { 0xffff_ffff }
}

// A step's stored word.
fn step_word(answer: Answer) -> u32 {
    match answer {
        Answer::Tested(_) => 0,
        Answer::Position(p) => tagged(0x4000_0000, p),
        Answer::Done => 0x8000_0000,
        Answer::Refused(refusal) => tagged(0xc000_0000, u32::from(refusal)),
    }
}

// Whether a step's word says this answer.
pub fn same_answer(call: u32, answer: Answer) -> bool {
    step_word(answer) == call
}

// How many words a call has.
fn width(call: u32) -> usize
    ensures { (1 ≤ result) × (result ≤ 2) }
{
    if call < TELL { 1 } else { 2 }
}

// What is under way after all of the calls, if each is as stored; `called` is handed the words from a call on. A call has one word or two, so the
// place goes on by its width.
pub fn all_called<R: Copy, F: Fn(R, &[u8]) -> Option<R>>(
    first: R,
    calls: &[u8],
    called: F,
) -> Option<R>
    requires { F.IsAlwaysCallable called }
{
    let count = calls.len() / 4;
    let mut run = first;
    let mut at = 0;
    while at < count {
        if at > 65536 {
            return None;
        }
        let rest = behind(calls, at);
        run = called(run, rest)?;
        at += width(word(rest, 0));
    }
    Some(run)
}
