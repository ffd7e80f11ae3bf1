// Internal: the work of the program `checkrecord`, from the input that it reads to the bytes that it prints.
#![tactic(auto)]

mod input;

ghost use Rattle.std.specs.Prelude.{◌≡◌, ◌≤◌, length};
ghost use Rattle.lists.specs.Splice.{splice};
ghost use Rattle.validate.specs.Validity.{verdict_of};
ghost use Rattle.check_text.specs.CheckText.{all_words, answer_text, check_text};

use causes::Refusal;
pub use input::{answer, read_full};

// Writes an answer.
#[tactic(auto, unfolding(crate::specs::CheckText::answer_text, validate::specs::Validity::verdict_of))]
fn put_answer(verdict: Result<Option<u32>, Refusal>, out: &mut [u8]) -> usize
    requires { 19 ≤ length out.old }
    ensures value { result ≡ length (answer_text (verdict_of verdict)) }
    ensures out_after { out.new ≡ splice out.old 0 (answer_text (verdict_of verdict)) }
{
    match verdict {
        Ok(Some(level)) => show::print_sound(level, out),
        Ok(None) => show::print_unsound(out),
        Err(refusal) => show::print_refusal(refusal, out),
    }
}

// Checks the record behind the word n of the input, and writes the answer; the working words are enough for any record.
fn check_text(input: &[u8], work: &mut [u32], out: &mut [u8]) -> usize
    requires { (all_words ≤ length work.old) × (19 ≤ length out.old) }
    ensures value { result ≡ length (check_text input.now) }
    ensures out_after { out.new ≡ splice out.old 0 (check_text input.now) }
{
    if input.len() < 4 {
        return show::print_refusal(Refusal::LengthUnfit, out);
    }
    let n = words::load_u32(input, 0);
    let verdict = validate::validate(&input[4..], n as usize, work);
    put_answer(verdict, out)
}
