// The input of `checkrecord`, read to its end, whatever its length.
ghost use Rattle.std.specs.Prelude.{◌≡◌, ◌+◌, ◌≤◌, ◌<◌, length, take, IfOk, IfSome};
ghost use Rattle.std.specs.Io.{ReadsAtMost};
ghost use Rattle.std.specs.Io.KnownBytes.{Consumes, IsAtEnd};
ghost use Rattle.lists.specs.Splice.{splice};
ghost use Rattle.check_text.specs.CheckText.{check_text};
ghost use Rattle.check_text.specs.Held.{longest, held_length, StandsFor};

use std::io;
use std::io::{Error, ErrorKind, Read};

// The word n and 65,535 nodes.
const LONGEST: usize = 5242804;

// 80 bytes more, which stand for all that is longer.
const MOST_BYTES: usize = 5242884;

// A word for each of 65,535 nodes and 65,536 positions.
const MOST_WORDS: usize = 131071;

// The most reads past MOST_BYTES: more than any machine lives to make.
const MOST_READS: u64 = 0xffff_ffff_ffff_ffff;

// The length that stands for so many bytes and more behind them.
fn held_length(held: usize, more: usize) -> usize
    requires { (held ≤ longest + 80) × (more ≤ 65536) }
    ensures { result ≡ held_length (held + more) }
{
    let long = held + more;
    if long <= LONGEST {
        return long;
    }
    LONGEST + 1 + (long - (LONGEST + 1)) % node::BYTES
}

// Reads until a buffer is full or the input ends, and answers how many bytes it put at the buffer's start.
pub fn read_full<R: Read>(input: &mut R, bytes: &mut [u8]) -> io::Result<usize>
    ensures prefix { ReadsAtMost result bytes.new }
    ensures taken { IfOk result (λ n. Consumes (R.remaining input.old) (R.remaining input.new) (take n bytes.new)) }
    ensures end { IfOk result (λ n. n < length bytes.new → IsAtEnd (R.remaining input.new)) }
{
    let mut held = 0;
    // not a `for`: how far it goes on is what a read says
    while held < bytes.len() {
        let more = input.read(&mut bytes[held..])?;
        if more == 0 {
            break;
        }
        held += more;
    }
    Ok(held)
}

// Reads the input to its end, keeps its first bytes, and answers the length that stands for its own. What can't be read whole is no whole record: a
// read that fails is an error.
fn read_input<R: Read>(input: &mut R, bytes: &mut [u8]) -> io::Result<usize>
    requires { longest + 80 ≡ length bytes.old }
    ensures prefix { ReadsAtMost result bytes.new }
    ensures held { IfOk result (λ n. IfSome (R.remaining input.old) (λ all. StandsFor all (take n bytes.new))) }
{
    let mut held = read_full(input, bytes)?;
    if held < bytes.len() {
        return Ok(held);
    }
    let mut space = [0u8; 65536];
    for _ in 0..MOST_READS {
        let more = read_full(input, &mut space)?;
        if more == 0 {
            return Ok(held);
        }
        held = held_length(held, more);
    }
    Err(Error::from(ErrorKind::FileTooLarge))
}

// Room for what is kept of the input.
fn room() -> [u8; MOST_BYTES]
    ensures { longest + 80 ≡ length result }
{
    [0u8; MOST_BYTES]
}

// Reads the input to its end, and writes the line that answers it; an error where a read fails.
pub fn answer<R: Read>(input: &mut R, line: &mut [u8]) -> io::Result<usize>
    requires { 19 ≤ length line.old }
    ensures prefix { ReadsAtMost result line.new }
    ensures text { IfOk result (λ n. IfSome (R.remaining input.old)
        (λ all. (n ≡ length (check_text all)) × (line.new ≡ splice line.old 0 (check_text all)))) }
{
    let mut bytes = room();
    let held = read_input(input, &mut bytes)?;
    let mut words = [0u32; MOST_WORDS];
    Ok(super::check_text(&bytes[..held], &mut words, line))
}
