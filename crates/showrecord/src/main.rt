// showrecord: reads little-endian words from standard input, n, leaf limit, order, the words of a tree of n leaves and n index words, and prints the
// tree's record, a line a node, and its index list, or `refused NUMBER`. It reads one byte further than the longest input that is taken.
#![tactic(auto)]

use std::io;

// The most leaves.
const MOST_LEAVES: usize = 256;

// Seven words for each of 511 tree nodes.
const MOST_WORDS: usize = 3577;

// One byte more than 12 and four for each of 3,577 words and 256 indices.
const MOST_BYTES: usize = 15345;

// The record of 255 nodes.
const MOST_RECORD: usize = 20400;

// 255 lines of at most 167 characters, and a line of 256 indices of at most 11.
const MOST_TEXT: usize = 45409;

// Answers these bytes.
fn answer(rt: &impl Print, bytes: &[u8]) -> io::Result<()> {
    let mut words = [0u32; MOST_WORDS];
    let mut indices = [0u32; MOST_LEAVES];
    let mut decisions = [0u32; MOST_WORDS];
    let mut costs = [0.0f32; MOST_WORDS];
    let mut record = [0u8; MOST_RECORD];
    let mut list = [0u32; MOST_LEAVES];
    let mut text = [0u8; MOST_TEXT];
    let long = show_text::show_text(
        bytes,
        &mut words,
        &mut indices,
        &mut decisions,
        &mut costs,
        &mut record,
        &mut list,
        &mut text,
    );
    rt.write_all(&text[..long])
}

fn main(rt: HostRuntime) -> io::Result<()> {
    let mut bytes = [0u8; MOST_BYTES];
    let got = check_text::read_full(&mut rt.stdin(), &mut bytes)?;
    answer(&rt, &bytes[..got])
}
