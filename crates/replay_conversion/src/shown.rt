// The stored cases of showrecord: the bytes that it reads, and those that it prints.
use stored::{BYTE, COST, WORD, behind, word, written_bytes};

// The most leaves that it takes, the words of their tree, the bytes of their record, and the characters of the text.
const SHOWN_LEAVES: usize = 256;

const SHOWN_WORDS: usize = 3577;

const SHOWN_BYTES: usize = 20400;

const SHOWN_TEXT: usize = 45409;

// Whether the text for an input is the stored one of so many bytes, and what is past it as it was lent.
fn same_text(input: &[u8], stored: &[u8], printed: usize) -> bool {
    let mut words = [WORD; SHOWN_WORDS];
    let mut indices = [WORD; SHOWN_LEAVES];
    let mut decisions = [WORD; SHOWN_WORDS];
    let mut costs = [COST; SHOWN_WORDS];
    let mut record = [BYTE; SHOWN_BYTES];
    let mut list = [WORD; SHOWN_LEAVES];
    let mut text = [BYTE; SHOWN_TEXT];
    let end = show_text::show_text(
        input,
        &mut words,
        &mut indices,
        &mut decisions,
        &mut costs,
        &mut record,
        &mut list,
        &mut text,
    );
    end == printed && written_bytes(stored, &text, printed)
}

// Bytes of input, bytes of output; input, output, each filled up to whole words.
pub fn shown(case: &[u8]) -> bool {
    let read = word(case, 0) as usize;
    let printed = word(case, 1) as usize;
    let from = 2 + (read + 3) / 4;
    if case.len() / 4 != from + (printed + 3) / 4 {
        return false;
    }
    match behind(case, 2).get(..read) {
        Some(input) => same_text(input, behind(case, from), printed),
        None => false,
    }
}
