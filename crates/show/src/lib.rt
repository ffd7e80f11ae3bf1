// Internal: what the programs `showrecord` and `checkrecord` read and print.
#![tactic(auto)]

ghost use Rattle.std.specs.Prelude.{◌≡◌, ◌++◌, ◌+◌, ◌*◌, ◌≤◌, length, take};
ghost use Rattle.causes.specs.Refusal.{cause_number};
ghost use Rattle.lists.specs.Splice.{splice};
ghost use Rattle.text.specs.Put.{HasRoom, Put};
ghost use Rattle.text.specs.Text.{chars, decimal};
ghost use Rattle.show.specs.Input.{input_words};
ghost use Rattle.show.specs.Show.{node_line, node_lines, spaced, indices_line, record_text, numbered_line, refusal_text, sound_text, unsound_text};

use causes::Refusal;
use text::Writer;

// Reads words from a place of the input on.
pub fn read_words(input: &[u8], from: usize, count: usize, words: &mut [u32])
    requires { (from + 4 * count ≤ length input.now) × (count ≤ length words.old) }
    ensures { words.new ≡ splice words.old 0 (input_words input.now from count) }
{
    for k in 0..count {
        words[k] = words::load_u32(input, from + 4 * k);
    }
}

// Writes the line of node i.
#[tactic(auto, using(crate::proofs::Lines::length_node), unfolding(text::specs::Text::chars))]
fn put_node(w: &mut Writer, i: u32, node: &[u8])
    requires { HasRoom w.old (node_line i node.now) }
    ensures { Put w.old (node_line i node.now) w.new }
{
    w.put_decimal(i);
    w.put_byte(b' ');
    w.put_hex(node);
    w.put_byte(b'\n');
}

// Writes the lines of m nodes.
fn put_nodes(w: &mut Writer, record: &[u8], m: usize)
    requires m_in_bounds { (80 * m ≤ length «record».now) × (m ≤ 65535) }
    requires m_in_bounds_2 { HasRoom w.old (node_lines «record».now 0 m) }
    ensures { Put w.old (node_lines «record».now 0 m) w.new }
{
    for i in 0..m {
        let start = node::BYTES * i;
        let end = start + node::BYTES;
        put_node(w, i as u32, &record[start..end]);
    }
}

// Writes an index behind a space.
#[tactic(auto, unfolding(text::specs::Text::chars))]
fn put_index(w: &mut Writer, index: u32)
    requires { HasRoom w.old (chars " " ++ decimal index) }
    ensures { Put w.old (chars " " ++ decimal index) w.new }
{
    w.put_byte(b' ');
    w.put_decimal(index);
}

// Writes indices, a space before each.
fn put_spaced(w: &mut Writer, indices: &[u32])
    requires { HasRoom w.old (spaced indices.now) }
    ensures { Put w.old (spaced indices.now) w.new }
{
    for &index in indices {
        put_index(w, index);
    }
}

// Writes the line of the index list.
#[tactic(auto, using(crate::proofs::Lines::length_indices), unfolding(text::specs::Text::chars))]
fn put_indices(w: &mut Writer, indices: &[u32])
    requires { HasRoom w.old (indices_line indices.now) }
    ensures { Put w.old (indices_line indices.now) w.new }
{
    w.put_bytes(b"indices");
    put_spaced(w, indices);
    w.put_byte(b'\n');
}

// Prints a record of m nodes and its n indices, at most 167 bytes a node and 11 an index.
pub fn print_record(record: &[u8], m: usize, indices: &[u32], n: usize, out: &mut [u8]) -> usize
    requires m_in_bounds { (80 * m ≤ length «record».now) × (m ≤ 65535) × (n ≤ length indices.now) }
    requires n_in_bounds { 167 * m + 11 * n + 8 ≤ length out.old }
    ensures value { result ≡ length (record_text «record».now m (take n indices.now)) }
    ensures out_after { out.new ≡ splice out.old 0 (record_text «record».now m (take n indices.now)) }
{
    let mut w = Writer::new(out);
    put_nodes(&mut w, record, m);
    put_indices(&mut w, &indices[..n]);
    w.written().len()
}

// Prints a word and a number.
fn print_numbered(word: &[u8], k: u32, out: &mut [u8]) -> usize
    requires { length word.now + 11 ≤ length out.old }
    ensures value { result ≡ length (numbered_line word.now k) }
    ensures out_after { out.new ≡ splice out.old 0 (numbered_line word.now k) }
{
    let mut w = Writer::new(out);
    w.put_bytes(word);
    w.put_decimal(k);
    w.put_byte(b'\n');
    w.written().len()
}

// Prints a refusal. The room asked for is that of the longest line: the buffer is the caller's, who may lend more.
pub fn print_refusal(refusal: Refusal, out: &mut [u8]) -> usize
    requires { 19 ≤ length out.old }
    ensures value { result ≡ length (refusal_text (cause_number refusal)) }
    ensures out_after { out.new ≡ splice out.old 0 (refusal_text (cause_number refusal)) }
{
    print_numbered(b"refused ", u32::from(refusal), out)
}

// Prints that a record is sound, with its deepest level.
pub fn print_sound(level: u32, out: &mut [u8]) -> usize
    requires { 17 ≤ length out.old }
    ensures value { result ≡ length (sound_text level) }
    ensures out_after { out.new ≡ splice out.old 0 (sound_text level) }
{
    print_numbered(b"sound ", level, out)
}

// Prints that a record is unsound.
pub fn print_unsound(out: &mut [u8]) -> usize
    requires { 8 ≤ length out.old }
    ensures value { result ≡ length unsound_text }
    ensures out_after { out.new ≡ splice out.old 0 unsound_text }
{
    let mut w = Writer::new(out);
    w.put_bytes(b"unsound\n");
    w.written().len()
}
