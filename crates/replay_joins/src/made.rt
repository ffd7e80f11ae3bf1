// Trees that are made by a rule and not stored: the least and the greatest ends of node v are counted from -3v and 3v on in the least float, its
// children are nodes 2v + 1 and 2v + 2, and the last nodes are the leaves.
ghost use Rattle.std.specs.Prelude.{◌≤◌};

use stored::word;

// The most words of a tree.
const MOST_WORDS: usize = 1048576;

// The sign of a float.
const SIGN: u32 = 0x8000_0000;

// Word c of node v in a tree of n leaves.
fn node_word(n: usize, v: usize, c: usize) -> u32
    requires { (v ≤ 1048576) × (c ≤ 6) }
{
    match c {
        0..3 => SIGN + (3 * v + c) as u32,
        3..6 => (3 * v + c - 3) as u32,
        _ if v + 1 < n => (2 * v + 1) as u32,
        _ => words::KIND + (v + 1 - n) as u32,
    }
}

// Word i of a tree of n leaves, whose root stands in a case from word `root` on.
fn tree_word(case: &[u8], root: usize, n: usize, i: usize) -> u32
    requires { (root ≤ 65536) × (i ≤ 1048576) }
{
    if i < 7 {
        word(case, root + i)
    } else {
        node_word(n, i / 7, i % 7)
    }
}

// Makes words of such a tree.
pub fn put_tree(case: &[u8], root: usize, n: usize, words: &mut [u32])
    requires { root ≤ 65536 }
{
    if words.len() > MOST_WORDS {
        return;
    }
    for i in 0..words.len() {
        words[i] = tree_word(case, root, n, i);
    }
}

// Makes index words: 2, 7, 12 and so on.
pub fn put_indices(indices: &mut [u32]) {
    if indices.len() > MOST_WORDS {
        return;
    }
    for p in 0..indices.len() {
        indices[p] = 5 * p as u32 + 2;
    }
}
