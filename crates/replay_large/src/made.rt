// Trees that are made by a rule and not stored: a row of boxes along x with whole numbers as ends, which reach from a middle on the y and z axes.
ghost use Rattle.std.specs.Prelude.{◌<◌, ◌≤◌};

use stored::{OneWord, word};

// The most leaves of a tree.
const MOST_LEAVES: u32 = 20000;

// The middle on y and z: a ray along x there meets every box.
const MIDDLE: u32 = 4096;

// The rule of a tree: how many leaves it has, what their ends are mixed from, and how far these reach from the middle at most.
#[derive(Clone, Copy)]
pub struct Rule {
    n: u32,
    seed: u32,
    reach: u32,
    ghost planted: { (0 < n) × (n ≤ 20000) },
    ghost reaching: { (0 < reach) × (reach < 4096) },
}

// ---- the ends of leaves

// 20 bits of a seed and a number.
fn mixed(seed: u32, k: u32) -> u32
    ensures { result < 1048576 }
{
    let a = (u64::from(k) * 2654435761 + u64::from(seed)) % 0x1_0000_0000;
    let b = (a / 32768 + a * 2246822519) % 0x1_0000_0000;
    (b / 4096) as u32
}

// Number c of leaf k, below `most`.
fn some(seed: u32, k: u32, c: u32, most: u32) -> u32
    requires { (k ≤ 65536) × (c < 8) × (0 < most) }
    ensures { result < most }
{
    mixed(seed, 8 * k + c) % most
}

// ---- nodes

// Places are bounded in what is asked, so that their sums stay numbers of 64 bits.

// Word i, and 0 past the end.
fn at(words: &[u32], i: usize) -> u32 {
    words.get(i).copied().unwrap_or(0)
}

fn put(words: &mut [u32], i: usize, x: u32) {
    if let Some(word) = words.get_mut(i) {
        *word = x;
    }
}

// Writes six ends from word `to` on.
fn put_ends(words: &mut [u32], to: usize, ends: [u32; 6])
    requires { to ≤ 1048576 }
{
    for i in 0..6 {
        put(words, to + i, ends[i]);
    }
}

// Node v with these ends, as whole numbers, and this link.
fn put_node(words: &mut [u32], v: usize, ends: [u32; 6], link: u32)
    requires { v ≤ 131072 }
{
    let to = v * 7;
    put_ends(words, to, ends);
    put(words, to + 6, link);
}

// The ends of two nodes together, whose words start at a and b.
fn union(words: &[u32], a: usize, b: usize) -> [u32; 6]
    requires { (a ≤ 1048576) × (b ≤ 1048576) }
{
    let x = at(words, a).min(at(words, b));
    let y = at(words, a + 1).min(at(words, b + 1));
    let z = at(words, a + 2).min(at(words, b + 2));
    let high_x = at(words, a + 3).max(at(words, b + 3));
    let high_y = at(words, a + 4).max(at(words, b + 4));
    let high_z = at(words, a + 5).max(at(words, b + 5));
    [x, y, z, high_x, high_y, high_z]
}

// The first nodes, `count` of them, the last first: node v stands above nodes 2v + 1 and 2v + 2.
fn put_inners(words: &mut [u32], count: usize)
    requires { count ≤ 65536 }
{
    for v in (0..count).rev() {
        let first = 2 * v + 1;
        let ends = union(words, first * 7, first * 7 + 7);
        put_node(words, v, ends, first as u32);
    }
}

// ---- floats

// A whole number as a float.
fn real(x: u32) -> f32 {
    std::num::nearest_u32_to_f32(x)
}

// Turns the six ends of a node, from word v on, into patterns of floats.
fn turn_ends(words: &mut [u32], v: usize)
    requires { v ≤ 1048576 }
{
    for i in v..v + 6 {
        put(words, i, real(at(words, i)).to_word());
    }
}

// Those of every node.
fn turn_all(words: &mut [u32], count: usize)
    requires { count ≤ 131072 }
{
    for v in 0..count {
        turn_ends(words, 7 * v);
    }
}

// The panes: the boxes of the leaves, whose ends are whole numbers from word `from` on, seven words to a leaf.
fn put_panes(panes: &mut [f32], words: &[u32], from: usize)
    requires { from ≤ 1048576 }
{
    for i in 0..panes.len() {
        panes[i] = real(at(words, from + i / 6 * 7 + i % 6));
    }
}

// ---- a tree

impl Rule {
    // The rule that a case starts with, if it is one of those that trees are made by.
    pub fn of(case: &[u8]) -> Option<Rule> {
        let n = word(case, 0);
        let seed = word(case, 1);
        let reach = word(case, 2);
        if n == 0 || n > MOST_LEAVES || reach == 0 || reach > 4095 {
            return None;
        }
        Some(Rule { n, seed, reach })
    }

    // How many leaves a tree has.
    pub fn leaves(self) -> usize
        ensures { result ≤ 20000 }
    {
        self.n as usize
    }

    // How many words. Counted here, so that what is replayed is not measured by its own counting.
    pub fn words(self) -> usize
        ensures { result ≤ 279993 }
    {
        (2 * self.n as usize - 1) * 7
    }

    // How many bytes its record needs.
    pub fn bytes(self) -> usize
        ensures { result ≤ 1599920 }
    {
        if self.n == 1 {
            node::BYTES
        } else {
            node::BYTES * (self.n as usize - 1)
        }
    }

    // The least and the greatest ends of leaf k.
    fn ends_of(self, k: u32) -> [u32; 6]
        requires { k ≤ 65536 }
    {
        let x = 16 * k + some(self.seed, k, 0, 16);
        let low_y = MIDDLE - 1 - some(self.seed, k, 1, self.reach);
        let low_z = MIDDLE - 1 - some(self.seed, k, 2, self.reach);
        let high_x = x + 1 + some(self.seed, k, 3, 64);
        let high_y = MIDDLE + 1 + some(self.seed, k, 4, self.reach);
        let high_z = MIDDLE + 1 + some(self.seed, k, 5, self.reach);
        [x, low_y, low_z, high_x, high_y, high_z]
    }

    // The nodes of the leaves: leaf k is node n - 1 + k, and holds position n - 1 - k.
    fn put_leaves(self, words: &mut [u32]) {
        for k in 0..self.n {
            let v = (self.n - 1 + k) as usize;
            let link = words::KIND + (self.n - 1 - k);
            put_node(words, v, self.ends_of(k), link);
        }
    }

    // The index words: 7 p modulo n at position p.
    fn put_indices(self, indices: &mut [u32]) {
        if indices.len() > 65536 {
            return;
        }
        for p in 0..indices.len() {
            indices[p] = 7 * p as u32 % self.n;
        }
    }

    // The span of pane k: a first quarter that rises with the pane, to 79 at most and then from the start again, and a last one up to 16 later.
    fn span_of(self, k: u32) -> [u8; 2]
        requires { k ≤ 65536 }
    {
        let first = k / 16 % 64 + some(self.seed, k, 6, 17);
        let last = first + some(self.seed, k, 7, 17);
        [first as u8, last as u8]
    }

    // The spans of the panes, two bytes to each.
    pub fn put_spans(self, spans: &mut [u8]) {
        if spans.len() > 65536 {
            return;
        }
        for i in 0..spans.len() {
            spans[i] = self.span_of((i / 2) as u32)[i % 2];
        }
    }

    // Makes the words of a tree, its index words, and its panes.
    pub fn put_tree(self, words: &mut [u32], indices: &mut [u32], panes: &mut [f32]) {
        self.put_leaves(words);
        put_inners(words, (self.n - 1) as usize);
        put_panes(panes, words, (self.n - 1) as usize * 7);
        self.put_indices(indices);
        turn_all(words, (2 * self.n - 1) as usize);
    }
}
