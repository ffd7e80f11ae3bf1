// Internal: binary trees of boxes (bvh2/mod.rs).
#![tactic(auto)]

ghost use Rattle.std.specs.Prelude.{◌≡◌, ◌+◌, ◌*◌, ◌<◌, length};
ghost use Rattle.bvh2.specs.Words.{tree_nodes, float_at, box_at, link_of, link_at};
ghost use Rattle.bvh2.specs.Causes.{TreeSized};
ghost use Rattle.bvh2.specs.Said.{said};

use aabb::Aabb;
use ray::Vec3;

// The most leaves of a tree.
pub const MAX_LEAVES: usize = 65536;

// The words of a tree, and how many leaves it has: seven words to each node, and at most 65,536 leaves.
#[derive(Clone, Copy, Debug)]
pub struct Bvh2<'a> {
    pub words: &'a [u32],
    pub leaves: usize,
    pub ghost sized: { TreeSized words.now leaves },
}

impl<'a> Bvh2<'a> {
    // How many nodes it has.
    pub fn nodes(self) -> usize
        ensures { result ≡ tree_nodes self.entry.leaves }
    {
        (2 * self.leaves).saturating_sub(1)
    }
}

// Nodes are words, and children are numbers of nodes, as the requirements give a tree: there is no heap. `words` and `v` stay two, which the
// definitions' sums are made of.

// Coordinate i of node v's box.
fn coordinate(words: &[u32], v: usize, i: usize) -> f32
    requires { v * 7 + i < length words.now }
    ensures { result ≡ float_at words.now v i }
{
    float::of_bits(words[v * 7 + i])
}

// The corner of node v's box whose coordinates stand from word i on.
fn corner(words: &[u32], v: usize, i: usize) -> Vec3
    requires { v * 7 + i + 2 < length words.now }
    ensures { result ≡ record { x = float_at words.now v i; y = float_at words.now v (i + 1); z = float_at words.now v (i + 2) } }
{
    Vec3 {
        x: coordinate(words, v, i),
        y: coordinate(words, v, i + 1),
        z: coordinate(words, v, i + 2),
    }
}

// The box of node v.
pub fn node_box(words: &[u32], v: usize) -> Aabb
    requires { v * 7 + 6 < length words.now }
    ensures { result ≡ box_at words.now v }
{
    Aabb {
        min: corner(words, v, 0),
        max: corner(words, v, 3),
    }
}

// What a link word says, by the kind in its two high bits: where a pair of children begins, which position a leaf holds, or nothing that a tree says.
// The three cases are the definition's: a malformed word is one of them, and no error of the one that reads it.
#[derive(Clone, Copy, Debug, PartialEq, Eq)]
pub enum Link {
    Children(usize),
    Position(usize),
    Malformed,
}

impl From<u32> for Link {
    ghost from_gives = { λ word link. said link ≡ link_of word };

    // What a word says.
    fn from(word: u32) -> Link {
        let rest = words::below_kind(word) as usize;
        match words::kind(word) {
            0 => Link::Children(rest),
            1 => Link::Position(rest),
            _ => Link::Malformed,
        }
    }
}

// What node v's link word says.
pub fn node_link(words: &[u32], v: usize) -> Link
    requires { v * 7 + 6 < length words.now }
    ensures { said result ≡ link_at words.now v }
{
    Link::from(words[v * 7 + 6])
}
