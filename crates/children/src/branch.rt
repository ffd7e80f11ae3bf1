// A node of a binary tree with decision words, and the branches below it.
ghost use Rattle.std.specs.Prelude.{◌≡◌, true, ◌+◌, ◌*◌, ◌/◌, ◌%◌, ◌≤◌, get_or};
ghost use Rattle.aabb.specs.Aabb.{accepted_box};
ghost use Rattle.bvh2.specs.Said.{said};
ghost use Rattle.bvh2.specs.Words.{children, malformed, link_at, box_at};
ghost use Rattle.cost.specs.Said.{kind_said, kind_in};
ghost use Rattle.children.specs.Tabled.{most_edges, Tabled};

use aabb::Aabb;
use bvh2::Link;
use cost::Decision;

// The slices that a binary tree and its decisions are read from: its words, and its decision words.
#[derive(Clone, Copy)]
pub struct Bvh2Slices<'a> {
    pub words: &'a [u32],
    pub decisions: &'a [u32],
}

// A node of a binary tree whose decision words are given: the subtree that it begins. Two words, so that it goes in registers.
#[derive(Clone, Copy)]
pub struct Branch<'a> {
    pub tree: &'a Bvh2Slices<'a>,
    pub node: usize,
    pub ghost tabled: { ∥ Tabled tree.now.words.now tree.now.decisions.now most_edges node ∥₁ },
}

// A branch of a branch is written field by field, since a struct with ghost fields takes no `..base`; left and right are two methods, as a tree has
// both: a parameter that says which would be no plainer.
impl<'a> Branch<'a> {
    ghost use Rattle.children.specs.Branches.{words_of, decisions_of, BranchAt};

    // Its node's box, an accepted one.
    pub fn node_box(self) -> Aabb
        ensures value { result ≡ box_at (words_of self.entry) self.entry.node }
        ensures accepted { accepted_box result ≡ true }
    {
        bvh2::node_box(self.tree.words, self.node)
    }

    // What its node's link word says, which is well formed.
    pub fn link(self) -> Link
        ensures says { said result ≡ link_at (words_of self.entry) self.entry.node }
        ensures formed { malformed ≡ link_at (words_of self.entry) self.entry.node → ⊥ }
    {
        bvh2::node_link(self.tree.words, self.node)
    }

    // Its node's decision at an entry, whose splits are entries again. An entry is a number up to 6, which indexes a row of seven: a type of its own
    // would be no plainer, since every use takes the number out of it.
    pub fn decision(self, entry: usize) -> Decision
        requires { entry ≤ 6 }
        ensures kind { kind_said result.kind ≡ kind_in (get_or (decisions_of self.entry) (self.entry.node * 7 + entry) 0) }
        ensures left { result.left ≡ get_or (decisions_of self.entry) (self.entry.node * 7 + entry) 0 / 256 % 256 }
        ensures right { result.right ≡ get_or (decisions_of self.entry) (self.entry.node * 7 + entry) 0 % 256 }
        ensures few { result.left + result.right ≤ 6 }
    {
        cost::decision_at(self.tree.decisions, self.node, entry)
    }

    // The branch of its left child, which is the node `first`.
    pub fn left(self, first: usize) -> Branch<'a>
        requires { children first ≡ link_at (words_of self) self.node }
        ensures { BranchAt self.entry first result }
    {
        Branch {
            tree: self.tree,
            node: first,
        }
    }

    // The branch of its right child, which is the node after `first`.
    pub fn right(self, first: usize) -> Branch<'a>
        requires { children first ≡ link_at (words_of self) self.node }
        ensures { BranchAt self.entry (first + 1) result }
    {
        Branch {
            tree: self.tree,
            node: first + 1,
        }
    }
}
