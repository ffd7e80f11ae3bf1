// Internal: the children of a wide node, gathered from a binary tree by the decisions of its cost tables (bvh2_to_cwbvh.rs, get_children).
#![tactic(auto)]

ghost use Rattle.std.specs.Prelude.{◌≡◌, ℕ, ◌≤◌, length};
ghost use Rattle.bvh2.specs.Words.{children, link_at};
ghost use Rattle.children.specs.Gather.{gather, part};
ghost use Rattle.children.specs.Tabled.{Gathered};
ghost use Rattle.children.specs.Branches.{words_of, subtree_of, DecidedBy, Room};

use bvh2::Link;
use cost::Kind;

mod branch;

pub use branch::{Branch, Bvh2Slices};

// Writes what a branch contributes at an entry behind `count` children: its node, or where the decision is DISTRIBUTE, what that opens into.
// Returns the count after them. The children are a slice with a count, since there is no heap.
#[cycle(open_child_open_node)]
fn open_child(branch: Branch<'_>, entry: usize, found: &mut [u32], count: usize) -> usize
    requires in_bounds { 8 ≤ length found.old }
    requires bound { entry ≤ 6 }
    requires room { ∥ Room branch count (λ limit. part limit (subtree_of branch) entry) ∥₁ }
    ensures { (limit : ℕ) → DecidedBy limit branch.entry
        → Gathered (part limit (subtree_of branch.entry) entry) count found.old found.new result }
{
    match branch.decision(entry).kind {
        Kind::Distribute => {
            let Link::Children(first) = branch.link() else {
                unreachable!()
            };
            open_node(branch, first, entry, found, count)
        }
        _ => {
            found[count] = branch.node as u32;
            count + 1
        }
    }
}

// Writes what a branch whose node has the children `first` and the one after it opens into at an entry behind `count` children: what these two
// contribute, each at the entry that the decision says. Returns the count after them.
// `first` is what `link` said of the node, here and in `Branch::left` and `right`: a type for both would be taken apart by each.
#[cycle(open_child_open_node)]
fn open_node(
    branch: Branch<'_>,
    first: usize,
    entry: usize,
    found: &mut [u32],
    count: usize,
) -> usize
    requires in_bounds { 8 ≤ length found.old }
    requires inner { children first ≡ link_at (words_of branch) branch.node }
    requires bound { entry ≤ 6 }
    requires room { ∥ Room branch count (λ limit. gather limit (subtree_of branch) entry) ∥₁ }
    ensures { (limit : ℕ) → DecidedBy limit branch.entry
        → Gathered (gather limit (subtree_of branch.entry) entry) count found.old found.new result }
{
    let decision = branch.decision(entry);
    let left = branch.left(first);
    let half = open_child(left, decision.left, found, count);
    open_child(branch.right(first), decision.right, found, half)
}

// Writes the numbers of the children of the wide node that a branch's node becomes, in gathered order from place 0 on, and returns how many there
// are. The node is opened whatever its own decision says; a leaf's one child is itself.
pub fn get_children(branch: Branch<'_>, found: &mut [u32]) -> usize
    requires { 8 ≤ length found.old }
    ensures { (limit : ℕ) → DecidedBy limit branch.entry
        → Gathered (gather limit (subtree_of branch.entry) 0) 0 found.old found.new result }
{
    match branch.link() {
        Link::Children(first) => open_node(branch, first, 0, found, 0),
        Link::Position(_) => {
            found[0] = branch.node as u32;
            1
        }
        Link::Malformed => unreachable!(),
    }
}
