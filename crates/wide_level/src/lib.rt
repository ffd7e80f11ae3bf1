// Internal: the deepest level of the wide tree that a binary tree becomes, found by the decisions of its cost tables before anything is written.
#![tactic(auto)]

ghost use Rattle.std.specs.Prelude.{◌≡◌, Bool, ℕ, ◌≤◌};
ghost use Rattle.bvh2.specs.Tree.{depth};
ghost use Rattle.children.specs.Branches.{subtree_of, DecidedBy};
ghost use Rattle.wide_layout.specs.Layout.{level};
ghost use Rattle.wide_tree.specs.Ordered.{wide_tree};
ghost use Rattle.wide_level.specs.Levels.{added};

use bvh2::Link;
use children::Branch;
use cost::Kind;

// How many levels a branch adds at an entry below the wide node above it: none as a leaf child, and else those below its two children, with one more
// where it is an inner child.
fn added_levels(branch: Branch<'_>, entry: usize) -> u32
    requires { entry ≤ 6 }
    ensures upper_bound { result ≤ depth (subtree_of branch.entry) }
    ensures by_index { (limit : ℕ) → DecidedBy limit branch.entry → result ≡ added limit (subtree_of branch.entry) entry }
{
    let decision = branch.decision(entry);
    let own = match decision.kind {
        Kind::Leaf => return 0,
        Kind::Internal => 1,
        Kind::Distribute => 0,
    };
    let Link::Children(first) = branch.link() else {
        unreachable!()
    };
    let in_first = added_levels(branch.left(first), decision.left);
    let in_second = added_levels(branch.right(first), decision.right);
    let below = in_first.max(in_second);
    below + own
}

// The deepest level of the wide tree that a branch becomes: how many levels lie below its first node. The root is opened whatever its own decision
// says.
pub fn deepest_level(root: Branch<'_>) -> u32
    ensures { (limit : ℕ) (ordered : Bool) → DecidedBy limit root.entry → result
        ≡ level (wide_tree ordered limit (subtree_of root.entry)) }
{
    match root.link() {
        Link::Children(first) => {
            let decision = root.decision(0);
            let in_first = added_levels(root.left(first), decision.left);
            let in_second = added_levels(root.right(first), decision.right);
            in_first.max(in_second)
        }
        Link::Position(_) => 0,
        Link::Malformed => unreachable!(),
    }
}
