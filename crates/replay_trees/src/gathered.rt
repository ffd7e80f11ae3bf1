// The stored cases of children: for each leaf limit and each node of a tree, what it opens into, gathered, by slots and in the order seated.
ghost use Rattle.std.specs.Prelude.{◌<◌, ◌≤◌};

use crate::trees::{MOST_WORDS, accepted, node_count};
use aabb::Aabb;
use bvh2::Link;
use bvh2_check::AcceptedBvh2;
use children::{Branch, Bvh2Slices};
use stored::{behind, copy_words, word};

// A node number as the byte that stands for it in a case, 255 for none; a greater number has no byte.
fn code(number: u32) -> Option<u8> {
    match number {
        0xffff_ffff => Some(255),
        0..255 => Some(number as u8),
        _ => None,
    }
}

// Whether the eight bytes from word `at` on are these numbers.
fn same_numbers(case: &[u8], at: usize, numbers: [u32; 8]) -> bool
    requires { at ≤ 1000004 }
{
    match case.get(at * 4..at * 4 + 8) {
        Some(bytes) => numbers
            .iter()
            .zip(bytes)
            .all(|(number, byte)| code(*number) == Some(*byte)),
        None => false,
    }
}

// The box of a node, or the other one where there is no such node.
fn box_or(words: &[u32], number: u32, other: Aabb) -> Aabb {
    let v = number as usize;
    if v < words.len() / 7 {
        bvh2::node_box(words, v)
    } else {
        other
    }
}

// Whether the children found, an array with a count as they are gathered, stand, ordered, in the slots that are stored from word `at` on, and are
// seated in the order stored behind them, by so many searches.
fn same_seating(
    case: &[u8],
    at: usize,
    words: &[u32],
    parent: Aabb,
    found: [u32; 8],
    count: usize,
    rounds: usize,
) -> bool
    requires { at ≤ 1000002 }
{
    let boxes = found.map(|number| box_or(words, number, parent));
    let seating = order::seat_children(true, parent, boxes, found, count);
    same_numbers(case, at, order::order_children(parent, boxes, found, count))
        && same_numbers(case, at, seating.slots)
        && same_numbers(case, at + 2, seating.seated)
        && seating.count == count
        && seating.rounds == rounds
}

// Whether a branch's node opens into what is stored from word `at` on: how many children, with 256 times the searches that seat them; these in
// gathered order, by slots, and in the order seated.
fn same_children(case: &[u8], at: usize, branch: Branch<'_>) -> bool
    requires { at < 1000000 }
{
    let mut found = [0xffff_ffffu32; 8];
    let count = children::get_children(branch, &mut found);
    let parent = branch.node_box();
    let told = word(case, at) as usize;
    count == told % 256
        && same_numbers(case, at + 1, found)
        && same_seating(
            case,
            at + 3,
            branch.tree.words,
            parent,
            found,
            count,
            told / 256,
        )
}

// The same for a branch's node and every node below it, seven words for each from word `from` on.
fn same_below(case: &[u8], from: usize, branch: Branch<'_>) -> bool
    requires { from ≤ 65536 }
{
    if !same_children(case, from + branch.node * 7, branch) {
        return false;
    }
    let Link::Children(first) = branch.link() else {
        return true;
    };
    same_below(case, from, branch.left(first)) && same_below(case, from, branch.right(first))
}

// The same for every node of a tree, by its tables for a leaf limit.
fn same_tree(case: &[u8], from: usize, accepted: AcceptedBvh2, limit: u32) -> bool
    requires { (from ≤ 65536) × (0 < accepted.tree.leaves) }
{
    let words = accepted.tree.words;
    if words.len() > MOST_WORDS {
        return false;
    }
    let mut decisions = [0xffff_ffffu32; MOST_WORDS];
    let mut costs = [1f32; MOST_WORDS];
    cost::calculate_cost(words, 0, 127, limit, &mut decisions, &mut costs);
    let tree = Bvh2Slices {
        words,
        decisions: &decisions,
    };
    let root = Branch {
        tree: &tree,
        node: 0,
    };
    same_below(case, from, root)
}

// The same for the leaf limits 0 to 3, `size` words for each from word `from` on.
fn same_limits(case: &[u8], from: usize, size: usize, accepted: AcceptedBvh2) -> bool
    requires { (from ≤ 2048) × (size ≤ 2048) × (0 < accepted.tree.leaves) }
{
    (0..4u32).all(|limit| same_tree(case, from + limit as usize * size, accepted, limit))
}

// Leaves; node words; for each limit and each node the children.
pub fn children(case: &[u8]) -> bool {
    let n = word(case, 0) as usize;
    if n == 0 || n > 128 {
        return false;
    }
    let nodes = node_count(n);
    if case.len() / 4 != 1 + 35 * nodes {
        return false;
    }
    let mut space = [0u32; MOST_WORDS];
    let words: &mut [u32] = &mut space[..nodes * 7];
    copy_words(behind(case, 1), words);
    match accepted(words, n) {
        Some(tree) => same_limits(case, 1 + nodes * 7, nodes * 7, tree),
        None => false,
    }
}
