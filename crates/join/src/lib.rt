// Two trees joined under a new root. The published code joins none.
#![tactic(auto)]

ghost use Rattle.std.specs.Prelude.{◌≡◌, true, ◌++◌, map, ℕ, ◌+◌, ◌*◌, ◌-◌, ◌≤◌, ◌<◌, length, replicate, Ok, IfOk};
ghost use Rattle.lists.specs.Splice.{splice};
ghost use Rattle.causes.specs.Causes.{first_cause};
ghost use Rattle.causes.specs.Refusal.{cause_in};
ghost use Rattle.bvh2.specs.Said.{said};
ghost use Rattle.bvh2.specs.Words.{tree_nodes, link_of};
ghost use Rattle.bvh2.specs.Causes.{LinkInside};
ghost use Rattle.tree_words.specs.Nodes.{in_turn};
ghost use Rattle.join.specs.Join.{moved_link, moved_node, under_root, joined_words, joined_indices, marks_needed};
ghost use Rattle.join.specs.Join.{room_for, size_tests, tree_tests, edge_to_spare, sums_fit, join_of, joining_answer};
ghost use Rattle.join.specs.Steps.{lesser_cause};

use bvh2::{Bvh2, Link};
use bvh2_check::AcceptedBvh2;
use causes::Refusal;

// The greatest index word.
const MOST: usize = 0xffff_ffff;

// The most edges of a path that the new root's may lengthen.
const EDGES: u32 = 126;

// The kind of a link to a position, in the two high bits of its word.
const POSITION_KIND: usize = words::KIND as usize;

// The two trees of a call.
#[derive(Clone, Copy, Debug)]
struct Pair<T> {
    first: T,
    second: T,
}

// By how many nodes a tree's links to children move up, and by how many positions its leaves' links.
#[derive(Clone, Copy, Debug)]
struct Shift {
    nodes: usize,
    positions: usize,
    ghost few_nodes: { nodes ≤ 131072 },
    ghost few_positions: { positions ≤ 65536 },
}

// What both calls gave, or of two refusals that with the lesser number.
fn both<T: Copy>(a: Result<T, Refusal>, b: Result<T, Refusal>) -> Result<Pair<T>, Refusal>
    ensures value { cause_in result ≡ lesser_cause (cause_in a) (cause_in b) }
    ensures given { IfOk result (λ pair. (a ≡ Ok pair.first) × (b ≡ Ok pair.second)) }
{
    match (a, b) {
        (Ok(first), Ok(second)) => Ok(Pair { first, second }),
        (Err(first), Err(second)) => Err(first.min(second)),
        (Err(first), Ok(_)) => Err(first),
        (Ok(_), Err(second)) => Err(second),
    }
}

// Whether marks, words and indices are long enough for both trees.
#[tactic(auto, unfolding(crate::specs::Join::room_for))]
fn has_room(trees: Pair<Bvh2>, marks: usize, words: usize, indices: usize) -> bool
    ensures { result ≡ room_for trees.entry.first.leaves trees.entry.second.leaves marks words indices }
{
    let (n, m) = (trees.first.leaves, trees.second.leaves);
    (3 * n.max(m)).saturating_sub(1) <= marks
        && (2 * (n + m)).saturating_sub(1) * 7 <= words
        && n + m <= indices
}

// Both trees by causes 1, 2 and 4. It takes the arguments of `join` one by one: the trees are what it gives.
fn check_sizes<'a>(
    first: &'a [u32],
    n: usize,
    second: &'a [u32],
    m: usize,
    marks: usize,
    words: usize,
    indices: usize,
) -> Result<Pair<Bvh2<'a>>, Refusal>
    ensures value { cause_in result ≡ first_cause (size_tests (length first.now) n (length second.now) m marks words indices) }
    ensures first { IfOk result (λ trees. (trees.first.words.now ≡ first.now) × (trees.first.leaves ≡ n)) }
    ensures second { IfOk result (λ trees. (trees.second.words.now ≡ second.now) × (trees.second.leaves ≡ m)) }
{
    let trees = both(bvh2_check::sizes(first, n), bvh2_check::sizes(second, m))?;
    let many = n + m > bvh2::MAX_LEAVES;
    if many {
        return Err(Refusal::TooMany);
    }
    if !has_room(trees, marks, words, indices) {
        return Err(Refusal::SliceShort);
    }
    Ok(trees)
}

// Whether the new root's edge makes no path longer than 127.
fn edge_to_spare(trees: Pair<AcceptedBvh2>) -> bool
    ensures { let first = trees.entry.first.tree in let second = trees.entry.second.tree in result
        ≡ edge_to_spare first.words.now first.leaves second.words.now second.leaves }
{
    let (first, second) = (trees.first.tree, trees.second.tree);
    if first.leaves == 0 || second.leaves == 0 {
        return true;
    }
    bvh2_check::within_depth(first.words, 0, EDGES)
        && bvh2_check::within_depth(second.words, 0, EDGES)
}

// Both trees by causes 5 to 7; the marks needed are zero afterwards.
fn check_trees<'a>(
    trees: Pair<Bvh2<'a>>,
    marks: &mut [u32],
) -> Result<Pair<AcceptedBvh2<'a>>, Refusal>
    requires { marks_needed trees.first.leaves trees.second.leaves ≤ length marks.old }
    ensures value { let first = trees.entry.first in let second = trees.entry.second in cause_in result
        ≡ first_cause (tree_tests first.words.now first.leaves second.words.now second.leaves) }
    ensures given { IfOk result (λ accepted. (accepted.first.tree ≡ trees.entry.first) × (accepted.second.tree ≡ trees.entry.second)) }
    ensures marks_after { marks.new
        ≡ splice marks.old 0 (replicate (marks_needed trees.entry.first.leaves trees.entry.second.leaves) 0) }
{
    let a = bvh2_check::structure(trees.first, marks);
    let b = bvh2_check::structure(trees.second, marks);
    let accepted = both(a, b)?;
    if !edge_to_spare(accepted) {
        return Err(Refusal::NotOneTree);
    }
    Ok(accepted)
}

// Whether no word moved up by so much is over 32 bits.
fn sums_fit(panes: usize, list: &[u32]) -> bool
    ensures { result ≡ sums_fit panes list.now }
{
    list.iter()
        .all(|word| (*word as usize).saturating_add(panes) <= MOST)
}

// The list's words in front: moved up by nothing, since `copy_from_slice` asks the archive's user for `memmove`.
fn put_front(list: &[u32], out: &mut [u32])
    requires { length list.now ≤ length out.old }
    ensures { out.new ≡ splice out.old 0 list.now }
{
    put_moved(list, 0, out, 0);
}

// The list's words, each moved up by so much, from word `at` on.
fn put_moved(list: &[u32], by: usize, out: &mut [u32], at: usize)
    requires { (at + length list.now ≤ length out.old) × (sums_fit by list.now ≡ true) }
    ensures { out.new ≡ splice out.old at (map (λ k. k + by) list.now) }
{
    for (i, word) in list.iter().enumerate() {
        out[at + i] = (*word as usize + by) as u32;
    }
}

// The word of a link whose pair of children or whose position is moved up.
fn moved_word(link: Link, by: Shift) -> u32
    requires { LinkInside 65536 (said link) }
    ensures { (word : ℕ) → link_of word ≡ said link → result ≡ moved_link by.nodes by.positions word }
{
    match link {
        Link::Children(first) => (first + by.nodes) as u32,
        Link::Position(position) => (POSITION_KIND + position + by.positions) as u32,
        Link::Malformed => unreachable!(),
    }
}

// Node u of a tree as node v, its link moved.
fn move_node(from: AcceptedBvh2, u: usize, by: Shift, words: &mut [u32], v: usize)
    requires { (u < tree_nodes from.tree.leaves) × (v * 7 + 7 ≤ length words.old) }
    ensures { words.new ≡ splice words.old (v * 7) (moved_node from.entry.tree.words.now by.nodes by.positions u) }
{
    let link = moved_word(bvh2::node_link(from.tree.words, u), by);
    tree_words::copy_node(from.tree.words, u, words, v, link);
}

// All nodes but the root of a tree, each moved up by so many nodes, their links too.
fn move_rest(from: AcceptedBvh2, by: Shift, words: &mut [u32])
    requires { (0 < from.tree.leaves) × ((tree_nodes from.tree.leaves + by.nodes) * 7 ≤ length words.old) }
    ensures { words.new ≡ splice words.old ((1 + by.nodes) * 7)
        (in_turn (λ v. moved_node from.entry.tree.words.now by.nodes by.positions (v + 1)) (tree_nodes from.entry.tree.leaves - 1)) }
{
    for v in 1..from.tree.nodes() {
        move_node(from, v, by, words, v + by.nodes);
    }
}

// Both trees, neither empty, under a new root: it stands before the old roots, and these before the other nodes.
fn put_under_root(trees: Pair<AcceptedBvh2>, words: &mut [u32])
    requires { (0 < trees.first.tree.leaves) × (0 < trees.second.tree.leaves)
        × (tree_nodes (trees.first.tree.leaves + trees.second.tree.leaves) * 7 ≤ length words.old) }
    ensures { let first = trees.entry.first.tree in let second = trees.entry.second.tree in words.new
        ≡ splice words.old 0 (under_root first.words.now first.leaves second.words.now second.leaves) }
{
    let a = bvh2::node_box(trees.first.tree.words, 0);
    let b = bvh2::node_box(trees.second.tree.words, 0);
    let n = trees.first.tree.leaves;
    let by_roots = Shift {
        nodes: 2,
        positions: 0,
    };
    let by_first = Shift {
        nodes: 2 * n,
        positions: n,
    };
    tree_words::put_node(words, 0, a.union(b), 1);
    move_node(trees.first, 0, by_roots, words, 1);
    move_node(trees.second, 0, by_first, words, 2);
    move_rest(trees.first, by_roots, words);
    move_rest(trees.second, by_first, words);
}

// The joined tree's words.
fn put_words(trees: Pair<AcceptedBvh2>, words: &mut [u32])
    requires { tree_nodes (trees.first.tree.leaves + trees.second.tree.leaves) * 7 ≤ length words.old }
    ensures { let first = trees.entry.first.tree in let second = trees.entry.second.tree in words.new
        ≡ splice words.old 0 (joined_words first.words.now first.leaves second.words.now second.leaves) }
{
    if trees.first.tree.leaves == 0 {
        put_front(trees.second.tree.words, words);
    } else if trees.second.tree.leaves == 0 {
        put_front(trees.first.tree.words, words);
    } else {
        put_under_root(trees, words);
    }
}

// The joined tree's index words.
fn put_indices(list: &[u32], panes: usize, moved: &[u32], indices: &mut [u32])
    requires { (length list.now + length moved.now ≤ length indices.old) × (sums_fit panes moved.now ≡ true) }
    ensures { indices.new ≡ splice indices.old 0 (joined_indices list.now panes moved.now) }
{
    put_front(list, indices);
    put_moved(moved, panes, indices, list.len());
}

// Two accepted trees as one, in front of `words` and `indices`, and how many leaves it has: a new root above both. The second's leaves stand behind
// the first's, and its index words are counted on from the first's panes. `marks` are working words. The C interface lends each slice by itself.
pub fn join(
    first: &[u32],
    first_indices: &[u32],
    first_panes: usize,
    second: &[u32],
    second_indices: &[u32],
    marks: &mut [u32],
    words: &mut [u32],
    indices: &mut [u32],
) -> Result<u32, Refusal>
    ensures { record { answer = joining_answer result; marks = marks.new; words = words.new; indices = indices.new }
        ≡ join_of (record {
          first = first.entry.now;
          first_indices = first_indices.now;
          panes = first_panes;
          second = second.now;
          second_indices = second_indices.now;
          marks = marks.old;
          words = words.old;
          indices = indices.old;
        }) }
{
    let n = first_indices.len();
    let m = second_indices.len();
    let trees = check_sizes(first, n, second, m, marks.len(), words.len(), indices.len())?;
    let accepted = check_trees(trees, marks)?;
    if !sums_fit(first_panes, second_indices) {
        return Err(Refusal::IndexOver);
    }
    put_words(accepted, words);
    put_indices(first_indices, first_panes, second_indices, indices);
    Ok((n + m) as u32)
}
