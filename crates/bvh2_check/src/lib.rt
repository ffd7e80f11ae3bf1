// Internal: whether the words of a binary tree are accepted, in two parts: conversion looks at causes 3 and 4 between them.
#![tactic(auto)]

ghost use Rattle.std.specs.Prelude.{◌≡◌, ◌++◌, ◌<◌, ◌≤◌, length, replicate, drop, IfOk};
ghost use Rattle.causes.specs.Refusal.{cause_in};
ghost use Rattle.bvh2.specs.Said.{said};
ghost use Rattle.bvh2.specs.Words.{tree_nodes, tree_at};
ghost use Rattle.bvh2.specs.Causes.{Accepted};
ghost use Rattle.bvh2.specs.FirstCause.{sizes_cause, is_inside, links_inside, boxes_accepted, is_whole, structure_cause};
ghost use Rattle.bvh2_check.specs.Marking.{mark_count, marking_if, walk, marks_set, MarkReady, InTree};

use bvh2::{Bvh2, Link};
use causes::Refusal;

// A tree of which no cause holds.
#[derive(Clone, Copy, Debug)]
pub struct AcceptedBvh2<'a> {
    pub tree: Bvh2<'a>,
    pub ghost accepted: { Accepted tree.words.now tree.leaves },
}

// Causes 1 and 2: the number of words, and the number of leaves.
pub fn sizes(words: &[u32], n: usize) -> Result<Bvh2, Refusal>
    ensures value { cause_in result ≡ sizes_cause (length words.now) n }
    ensures tree { IfOk result (λ tree. (tree.words.now ≡ words.now) × (tree.leaves ≡ n)) }
{
    let nodes = n.saturating_mul(2).saturating_sub(1);
    if words.len() % 7 != 0 || words.len() / 7 != nodes {
        return Err(Refusal::LengthUnfit);
    }
    if n > bvh2::MAX_LEAVES {
        return Err(Refusal::TooMany);
    }
    Ok(Bvh2 { words, leaves: n })
}

// Whether the link is to two nodes of the tree, or to a position of the list.
fn link_inside(tree: Bvh2, link: Link) -> bool
    ensures { result ≡ is_inside tree.entry.leaves (said link) }
{
    match link {
        Link::Children(first) => first < tree.nodes().saturating_sub(1),
        Link::Position(position) => position < tree.leaves,
        Link::Malformed => false,
    }
}

// Whether every link is.
fn links_inside(tree: Bvh2) -> bool
    ensures { result ≡ links_inside tree.entry.words.now tree.entry.leaves }
{
    (0..tree.nodes()).all(|v| link_inside(tree, bvh2::node_link(tree.words, v)))
}

// Whether every box is accepted.
fn boxes_accepted(tree: Bvh2) -> bool
    ensures { result ≡ boxes_accepted tree.entry.words.now tree.entry.leaves }
{
    (0..tree.nodes()).all(|v| bvh2::node_box(tree.words, v).accepted())
}

// Mark the node and all below it, and each leaf's position after the marks of the nodes. A second mark, or an edge too many, stops the walk:
// so no node is gone through twice, whatever the words.
fn visit(tree: &Bvh2, marks: &mut [u32], node: usize, depth: u32) -> bool
    requires { MarkReady tree.now.words.now tree.now.leaves (length marks.old) node }
    ensures { marking_if result marks.new
        ≡ walk tree.now.words.now (tree_nodes tree.now.leaves) (tree_at tree.now.words.now depth node) marks.old }
{
    if marks[node] != 0 {
        return false;
    }
    marks[node] = 1;
    match bvh2::node_link(tree.words, node) {
        Link::Children(_) if depth == 0 => false,
        Link::Children(first) => {
            visit(tree, marks, first, depth - 1) && visit(tree, marks, first + 1, depth - 1)
        }
        Link::Position(position) => {
            let place = tree.nodes() + position;
            let met = marks[place] != 0;
            if met {
                return false;
            }
            marks[place] = 1;
            true
        }
        Link::Malformed => unreachable!(),
    }
}

// Whether each of the first k is marked.
fn all_marked(marks: &[u32], k: usize) -> bool
    requires { k ≤ length marks.now }
    ensures { result ≡ marks_set k marks.now }
{
    !marks[..k].contains(&0)
}

// Causes 5 to 7 of a tree that has leaves, from marks that are zero.
// That it has some is no ghost field of the tree: an empty one is accepted too, and a root is read of the others alone.
fn judge(tree: Bvh2, marks: &mut [u32]) -> Result<(), Refusal>
    requires { (0 < tree.leaves) × (marks.old ≡ replicate (mark_count tree.leaves) 0) }
    ensures { cause_in result ≡ structure_cause tree.entry.words.now tree.entry.leaves }
{
    if !links_inside(tree) {
        return Err(Refusal::LinkOutside);
    }
    if !boxes_accepted(tree) {
        return Err(Refusal::BoxRefused);
    }
    if !visit(&tree, marks, 0, 127) || !all_marked(marks, 3 * tree.leaves - 1) {
        return Err(Refusal::NotOneTree);
    }
    Ok(())
}

// The same from any marks, which are zero afterwards.
fn judge_cleared(tree: Bvh2, marks: &mut [u32]) -> Result<(), Refusal>
    requires { (0 < tree.leaves) × (length marks.old ≡ mark_count tree.leaves) }
    ensures value { cause_in result ≡ structure_cause tree.entry.words.now tree.entry.leaves }
    ensures marks_after { marks.new ≡ replicate (mark_count tree.entry.leaves) 0 }
{
    marks.fill(0);
    let judged = judge(tree, marks);
    marks.fill(0);
    judged
}

// Causes 5 to 7. The marks are working words, one a node and one a position; these are zero afterwards, and those past them untouched.
pub fn structure<'a>(tree: Bvh2<'a>, marks: &mut [u32]) -> Result<AcceptedBvh2<'a>, Refusal>
    requires { mark_count tree.leaves ≤ length marks.old }
    ensures value { cause_in result ≡ structure_cause tree.entry.words.now tree.entry.leaves }
    ensures tree { IfOk result (λ accepted. accepted.tree ≡ tree.entry) }
    ensures marks_after { marks.new
        ≡ replicate (mark_count tree.entry.leaves) 0 ++ drop (mark_count tree.entry.leaves) marks.old }
{
    if tree.leaves == 0 {
        return Ok(AcceptedBvh2 { tree });
    }
    judge_cleared(tree, &mut marks[..3 * tree.leaves - 1])?;
    Ok(AcceptedBvh2 { tree })
}

// Whether every path down from a node of an accepted tree ends within so many edges.
pub fn within_depth(words: &[u32], node: usize, depth: u32) -> bool
    requires { InTree words.now node }
    ensures { result ≡ is_whole words.now (tree_at words.now depth node) }
{
    match bvh2::node_link(words, node) {
        Link::Children(_) if depth == 0 => false,
        Link::Children(first) => {
            within_depth(words, first, depth - 1) && within_depth(words, first + 1, depth - 1)
        }
        Link::Position(_) => true,
        Link::Malformed => unreachable!(),
    }
}
