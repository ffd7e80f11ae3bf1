// Internal: conversion up to its tables. Causes 1 to 7, and the decision words and costs of every node.
#![tactic(auto)]

ghost use Rattle.std.specs.Prelude.{◌≡◌, ◌≤◌, ◌<◌, length};
ghost use Rattle.float.specs.Compare.{plus_zero};
ghost use Rattle.causes.specs.Refusal.{cause_in};
ghost use Rattle.bvh2.specs.FirstCause.{structure_cause};
ghost use Rattle.cost.specs.Table.{word_of, cost_of};
ghost use Rattle.bvh2_tables.specs.Tables.{table_size, record_size, slices_fit, prepare_cause, cleared, tabled, work_after};

use bvh2::Bvh2;
use causes::Refusal;

// How many decision words, and how many costs, n leaves need.
fn table_size(n: usize) -> usize
    requires { n ≤ 65536 }
    ensures { result ≡ table_size n }
{
    (2 * n).saturating_sub(1) * 7
}

// How many record bytes a tree needs.
fn record_size(tree: Bvh2) -> usize
    ensures { result ≡ record_size tree.entry.leaves }
{
    if tree.leaves == 0 {
        0
    } else {
        node::BYTES * (tree.leaves - 1).max(1)
    }
}

// Whether decisions, costs, record bytes and output indices are long enough for a tree.
#[tactic(auto, unfolding(crate::specs::Tables::slices_fit))]
fn has_room(tree: Bvh2, decisions: usize, costs: usize, bytes: usize, list: usize) -> bool
    ensures { result ≡ slices_fit tree.entry.leaves (record { decisions = decisions; costs = costs; bytes = bytes; list = list }) }
{
    let table = table_size(tree.leaves);
    table <= decisions && table <= costs && record_size(tree) <= bytes && tree.leaves <= list
}

// Zeroes the decision words and the costs that n leaves need: two slices here and below, as in the requirements' call.
pub fn clear_tables(n: usize, decisions: &mut [u32], costs: &mut [f32])
    requires { (n ≤ 65536) × (table_size n ≤ length decisions.old) × (table_size n ≤ length costs.old) }
    ensures decisions_after { decisions.new ≡ cleared 0 (table_size n) decisions.old }
    ensures costs_after { costs.new ≡ cleared plus_zero (table_size n) costs.old }
{
    let size = table_size(n);
    decisions[..size].fill(0);
    costs[..size].fill(0.0);
}

// Causes 5 to 7 with the working slices cleared, and if there is none, the tables of every node.
fn fill_tables(
    tree: Bvh2,
    limit: u32,
    decisions: &mut [u32],
    costs: &mut [f32],
) -> Result<(), Refusal>
    requires { (0 < tree.leaves) × (table_size tree.leaves ≤ length decisions.old) × (table_size tree.leaves ≤ length costs.old) }
    ensures value { cause_in result ≡ structure_cause tree.entry.words.now tree.entry.leaves }
    ensures decisions_after { let t = tree.entry in decisions.new
        ≡ tabled (word_of limit) t.words.now (structure_cause t.words.now t.leaves) (cleared 0 (table_size t.leaves) decisions.old) }
    ensures costs_after { let t = tree.entry in costs.new
        ≡ tabled (cost_of limit) t.words.now (structure_cause t.words.now t.leaves) (cleared plus_zero (table_size t.leaves) costs.old) }
{
    clear_tables(tree.leaves, decisions, costs);
    bvh2_check::structure(tree, decisions)?;
    cost::calculate_cost(tree.words, 0, 127, limit, decisions, costs);
    Ok(())
}

// The first of the causes 1 to 7 for n index words, a leaf limit and the lengths of the outputs; the tables where there is none.
pub fn prepare(
    words: &[u32],
    n: usize,
    limit: u32,
    bytes: usize,
    list: usize,
    decisions: &mut [u32],
    costs: &mut [f32],
) -> Result<(), Refusal>
    ensures value { cause_in result ≡ prepare_cause words.now n limit
        (record { decisions = length decisions.entry.now; costs = length costs.old; bytes = bytes; list = list }) }
    ensures decisions_after { decisions.new ≡ work_after 0 (word_of limit) words.now n (cause_in result) decisions.old }
    ensures costs_after { costs.new ≡ work_after plus_zero (cost_of limit) words.now n (cause_in result) costs.old }
{
    let tree = bvh2_check::sizes(words, n)?;
    let over = 3 < limit;
    if over {
        return Err(Refusal::LimitOver);
    }
    if !has_room(tree, decisions.len(), costs.len(), bytes, list) {
        return Err(Refusal::SliceShort);
    }
    if n == 0 {
        return Ok(());
    }
    fill_tables(tree, limit, decisions, costs)
}
