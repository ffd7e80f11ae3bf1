// Internal: the cost tables of a binary tree (bvh2_to_cwbvh.rs, calculate_cost).
#![tactic(auto)]

ghost use Rattle.std.specs.Prelude.{◌≡◌, ◌+◌, ◌*◌, ◌/◌, ◌%◌, ◌^◌, ◌≤◌, ◌<◌, length, get_or};
ghost use Rattle.aabb.specs.Aabb.{half_area};
ghost use Rattle.bvh2.specs.Tree.{leaves};
ghost use Rattle.bvh2.specs.Words.{box_at, tree_at};
ghost use Rattle.cost.specs.Said.{kind_said, kind_in};
ghost use Rattle.cost.specs.Table.{better, best_split, first_decision, leaf_decision, word, word_of, cost_of};
ghost use Rattle.cost.specs.Rows.{row, fill, costs_at, entry_from, stored, next_entry, Small, RowRoom, RowsReady};

use bvh2::Link;

// The decision word without its splits of a wide node, and of a node whose children stand in its place; a leaf child's is 0.
const INTERNAL: u32 = words::KIND;

const DISTRIBUTE: u32 = 2 * words::KIND;

// What becomes of a node at an entry of its table: a leaf child, an inner child, or its own children in its place.
#[derive(Clone, Copy, Debug, PartialEq, Eq)]
pub enum Kind {
    Leaf,
    Internal,
    Distribute,
}

// A decision word taken apart: the kind, and the entries at which the left and the right child are opened.
#[derive(Clone, Copy, Debug, PartialEq, Eq)]
pub struct Decision {
    pub kind: Kind,
    pub left: usize,
    pub right: usize,
}

impl From<u32> for Decision {
    ghost from_gives = { λ word d. (kind_said d.kind ≡ kind_in word) × (d.left ≡ word / 256 % 256) × (d.right ≡ word % 256) };

    // What a word says: the kind in its two high bits, the splits in its two low bytes.
    fn from(word: u32) -> Decision {
        Decision {
            kind: match words::kind(word) {
                0 => Kind::Leaf,
                1 => Kind::Internal,
                _ => Kind::Distribute,
            },
            left: (word / 256 % 256) as usize,
            right: (word % 256) as usize,
        }
    }
}

// Node v's decision at an entry.
pub fn decision_at(decisions: &[u32], v: usize, entry: usize) -> Decision
    requires { v * 7 + entry < length decisions.now }
    ensures kind { kind_said result.kind ≡ kind_in (get_or decisions.now (v * 7 + entry) 0) }
    ensures left { result.left ≡ get_or decisions.now (v * 7 + entry) 0 / 256 % 256 }
    ensures right { result.right ≡ get_or decisions.now (v * 7 + entry) 0 % 256 }
{
    Decision::from(decisions[v * 7 + entry])
}

// The cheapest split found so far. Where there is none both are 255: no Option, since a decision word stores these numbers in either case.
#[derive(Clone, Copy)]
pub struct Split {
    pub cost: f32,
    pub left: u32,
    pub right: u32,
}

// An entry of a table as it is stored: a cost and a decision word.
#[derive(Clone, Copy)]
pub struct Entry {
    pub cost: f32,
    pub word: u32,
}

// The split (k, m) if it is strictly cheaper than `s`.
fn better(s: Split, c: f32, k: u32, m: u32) -> Split
    ensures { result ≡ better s c k m }
{
    if c < s.cost {
        Split {
            cost: c,
            left: k,
            right: m,
        }
    } else {
        s
    }
}

// The cheapest split of n between the nodes `first` and `first + 1`, if one costs less than `start`.
fn best_split(costs: &[f32], first: usize, n: usize, start: f32) -> Split
    requires { (first * 7 + 14 ≤ length costs.now) × (n ≤ 6) }
    ensures { result ≡ best_split (costs_at costs.now first) (costs_at costs.now (first + 1)) n start }
{
    let l = first * 7;
    let r = (first + 1) * 7;
    let mut best = Split {
        cost: start,
        left: 255,
        right: 255,
    };
    for k in 0..n + 1 {
        let c = costs[l + k] + costs[r + (n - k)];
        best = better(best, c, k as u32, (n - k) as u32);
    }
    best
}

// Entry 0 of an inner node: a leaf of all its primitives if so many are allowed and that is strictly cheaper, else a wide node.
fn first_entry(area: f32, count: u32, limit: u32, s: Split) -> Entry
    requires { (count ≤ 2 ^ 24) × Small s }
    ensures { result ≡ stored (first_decision area count limit s) }
{
    let internal = s.cost + area;
    let splits = s.left * 256 + s.right;
    let leaf = (count as f32) * area * 0.3;
    if count <= limit && leaf < internal {
        Entry {
            cost: leaf,
            word: splits,
        }
    } else {
        Entry {
            cost: internal,
            word: INTERNAL + splits,
        }
    }
}

// A further entry: the split that was found, else the entry before.
fn next_entry(before: Entry, s: Split) -> Entry
    requires { Small s }
    ensures { result ≡ next_entry before s }
{
    if s.left == 255 {
        before
    } else {
        Entry {
            cost: s.cost,
            word: DISTRIBUTE + (s.left * 256 + s.right),
        }
    }
}

// Decisions and costs are two slices, as callers lend them: a struct of two `&mut` would say in each contract that it still holds the same two.

// Writes the seven entries of the inner node v, whose children are `first` and `first + 1`.
fn inner_entries(
    decisions: &mut [u32],
    costs: &mut [f32],
    v: usize,
    first: usize,
    area: f32,
    count: u32,
    limit: u32,
)
    requires row_room { RowRoom (length decisions.old) (length costs.old) v first }
    requires count_bound { count ≤ 2 ^ 24 }
    ensures decisions_after { decisions.new ≡ row (λ i. word (entry_from costs.old first area count limit i)) (v * 7) 7
        decisions.old }
    ensures costs_after { costs.new ≡ row (λ i. (entry_from costs.old first area count limit i).cost) (v * 7) 7 costs.old }
{
    let base = v * 7;
    let s = best_split(costs, first, 6, f32::INFINITY);
    let mut e = first_entry(area, count, limit, s);
    for i in 0..6 {
        decisions[base + i] = e.word;
        costs[base + i] = e.cost;
        let s = best_split(costs, first, i, e.cost);
        e = next_entry(e, s);
    }
    decisions[base + 6] = e.word;
    costs[base + 6] = e.cost;
}

// Writes the seven entries of the leaf v.
fn leaf_entries(decisions: &mut [u32], costs: &mut [f32], v: usize, area: f32)
    requires { (v * 7 + 7 ≤ length decisions.old) × (v * 7 + 7 ≤ length costs.old) }
    ensures decisions_after { decisions.new ≡ row (λ i. word (leaf_decision area)) (v * 7) 7 decisions.old }
    ensures costs_after { costs.new ≡ row (λ i. (leaf_decision area).cost) (v * 7) 7 costs.old }
{
    let base = v * 7;
    let cost = area * 1.0 * 0.3;
    decisions[base..base + 7].fill(0);
    costs[base..base + 7].fill(cost);
}

// Half the surface of node v's box.
fn node_area(words: &[u32], v: usize) -> f32
    requires { v * 7 + 6 < length words.now }
    ensures { result ≡ half_area (box_at words.now v) }
{
    bvh2::node_box(words, v).half_area()
}

// Writes the seven decision words and costs of node v and of every node below it; `depth` is how many edges lie below v at most.
// Returns how many leaves there are.
pub fn calculate_cost(
    words: &[u32],
    v: usize,
    depth: u32,
    limit: u32,
    decisions: &mut [u32],
    costs: &mut [f32],
) -> u32
    requires { RowsReady words.now (length decisions.old) (length costs.old) depth v }
    ensures value { result ≡ leaves (tree_at words.now depth v) }
    ensures decisions_after { decisions.new ≡ fill (word_of limit) (tree_at words.now depth v) decisions.old }
    ensures costs_after { costs.new ≡ fill (cost_of limit) (tree_at words.now depth v) costs.old }
{
    let area = node_area(words, v);
    match bvh2::node_link(words, v) {
        Link::Children(first) => {
            let a = calculate_cost(words, first, depth - 1, limit, decisions, costs);
            let b = calculate_cost(words, first + 1, depth - 1, limit, decisions, costs);
            let count = a + b;
            inner_entries(decisions, costs, v, first, area, count, limit);
            count
        }
        Link::Position(_) => {
            leaf_entries(decisions, costs, v, area);
            1
        }
        Link::Malformed => unreachable!(),
    }
}
