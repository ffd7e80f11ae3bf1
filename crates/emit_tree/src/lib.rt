// Internal: the record and the index list of a whole tree, written node by node (bvh2_to_cwbvh.rs: convert_to_cwbvh_impl).
#![tactic(auto)]

ghost use Rattle.std.specs.Prelude.{◌≡◌, ℕ, ◌+◌, ◌*◌, ◌<◌, ◌≤◌, length, map, get_or, take};
ghost use Rattle.bvh2.specs.Words.{box_at};
ghost use Rattle.children.specs.Tabled.{most_edges};
ghost use Rattle.children.specs.Branches.{words_of, subtree_of, DecidedBy};
ghost use Rattle.order.specs.Lists.{padded};
ghost use Rattle.wide_layout.specs.Conversion.{convert_node};
ghost use Rattle.wide_tree.specs.Ordered.{wide_tree};
ghost use Rattle.emit_tree.specs.Emission.{slot_words, is_inner, wide_slots_at, Emits, EmitTree, Emitted, write_entry, progress_of};

use aabb::Aabb;
use children::Branch;
use cost::Kind;

// The next free node and position.
#[derive(Clone, Copy)]
pub struct Next {
    pub nodes: usize,
    pub positions: usize,
}

// A slot's word stands for a child that becomes a node.
fn is_inner(decisions: &[u32], v: u32) -> bool
    requires { (v ≡ 0xffff_ffff → ⊥) → v * 7 < length decisions.now }
    ensures { result ≡ is_inner decisions.now v }
{
    v != 0xffff_ffff && cost::decision_at(decisions, v as usize, 0).kind != Kind::Leaf
}

// The boxes of the first `count` of the nodes found, and behind them the box of their parent. The nodes stay an array with a count, since there is no
// heap.
fn child_boxes(words: &[u32], parent: Aabb, found: [u32; 8], count: usize) -> [Aabb; 8]
    requires { (count ≤ 8) × ((i : ℕ) → i < count → get_or found i 0 * 7 + 6 < length words.now) }
    ensures { result ≡ padded parent (map (box_at words.now) (take count found)) }
{
    let mut boxes = [parent; 8];
    for i in 0..count {
        boxes[i] = bvh2::node_box(words, found[i] as usize);
    }
    boxes
}

// The children of the wide node that a branch's node becomes, by slots: all ones in a slot without a child, since each slot has a word. Without
// ordering they stay as they were gathered: a `bool` says so, here and below, as in the requirements' call.
pub fn slots_of(branch: Branch<'_>, ordered: bool) -> [u32; 8]
    ensures { (limit : ℕ) → DecidedBy limit branch.entry → result ≡ slot_words ordered limit (subtree_of branch.entry) }
{
    let mut found = [0xffff_ffffu32; 8];
    let count = children::get_children(branch, &mut found);
    let gathered = !ordered;
    if gathered {
        return found;
    }
    let parent = branch.node_box();
    let boxes = child_boxes(branch.tree.words, parent, found, count);
    order::order_children(parent, boxes, found, count)
}

// Writes node `number`, which a branch's node becomes, with all below it; the next free node and position after it.
// `bytes` and `out` stay two slices: of a struct of both each contract would also say that each reference is still the same.
fn emit_node(
    branch: Branch<'_>,
    indices: &[u32],
    bytes: &mut [u8],
    out: &mut [u32],
    number: usize,
    next: Next,
    ordered: bool,
) -> Next
    requires { Emits branch (length indices.now) ordered (length bytes.old) (length out.old) number next }
    ensures { (h : Emits branch.entry (length indices.now) ordered (length bytes.old) (length out.old) number next) (l p k : ℕ)
        → progress_of bytes.new out.new result ≡ convert_node (write_entry indices.now) (box_at (words_of branch.entry) branch.entry.node)
        (wide_slots_at branch.entry ordered h.at.limit) l p k number (progress_of bytes.old out.old next) }
{
    let slots = slots_of(branch, ordered);
    let built = emit::build_node(
        branch.tree,
        branch.node,
        indices,
        out,
        &slots,
        next.nodes,
        next.positions,
    );
    node::write_node(bytes, number, built.node);
    let mut free = Next {
        nodes: next.nodes + built.inner,
        positions: built.at,
    };
    // counted here, since inner children alone have a number: a filter and a zip would be no plainer
    let mut child = next.nodes;
    for &w in &slots {
        if is_inner(branch.tree.decisions, w) {
            // field by field: a struct with ghost fields takes no `..base`
            let below = Branch {
                tree: branch.tree,
                node: w as usize,
            };
            free = emit_node(below, indices, bytes, out, child, free, ordered);
            child += 1;
        }
    }
    free
}

// Writes the record and the index list of the whole tree that a branch becomes; how many nodes and positions they have.
pub fn emit(
    root: Branch<'_>,
    indices: &[u32],
    bytes: &mut [u8],
    out: &mut [u32],
    ordered: bool,
) -> Next
    requires { EmitTree root (length indices.now) most_edges ordered (length bytes.old) (length out.old) }
    ensures { (h : EmitTree root.entry (length indices.now) most_edges ordered (length bytes.old) (length out.old))
        → Emitted indices.now (wide_tree ordered h.at.limit (subtree_of root.entry)) bytes.old out.old bytes.new out.new result }
{
    let next = Next {
        nodes: 1,
        positions: 0,
    };
    emit_node(root, indices, bytes, out, 0, next, ordered)
}
