// The record check: whether a record is sound, and its deepest level (cwbvh/mod.rs, validate). One pass over the nodes, with a working word for each
// node and each position.
#![tactic(auto)]

ghost use Rattle.std.specs.Prelude.{◌≡◌, ◌+◌, ◌≤◌, ◌<◌, length, get_or, replicate};
ghost use Rattle.causes.specs.Refusal.{cause_in};
ghost use Rattle.node.specs.Node.{inner_bit};
ghost use Rattle.record_shape.specs.Record.{slot_positions, shape_at};
ghost use Rattle.record_shape.specs.Check.{cause_of, soundness_of, check_of, words_after};
ghost use Rattle.validate.specs.Validity.{soundness, verdict_of};
ghost use Rattle.validate.specs.Marks.{MarkRoom, WorkSized, Ruled, Start, Fill, MarksSlot, MarksPositions, MarksNode, all_marked};

use causes::Refusal;

// Set k words from a on to v, unless one of them is not zero. By index: how far it came tells which words are set.
fn fill(work: &mut [u32], a: usize, k: usize, v: u32) -> bool
    requires { MarkRoom a k (length work.old) }
    ensures { Fill result work.old a k v work.new }
{
    for j in 0..k {
        let marked = work[a + j] != 0;
        if marked {
            return false;
        }
        work[a + j] = v;
    }
    true
}

// How many positions a slot has, by the mask and its meta byte.
fn leaf_count(imask: u8, slot: u32, meta: u8) -> u32
    requires { slot < 8 }
    ensures { result ≡ slot_positions (inner_bit imask slot) meta }
{
    if node::is_leaf(imask, slot) {
        node::child_primitives(0, meta).count
    } else {
        0
    }
}

// The working words are lent on from call to call with the node that they serve: a struct of both would hold a `&mut`, and each contract would have
// to say that it is still the same one. `record`, `m` and `n` stand in each of them with the length of these words, and so by themselves.

// Mark the positions of a slot of node i, past the words of the m nodes, unless one of them is marked.
fn mark_slot(record: &[u8], i: usize, slot: usize, m: usize, n: usize, work: &mut [u32]) -> bool
    requires { Ruled «record».now n i m (length work.old) × (slot < 8) }
    ensures { MarksSlot result (shape_at «record».now n) i slot work.old work.new }
{
    let node = node::node_ref(record, i);
    let meta = node.child_meta(slot);
    let count = leaf_count(node.imask(), slot as u32, meta);
    let start = node::child_primitives(node.primitive_base_idx(), meta).start;
    fill(work, m + start, count as usize, 1)
}

// Mark the positions of node i's eight slots, unless one of them is marked. No `.all`: its closure would hold the working words that it writes.
fn mark_positions(record: &[u8], i: usize, m: usize, n: usize, work: &mut [u32]) -> bool
    requires { Ruled «record».now n i m (length work.old) }
    ensures { MarksPositions result (shape_at «record».now n) i work.old work.new }
{
    for slot in 0..8 {
        if !mark_slot(record, i, slot, m, n, work) {
            return false;
        }
    }
    true
}

// Give node i's children the word after its own, and mark its positions, unless one of these words is set.
fn mark_node(record: &[u8], i: usize, m: usize, n: usize, work: &mut [u32]) -> bool
    requires { Ruled «record».now n i m (length work.old) × (get_or work.old i 0 ≤ 32) }
    ensures { MarksNode result (shape_at «record».now n) i work.old work.new }
{
    let v = work[i];
    let node = node::node_ref(record, i);
    let base = node.child_base_idx();
    let count = node_rule::child_count(node.imask());
    fill(work, base as usize, count as usize, v + 1) && mark_positions(record, i, m, n, work)
}

// Whether none of the n words from m on is zero.
fn all_marked(work: &[u32], m: usize, n: usize) -> bool
    requires { m + n ≤ length work.now }
    ensures { result ≡ all_marked work.now m n }
{
    !work[m..m + n].contains(&0)
}

// The first of the causes 1, 2 and 4 that holds.
fn check_call(long: usize, n: usize, words: usize) -> Result<(), Refusal>
    ensures { cause_in result ≡ cause_of long n words }
{
    causes::record_sizes(long, n)?;
    if words < long / 80 + n {
        return Err(Refusal::SliceShort);
    }
    Ok(())
}

// One pass over the m nodes in rising order.
fn pass(record: &[u8], m: usize, n: usize, work: &mut [u32]) -> Option<u32>
    requires { Start «record».now n m work.old }
    ensures { soundness result ≡ soundness_of «record».now n }
{
    work[0] = 1;
    let mut deepest: u32 = 0;
    for i in 0..m {
        if !node_rule::node_rule(record, i, m, n) {
            return None;
        }
        let v = work[i];
        if v == 0 || v > 32 {
            return None;
        }
        if !mark_node(record, i, m, n, work) {
            return None;
        }
        deepest = deepest.max(v - 1);
    }
    all_marked(work, m, n).then_some(deepest)
}

// The pass, with the working words zero before and after.
fn run(record: &[u8], m: usize, n: usize, work: &mut [u32]) -> Option<u32>
    requires { WorkSized «record».now n m (length work.old) }
    ensures result_value { soundness result ≡ soundness_of «record».now n }
    ensures work_after { work.new ≡ replicate (m + n) 0 }
{
    work.fill(0);
    if m == 0 {
        return (n == 0).then_some(0);
    }
    let r = pass(record, m, n, work);
    work.fill(0);
    r
}

// The record check: the deepest level of a sound record of n positions, none where the bytes are no sound record. It needs a working word for each
// node and each position; these are zero afterwards, and untouched if it refuses.
pub fn validate(record: &[u8], n: usize, work: &mut [u32]) -> Result<Option<u32>, Refusal>
    ensures result_value { verdict_of result ≡ check_of «record».now n (length work.old) }
    ensures work_after { work.new ≡ words_after «record».now n work.old }
{
    check_call(record.len(), n, work.len())?;
    let m = record.len() / node::BYTES;
    Ok(run(record, m, n, &mut work[..m + n]))
}
