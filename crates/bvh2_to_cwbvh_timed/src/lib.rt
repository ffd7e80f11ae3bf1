// The conversion of a binary tree whose panes are drawn at some quarter hours of the day: to a record, and to the side table beside it. The published
// code has none.
#![tactic(auto)]

ghost use Rattle.std.specs.Prelude.{◌≡◌, false, [], ◌∷◌, ◌++◌, leb, ltb, length, get_or};
ghost use Rattle.float.specs.Compare.{plus_zero};
ghost use Rattle.lists.specs.Below.{all_below};
ghost use Rattle.causes.specs.Causes.{◌unless◌, first_cause};
ghost use Rattle.causes.specs.Refusal.{cause_number, cause_in};
ghost use Rattle.bvh2.specs.FirstCause.{size_conditions};
ghost use Rattle.cost.specs.Table.{word_of, cost_of};
ghost use Rattle.bvh2_tables.specs.Tables.{prepare_conditions, work_after};
ghost use Rattle.bvh2_to_cwbvh_timed.specs.TimedConversion.{side_size, panes_fit, put_in_order, timed_conversion_of};
ghost use Rattle.bvh2_to_cwbvh_timed.specs.Answer.{timed_outcome_of};

use bvh2::Bvh2;
pub use bvh2_to_cwbvh::Converted;
use causes::Refusal;

// How many bytes of side table a tree needs.
fn side_size(tree: Bvh2) -> usize
    ensures { result ≡ side_size tree.entry.leaves }
{
    if tree.leaves == 0 {
        0
    } else {
        side_table::BYTES * (tree.leaves - 1).max(1)
    }
}

// Causes 1 to 3, and 4 of the side table.
fn check_sizes(words: &[u32], n: usize, limit: u32, side: usize) -> Result<(), Refusal>
    ensures { cause_in result ≡ first_cause (size_conditions (length words.now) n ++ 3 unless leb limit 3 ∷ 4 unless leb (side_size n) side ∷ []) }
{
    let tree = bvh2_check::sizes(words, n)?;
    let over = 3 < limit;
    if over {
        return Err(Refusal::LimitOver);
    }
    let short = side < side_size(tree);
    if short {
        return Err(Refusal::SliceShort);
    }
    Ok(())
}

// Whether each index word names a pane. All are looked at, so that the loop compiles to wide compares.
fn indices_fit(panes: usize, indices: &[u32]) -> bool
    ensures { result ≡ all_below (λ i. ltb (get_or indices.now i 0) panes) (length indices.now) }
{
    let mut fit = true;
    for index in indices {
        fit &= (*index as usize) < panes;
    }
    fit
}

// Whether cause 14 does not hold.
#[tactic(auto, unfolding(crate::specs::TimedConversion::panes_fit))]
fn panes_fit(panes: usize, spans: &[u8], indices: &[u32]) -> bool
    ensures { result ≡ panes_fit panes spans.now indices.now }
{
    span::spans_fit(panes, spans) && indices_fit(panes, indices)
}

// The cause that refuses where 14 holds: 14, or one of those before it. The tables are cleared where they were filled.
fn refuse_panes(
    words: &[u32],
    n: usize,
    limit: u32,
    bytes: usize,
    list: usize,
    decisions: &mut [u32],
    costs: &mut [f32],
) -> Refusal
    ensures value { cause_number result ≡ first_cause (put_in_order 14 false (prepare_conditions words.now n limit
        (record { decisions = length decisions.old; costs = length costs.old; bytes = bytes; list = list }))) }
    ensures decisions_after { decisions.new ≡ work_after 0 (word_of limit) words.now n (cause_number result) decisions.old }
    ensures costs_after { costs.new ≡ work_after plus_zero (cost_of limit) words.now n (cause_number result) costs.old }
{
    match bvh2_tables::prepare(words, n, limit, bytes, list, decisions, costs) {
        Ok(()) => {
            bvh2_tables::clear_tables(n, decisions, costs);
            Refusal::SpansUnfit
        }
        Err(refusal) if refusal == Refusal::NotOneTree => Refusal::SpansUnfit,
        Err(refusal) => refusal,
    }
}

// Converts the tree of `words`, whose leaves hold positions of `indices`, as the untimed conversion does, and writes the side table of the record in
// front of `side`: `spans` has two bytes for each pane that an index word may name, its first quarter hour and its last.
pub fn bvh2_to_cwbvh_timed(
    words: &[u32],
    indices: &[u32],
    limit: u32,
    ordered: bool,
    panes: usize,
    spans: &[u8],
    decisions: &mut [u32],
    costs: &mut [f32],
    record: &mut [u8],
    list: &mut [u32],
    side: &mut [u8],
) -> Result<Converted, Refusal>
    ensures { timed_outcome_of result decisions.new costs.new «record».new list.new side.new ≡ timed_conversion_of (record {
      untimed = record {
        words = words.entry.now;
        indices = indices.entry.now;
        limit = limit;
        ordered = ordered;
        decisions = decisions.old;
        costs = costs.old;
        bytes = «record».old;
        list = list.old;
      };
      panes = panes;
      spans = spans.now;
      side = side.old;
    }) }
{
    let n = indices.len();
    check_sizes(words, n, limit, side.len())?;
    if !panes_fit(panes, spans, indices) {
        return Err(refuse_panes(words, n, limit, record.len(), list.len(), decisions, costs));
    }
    let converted = bvh2_to_cwbvh::bvh2_to_cwbvh(
        words, indices, limit, ordered, decisions, costs, record, list,
    )?;
    let some = n > 0;
    if some {
        side_table::write_side(record, converted.nodes as usize, list, spans, side);
    }
    Ok(converted)
}
