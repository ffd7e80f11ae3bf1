// The conversion of a binary tree to a record of eight-wide nodes with quantised child boxes (cwbvh/bvh2_to_cwbvh.rs).
#![tactic(auto)]

ghost use Rattle.std.specs.Prelude.{◌≡◌};
ghost use Rattle.bvh2_to_cwbvh.specs.Conversion.{conversion_of};
ghost use Rattle.bvh2_to_cwbvh.specs.Answer.{outcome_of};

use causes::Refusal;
use children::{Branch, Bvh2Slices};

// A record that was written: how many nodes it has, and its deepest level.
#[derive(Clone, Copy, Debug, PartialEq, Eq)]
pub struct Converted {
    pub nodes: u32,
    pub level: u32,
}

// Converts the tree of `words`, whose leaves hold positions of `indices`, to a record and an index list. `limit` is the most leaves of a leaf child,
// up to 3; `ordered` says whether children take the slots that suit the directions of rays, a `bool` as in the requirements' call. The tables of the
// tree's decisions and costs are left in the working slices, two as the requirements have it.
pub fn bvh2_to_cwbvh(
    words: &[u32],
    indices: &[u32],
    limit: u32,
    ordered: bool,
    decisions: &mut [u32],
    costs: &mut [f32],
    record: &mut [u8],
    list: &mut [u32],
) -> Result<Converted, Refusal>
    ensures { outcome_of result decisions.new costs.new «record».new list.new ≡ conversion_of (record {
      words = words.entry.now;
      indices = indices.now;
      limit = limit;
      ordered = ordered;
      decisions = decisions.old;
      costs = costs.old;
      bytes = «record».old;
      list = list.old;
    }) }
{
    let n = indices.len();
    bvh2_tables::prepare(words, n, limit, record.len(), list.len(), decisions, costs)?;
    let empty = n == 0;
    if empty {
        return Ok(Converted { nodes: 0, level: 0 });
    }
    let tree = Bvh2Slices { words, decisions };
    let root = Branch {
        tree: &tree,
        node: 0,
    };
    let deepest = wide_level::deepest_level(root);
    let deep = deepest > 31;
    if deep {
        bvh2_tables::clear_tables(n, decisions, costs);
        return Err(Refusal::TooDeep);
    }
    let written = emit_tree::emit(root, indices, record, list, ordered);
    Ok(Converted {
        nodes: written.nodes as u32,
        level: deepest,
    })
}
