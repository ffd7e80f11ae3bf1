// The stored cases of large trees.
use crate::made::Rule;
use crate::rays::{Asked, same_ray};
use bvh2_to_cwbvh::{Converted, bvh2_to_cwbvh};
use stored::{digest_of, digest_of_bytes, filled_with, word};

// The most leaves, and for these the words of a tree, the bytes of a record, the floats of panes, and the working words of a check.
pub const LEAVES: usize = 20000;

pub const WORDS: usize = 279993;

pub const BYTES: usize = 1599920;

const CORNERS: usize = 120000;

const CHECK_WORDS: usize = 40000;

// The words before the first ray of a case, and those of a ray.
const HEAD: usize = 12;

const RAY: usize = 22;

// ---- what was made of a tree

// Whether a record is sound by the check, with this level.
fn sound(record: &[u8], n: usize, level: u32) -> bool {
    let mut work = [0u32; CHECK_WORDS];
    validate::validate(record, n, &mut work) == Ok(Some(level))
}

// Whether all rays of a case are answered as stored.
fn same_rays(case: &[u8], record: &[u8], list: &[u32], panes: &[f32]) -> bool {
    let rays = word(case, 11) as usize;
    case.len() / 4 == HEAD + rays * RAY
        && case[HEAD * 4..].chunks_exact(RAY * 4).all(|ray| {
            same_ray(Asked {
                ray,
                record,
                list,
                panes,
            })
        })
}

// Whether the first `nodes` nodes of what was lent for a record are as stored, and all that is asked of them.
fn same_record(case: &[u8], space: &[u8], list: &[u32], panes: &[f32]) -> bool {
    let bytes = word(case, 5) as usize * node::BYTES;
    if bytes > space.len() {
        return false;
    }
    let record = &space[..bytes];
    digest_of_bytes(record) == word(case, 9)
        && digest_of(list) == word(case, 10)
        && sound(record, list.len(), word(case, 6))
        && same_rays(case, record, list, panes)
}

// Whether a tree is converted as stored, with its tables, and its record is as stored: the slices are the conversion's, lent to it one by one.
fn converts(
    case: &[u8],
    words: &[u32],
    indices: &[u32],
    panes: &[f32],
    decisions: &mut [u32],
    costs: &mut [f32],
    record: &mut [u8],
    list: &mut [u32],
) -> bool {
    let limit = word(case, 3);
    let ordered = word(case, 4) == 1;
    let answer = bvh2_to_cwbvh(
        words, indices, limit, ordered, decisions, costs, record, list,
    );
    let nodes = word(case, 5);
    let level = word(case, 6);
    answer == Ok(Converted { nodes, level })
        && digest_of(decisions) == word(case, 7)
        && digest_of(costs) == word(case, 8)
        && same_record(case, record, list, panes)
}

// ---- room for it

// The same for a tree that is made by this rule in these words.
fn same_made(
    case: &[u8],
    rule: Rule,
    words: &mut [u32],
    indices: &mut [u32],
    panes: &mut [f32],
) -> bool {
    rule.put_tree(words, indices, panes);
    let mut decisions: [u32; WORDS] = filled_with(0);
    let mut costs: [f32; WORDS] = filled_with(0.0);
    let mut record: [u8; BYTES] = filled_with(0);
    let mut list = [0u32; LEAVES];
    converts(
        case,
        words,
        indices,
        panes,
        &mut decisions[..rule.words()],
        &mut costs[..rule.words()],
        &mut record[..rule.bytes()],
        &mut list[..rule.leaves()],
    )
}

// Leaves, seed, reach, limit, order; nodes, deepest level; digests of decision words, costs, record, list; rays, and these.
pub fn large(case: &[u8]) -> bool {
    let Some(rule) = Rule::of(case) else {
        return false;
    };
    let mut words: [u32; WORDS] = filled_with(0);
    let mut indices = [0u32; LEAVES];
    let mut panes: [f32; CORNERS] = filled_with(0.0);
    same_made(
        case,
        rule,
        &mut words[..rule.words()],
        &mut indices[..rule.leaves()],
        &mut panes[..6 * rule.leaves()],
    )
}
