// The stored cases of large trees at quarter hours: their conversion with the side table, and any-hit.
use crate::made::Rule;
use crate::rays::{SPACE, same_found};
use crate::trees::{BYTES, LEAVES, WORDS};
use any_hit_timed::any_hit_timed;
use bvh2_to_cwbvh::Converted;
use bvh2_to_cwbvh_timed::bvh2_to_cwbvh_timed;
use stored::{BYTE, WORD, beam, byte, digest_of, digest_of_bytes, filled_with, untouched, word};

// The bytes of the largest side table, and of the spans.
const SIDE: usize = 319984;

const SPANS: usize = 40000;

// The words before the first ray of a case, and those of a ray.
const HEAD: usize = 11;

const RAY: usize = 12;

// What any-hit is asked of at a quarter hour: a pane is named by each index word.
#[derive(Clone, Copy)]
struct Hours<'a> {
    record: &'a [u8],
    side: &'a [u8],
    list: &'a [u32],
    spans: &'a [u8],
}

// ---- any-hit

// Whether any-hit at the quarter hour in word 11, with just the room needed, answers as stored.
fn same_ray(on: Hours, ray: &[u8]) -> bool {
    let room = word(ray, 9) as usize;
    if room > SPACE {
        return false;
    }
    let mut space = [WORD; SPACE];
    let found = any_hit_timed(
        on.record,
        on.side,
        on.list,
        on.spans.len() / 2,
        on.spans,
        beam(ray, 0),
        byte(ray, 11),
        &mut space[..room],
    );
    same_found(ray, room, found, &space)
}

// ---- what was made of a tree

// Whether all rays of a case are answered as stored.
fn same_rays(case: &[u8], on: Hours) -> bool {
    let rays = word(case, 10) as usize;
    case.len() / 4 == HEAD + rays * RAY
        && case[HEAD * 4..]
            .chunks_exact(RAY * 4)
            .all(|ray| same_ray(on, ray))
}

// Whether record, list and side table have the stored digests.
fn same_tables(case: &[u8], on: Hours) -> bool {
    digest_of_bytes(on.record) == word(case, 7)
        && digest_of(on.list) == word(case, 8)
        && digest_of_bytes(on.side) == word(case, 9)
}

// Whether the front of what was lent for a record and its side table is as stored, and the rest of the latter as it was lent.
fn same_outputs(case: &[u8], record: &[u8], list: &[u32], side: &[u8], spans: &[u8]) -> bool {
    let nodes = word(case, 5) as usize;
    let bytes = nodes * node::BYTES;
    let slots = nodes * side_table::BYTES;
    if bytes > record.len() || slots > side.len() {
        return false;
    }
    let on = Hours {
        record: &record[..bytes],
        side: &side[..slots],
        list,
        spans,
    };
    untouched(&side[slots..]) && same_tables(case, on) && same_rays(case, on)
}

// Whether a tree is converted as stored: the slices are the conversion's, lent to it one by one.
fn converts(
    case: &[u8],
    words: &[u32],
    indices: &[u32],
    spans: &[u8],
    decisions: &mut [u32],
    costs: &mut [f32],
    record: &mut [u8],
    list: &mut [u32],
    side: &mut [u8],
) -> bool {
    let limit = word(case, 3);
    let ordered = word(case, 4) == 1;
    let answer = bvh2_to_cwbvh_timed(
        words,
        indices,
        limit,
        ordered,
        spans.len() / 2,
        spans,
        decisions,
        costs,
        record,
        list,
        side,
    );
    let nodes = word(case, 5);
    let level = word(case, 6);
    answer == Ok(Converted { nodes, level }) && same_outputs(case, record, list, side, spans)
}

// ---- room for it

// The same for a tree that is made by this rule in these words.
fn same_made(
    case: &[u8],
    rule: Rule,
    words: &mut [u32],
    indices: &mut [u32],
    spans: &mut [u8],
) -> bool {
    rule.put_tree(words, indices, &mut []);
    rule.put_spans(spans);
    let mut decisions: [u32; WORDS] = filled_with(0);
    let mut costs: [f32; WORDS] = filled_with(0.0);
    let mut record: [u8; BYTES] = filled_with(0);
    let mut list = [0u32; LEAVES];
    let mut side: [u8; SIDE] = filled_with(BYTE);
    converts(
        case,
        words,
        indices,
        spans,
        &mut decisions[..rule.words()],
        &mut costs[..rule.words()],
        &mut record[..rule.bytes()],
        &mut list[..rule.leaves()],
        &mut side,
    )
}

// Leaves, seed, reach, limit, order; nodes, deepest level; digests of record, list, side table; rays, and these.
pub fn timed_large(case: &[u8]) -> bool {
    let Some(rule) = Rule::of(case) else {
        return false;
    };
    let mut words: [u32; WORDS] = filled_with(0);
    let mut indices = [0u32; LEAVES];
    let mut spans: [u8; SPANS] = filled_with(0);
    same_made(
        case,
        rule,
        &mut words[..rule.words()],
        &mut indices[..rule.leaves()],
        &mut spans[..2 * rule.leaves()],
    )
}
