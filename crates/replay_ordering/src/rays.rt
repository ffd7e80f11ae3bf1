// What a ray meets and loses in both records of a tree, and whether it is blocked: as its stored answer says, which is its node tests, 1 if it is
// blocked, how many panes it meets, and these in rising order, each as often as it is met.
use crate::pairs::{Glazed, MOST_LEAVES, Pair, loss_of};
use closest::{ClosestHit, Occlusion};
use stored::{WORD, beam, behind, word, written_words};

// Puts the index words of positions in their place, in rising order; answers whether each position has one.
fn put_panes(positions: &mut [u32], list: &[u32]) -> bool {
    for i in 0..positions.len() {
        let Some(pane) = list.get(positions[i] as usize) else {
            return false;
        };
        positions[i] = *pane;
    }
    positions.sort_unstable();
    true
}

// Whether any-hit, lent these words, lists as many positions as an answer says, by as many tests, whose panes are the stored ones.
fn meets(ray: &[u8], answer: &[u8], house: Glazed, words: &mut [u32]) -> bool {
    let n = house.list.len();
    if n > words.len() {
        return false;
    }
    let Ok(found) = any_hit::any_hit(house.record, n, beam(ray, 0), &mut words[..n]) else {
        return false;
    };
    let count = found.count as usize;
    let Some(positions) = words.get_mut(..count) else {
        return false;
    };
    found.tests == word(answer, 0)
        && found.count == word(answer, 2)
        && put_panes(positions, house.list)
        && written_words(behind(answer, 3), words, count)
}

// What the panes of an answer take together.
fn taken(answer: &[u8]) -> u64 {
    (0..word(answer, 2) as usize).fold(
        0u64,
        |sum, i| sum.saturating_add(u64::from(loss_of(word(answer, 3 + i)))),
    )
}

// Whether a ray's loss is what the panes of an answer take, by as many tests.
fn loses(ray: &[u8], answer: &[u8], house: Glazed) -> bool {
    let panes = house.panes.losses.len();
    match loss::loss(
        house.record,
        house.list,
        panes,
        house.panes.losses,
        beam(ray, 0),
    ) {
        Ok(found) => found.tests == word(answer, 0) && found.loss == taken(answer),
        Err(_) => false,
    }
}

// Whether a ray is blocked where an answer says so, and closest then has a hit, and only then.
fn blocks(ray: &[u8], answer: &[u8], house: Glazed) -> bool {
    let blocked = word(answer, 1) == 1;
    let boxes = house.panes.boxes;
    let hit = match closest::closest(house.record, house.list, boxes, beam(ray, 0)).answer {
        ClosestHit::Hit(..) => blocked,
        ClosestHit::NoHit => !blocked,
        ClosestHit::Refused(_) => false,
    };
    match closest::miss(house.record, house.list, boxes, beam(ray, 0)) {
        Ok(found) => hit && (found.answer == Occlusion::Blocked) == blocked,
        Err(_) => false,
    }
}

// Whether a ray meets and loses in a record what an answer says, and is blocked where it says so.
fn same_met(ray: &[u8], answer: &[u8], house: Glazed) -> bool {
    let mut words = [WORD; MOST_LEAVES];
    meets(ray, answer, house, &mut words) && loses(ray, answer, house) && blocks(ray, answer, house)
}

// The words of an answer.
fn answer_words(answer: &[u8]) -> usize {
    word(answer, 2) as usize + 3
}

// The node tests of all rays in one record, whose eight floats each stand in `floats`, if each meets and loses in both records what its answer says
// and the answers end the case.
pub fn all_tests(floats: &[u8], answers: &[u8], pair: Pair) -> Option<u64> {
    let mut rest = answers;
    let mut tests = 0u64;
    for ray in floats.chunks_exact(32) {
        let long = answer_words(rest);
        if long > rest.len() / 4 {
            return None;
        }
        if !same_met(ray, rest, pair.ordered) || !same_met(ray, rest, pair.gathered) {
            return None;
        }
        tests = tests.saturating_add(u64::from(word(rest, 0)));
        rest = behind(rest, long);
    }
    rest.is_empty().then_some(tests)
}
