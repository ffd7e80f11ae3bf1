// Reports of losses over both records of a tree.
use crate::pairs::{Glazed, MOST_LEAVES, Pair};
use causes::Refusal;
use stored::TOTAL;

// The most rays of a stored tree.
const MOST_RAYS: usize = 8;

// The words of totals of rays and of panes, all of which are lent.
#[derive(Clone, Copy, PartialEq)]
struct Totals {
    rays: [u64; MOST_RAYS],
    panes: [u64; MOST_LEAVES],
}

// What a report answers, and what it leaves in the words.
fn reported(house: Glazed, rays: &[f32]) -> (Result<u64, Refusal>, Totals) {
    let mut totals = Totals {
        rays: [TOTAL; MOST_RAYS],
        panes: [TOTAL; MOST_LEAVES],
    };
    let answer = loss::report(
        house.record,
        house.list,
        house.panes.losses.len(),
        house.panes.losses,
        rays,
        &mut totals.rays,
        &mut totals.panes,
    );
    (answer, totals)
}

// Whether the reports of these rays over both records make so many tests, and leave the same totals.
pub fn same_reports(pair: Pair, rays: &[f32], tests: u64) -> bool {
    let (answer, totals) = reported(pair.ordered, rays);
    answer == Ok(tests) && reported(pair.gathered, rays) == (answer, totals)
}
