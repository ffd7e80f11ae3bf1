// Answers of losses: of the single call, and of a report with its totals of 64 bits, two words of a case each.
use causes::Refusal;
use loss::RayLoss;
use stored::{all_are, behind, untouched, wide, word, written};

// The words lent for the totals of so many rays and of so many panes, with guard words past them, as a report left them.
#[derive(Clone, Copy)]
pub struct Totals<'a> {
    pub rays: usize,
    pub panes: usize,
    pub ray_words: &'a [u64],
    pub pane_words: &'a [u64],
}

// Whether the single call found what is stored: a refusal's number, the sum and the node tests, 0 where there is none.
pub fn same_loss(answer: &[u8], found: Result<RayLoss, Refusal>) -> bool {
    let (number, sum, tests) = match found {
        Ok(found) => (0, found.loss, found.tests),
        Err(refusal) => (u32::from(refusal), 0, 0),
    };
    word(answer, 0) == number && wide(answer, 1) == sum && word(answer, 3) == tests
}

// Whether a report has the number and the node tests that `head` starts with; beside a refusal it leaves all words as they were lent.
fn same_head(head: &[u8], answer: Result<u64, Refusal>, left: Totals) -> bool {
    match answer {
        Ok(tests) => word(head, 0) == 0 && wide(head, 1) == tests,
        Err(refusal) => {
            word(head, 0) == u32::from(refusal)
                && wide(head, 1) == 0
                && untouched(left.ray_words)
                && untouched(left.pane_words)
        }
    }
}

// Whether a case starts with these totals.
fn same_totals(case: &[u8], totals: &[u64]) -> bool {
    totals
        .iter()
        .enumerate()
        .all(|(i, total)| wide(case, i * 2) == *total)
}

// Whether a report answers what `head` starts with, and leaves in the words, those past the lent ones too, what it should: the totals of rays and
// behind them of panes that `totals` starts with.
pub fn same_report(head: &[u8], totals: &[u8], answer: Result<u64, Refusal>, left: Totals) -> bool {
    let pane_totals = behind(totals, left.rays.saturating_mul(2));
    same_head(head, answer, left)
        && (answer.is_err()
            || written(
                left.ray_words,
                left.rays,
                |front| same_totals(totals, front),
            ) && written(
                left.pane_words,
                left.panes,
                |front| same_totals(pane_totals, front),
            ))
}

// Whether total i is x and all others are 0.
fn only(totals: &[u64], i: usize, x: u64) -> bool {
    totals
        .iter()
        .enumerate()
        .all(|(k, total)| *total == if k == i { x } else { 0 })
}

// The same where `head` goes on with one total of all rays, and that of one pane, the only one that is met.
pub fn same_report_alike(
    head: &[u8],
    pane: usize,
    answer: Result<u64, Refusal>,
    left: Totals,
) -> bool {
    let ray_total = wide(head, 3);
    let pane_total = wide(head, 5);
    same_head(head, answer, left)
        && (answer.is_err()
            || written(left.ray_words, left.rays, |front| all_are(front, ray_total))
                && written(
                    left.pane_words,
                    left.panes,
                    |front| only(front, pane, pane_total),
                ))
}
