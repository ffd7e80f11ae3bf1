// What a timed report is asked of, and the words that it is lent for totals.
use causes::Refusal;
use loss_timed::{loss_timed, report_timed};
use stored::{beam, word};
use stored_answers::{Totals, same_loss};

// A record with its side table and index words, and the spans and losses of so many panes.
#[derive(Clone, Copy)]
pub struct Priced<'a> {
    pub record: &'a [u8],
    pub side: &'a [u8],
    pub list: &'a [u32],
    pub panes: usize,
    pub spans: &'a [u8],
    pub losses: &'a [u32],
}

impl Priced<'_> {
    // Whether the single call answers as stored for a ray's eight floats at a quarter hour.
    pub fn loses(self, ray: &[u8], quarter: u8, answer: &[u8]) -> bool {
        let found = loss_timed(
            self.record,
            self.side,
            self.list,
            self.panes,
            self.spans,
            self.losses,
            beam(ray, 0),
            quarter,
        );
        same_loss(answer, found)
    }
}

// Rays with a quarter hour each.
#[derive(Clone, Copy)]
pub struct Rays<'a> {
    pub floats: &'a [f32],
    pub quarters: &'a [u8],
}

// The words lent for the totals of rays and of panes, with guard words past them.
#[derive(Drop)]
pub struct Spaces<'a> {
    pub rays: &'a mut [u64],
    pub panes: &'a mut [u64],
}

impl Spaces<'_> {
    // What a report answers that is lent the first of these words, as many as words 9 and 10 of a case say; none where they say more than there are.
    pub fn report(
        &mut self,
        case: &[u8],
        priced: Priced,
        rays: Rays,
    ) -> Option<Result<u64, Refusal>> {
        let ray_totals = self.rays.get_mut(..word(case, 9) as usize)?;
        let pane_totals = self.panes.get_mut(..word(case, 10) as usize)?;
        Some(report_timed(
            priced.record,
            priced.side,
            priced.list,
            priced.panes,
            priced.spans,
            priced.losses,
            rays.floats,
            rays.quarters,
            ray_totals,
            pane_totals,
        ))
    }

    // The words with the totals of so many rays and panes in front.
    pub fn totals(&self, rays: usize, panes: usize) -> Totals<'_> {
        Totals {
            rays,
            panes,
            ray_words: self.rays,
            pane_words: self.panes,
        }
    }
}
