// What a report is asked of, and the words that it is lent for totals of 64 bits, two words of a case each.
use causes::Refusal;
use stored::word;
use stored_answers::Totals;

// A record with its index words, and the losses of so many panes.
#[derive(Clone, Copy)]
pub struct Priced<'a> {
    pub record: &'a [u8],
    pub list: &'a [u32],
    pub panes: usize,
    pub losses: &'a [u32],
}

// The words lent for the totals of rays and of panes, with guard words past them.
#[derive(Drop)]
pub struct Spaces<'a> {
    pub rays: &'a mut [u64],
    pub panes: &'a mut [u64],
}

impl Spaces<'_> {
    // What a report answers that is lent the first of these words, as many as a case says; none where it says more than there are.
    pub fn report(
        &mut self,
        case: &[u8],
        priced: Priced,
        rays: &[f32],
    ) -> Option<Result<u64, Refusal>> {
        let ray_totals = self.rays.get_mut(..word(case, 5) as usize)?;
        let pane_totals = self.panes.get_mut(..word(case, 6) as usize)?;
        Some(loss::report(
            priced.record,
            priced.list,
            priced.panes,
            priced.losses,
            rays,
            ray_totals,
            pane_totals,
        ))
    }

    // The words with the totals of so many rays and panes in front.
    pub fn totals(&self, rays: usize, panes: usize) -> Totals<'_> {
        Totals {
            rays,
            panes,
            ray_words: self.rays,
            pane_words: self.panes,
        }
    }
}
