// Closest and miss on a stored question, among the panes of its record.
use stored::{beam, behind};

// A stored record with its index words and panes.
#[derive(Clone, Copy)]
pub struct Site<'a> {
    pub record: &'a [u8],
    pub list: &'a [u32],
    pub panes: &'a [f32],
}

// Whether closest answers as stored from word `at` on.
pub fn same_closest(asked: &[u8], at: usize, site: Site) -> bool {
    let found = closest::closest(site.record, site.list, site.panes, beam(asked, 0));
    stored_answers::same_closest(behind(asked, at), found)
}

// Whether miss answers as stored from word `at` on.
pub fn same_miss(asked: &[u8], at: usize, site: Site) -> bool {
    let found = closest::miss(site.record, site.list, site.panes, beam(asked, 0));
    stored_answers::same_miss(behind(asked, at), found)
}
