// Timed any-hit, closest and miss on a stored question: a ray's eight floats, its quarter hour, how many panes any-hit is given, the words that it is
// lent, and the three answers.
ghost use Rattle.std.specs.Prelude.{◌+◌, ◌≤◌};

use stored::{WORD, beam, behind, byte, wide, word};

// Room for the words lent with guard words past them.
const SPACE: usize = 1600;

// A stored record with its side table, index words, panes and spans.
#[derive(Clone, Copy)]
pub struct Site<'a> {
    pub record: &'a [u8],
    pub side: &'a [u8],
    pub list: &'a [u32],
    pub panes: &'a [f32],
    pub spans: &'a [u8],
}

// Whether any-hit answers as stored, where it is lent the first of these words.
fn any_hit_answers(asked: &[u8], site: Site, space: &mut [u32]) -> bool {
    let lent = word(asked, 11) as usize;
    if lent > space.len() {
        return false;
    }
    let found = any_hit_timed::any_hit_timed(
        site.record,
        site.side,
        site.list,
        wide(asked, 9) as usize,
        site.spans,
        beam(asked, 0),
        byte(asked, 8),
        &mut space[..lent],
    );
    stored_answers::same_any_hit(behind(asked, 12), found, space)
}

// Whether any-hit answers as stored.
fn same_any_hit(asked: &[u8], site: Site) -> bool {
    let mut space = [WORD; SPACE];
    any_hit_answers(asked, site, &mut space)
}

// Whether closest answers as stored from word `at` on.
fn same_closest(asked: &[u8], at: usize, site: Site) -> bool {
    let found = closest_timed::closest_timed(
        site.record,
        site.side,
        site.list,
        site.panes,
        site.spans,
        beam(asked, 0),
        byte(asked, 8),
    );
    stored_answers::same_closest(behind(asked, at), found)
}

// Whether miss answers as stored from word `at` on.
fn same_miss(asked: &[u8], at: usize, site: Site) -> bool {
    let found = closest_timed::miss_timed(
        site.record,
        site.side,
        site.list,
        site.panes,
        site.spans,
        beam(asked, 0),
        byte(asked, 8),
    );
    stored_answers::same_miss(behind(asked, at), found)
}

// Where a part that starts with its count at word `at` ends.
fn past(asked: &[u8], at: usize) -> usize
    requires { at ≤ 1099511627776 }
    ensures { result ≤ at + 4294967296 }
{
    at + 1 + word(asked, at) as usize
}

// The words of a question, if any-hit, closest and miss answer it as stored.
pub fn question_words(asked: &[u8], site: Site) -> Option<usize> {
    let closest = past(asked, 14);
    let miss = past(asked, closest + 2);
    let end = past(asked, miss + 2);
    let same = same_any_hit(asked, site)
        && same_closest(asked, closest, site)
        && same_miss(asked, miss, site);
    same.then_some(end)
}
