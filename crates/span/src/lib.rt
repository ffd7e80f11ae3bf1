// Internal: spans of quarter hours, as a list holds them for panes, and the narrowest span that holds two. The published code has none.
#![tactic(auto)]

ghost use Rattle.std.specs.Prelude.{◌≡◌, ℕ, ◌+◌, ◌*◌, ◌<◌, length, get_or};
ghost use Rattle.span.specs.Span.{holds, span_at, quarter_fits, span_fits, spans_fit};
ghost use Rattle.span.specs.Hull.{hull, joined};

// The last quarter hour of a day.
const LAST_QUARTER: u8 = 95;

// How many bytes a span takes in a list.
pub const BYTES: usize = 2;

// Quarter hours from a first to a last, both included.
#[derive(Clone, Copy)]
pub struct Span {
    pub first: u8,
    pub last: u8,
}

impl Span {
    // Whether a quarter hour lies in the span.
    #[tactic(auto, unfolding(crate::specs::Span::holds))]
    pub fn holds(self, quarter: u8) -> bool
        ensures { result ≡ holds self quarter }
    {
        self.first <= quarter && quarter <= self.last
    }

    // Whether it is a span of a day. Both tests are made, so that a loop of them compiles to no branch.
    #[tactic(auto, unfolding(crate::specs::Span::span_fits, crate::specs::Span::quarter_fits))]
    fn fits(self) -> bool
        ensures { result ≡ span_fits self }
    {
        (self.first <= self.last) & (self.last <= LAST_QUARTER)
    }

    // The narrowest span that holds both.
    #[tactic(auto, unfolding(crate::specs::Hull::joined))]
    pub fn joined(self, other: Span) -> Span
        ensures { result ≡ joined self other }
    {
        Span {
            first: u8::min(self.first, other.first),
            last: u8::max(self.last, other.last),
        }
    }
}

// Whether a quarter hour is one of a day.
#[tactic(auto, unfolding(crate::specs::Span::quarter_fits))]
pub fn quarter_fits(quarter: u8) -> bool
    ensures { result ≡ quarter_fits quarter }
{
    quarter <= LAST_QUARTER
}

// The span of pane k.
pub fn span_at(spans: &[u8], k: usize) -> Span
    requires { 2 * k + 1 < length spans.now }
    ensures { result ≡ span_at spans.now k }
{
    Span {
        first: spans[BYTES * k],
        last: spans[BYTES * k + 1],
    }
}

// Whether there is a span for each of so many panes, and each is one of a day. Each span is looked at whatever the others are, and is loaded as one
// number, so that the loop compiles to wide loads and compares: by single bytes these would be put into their places one after the other.
pub fn spans_fit(panes: usize, spans: &[u8]) -> bool
    ensures { result ≡ spans_fit panes spans.now }
{
    if spans.len() % BYTES != 0 || spans.len() / BYTES != panes {
        return false;
    }
    let (pairs, _) = spans.as_chunks::<BYTES>();
    let mut fit = true;
    for pair in pairs {
        let [first, last] = u16::from_le_bytes(*pair).to_le_bytes();
        fit &= Span { first, last }.fits();
    }
    fit
}

// The narrowest span over some panes, one at least.
pub fn hull(spans: &[u8], panes: &[u32]) -> Span
    requires { (0 < length panes.now) × ((i : ℕ) → i < length panes.now → 2 * get_or panes.now i 0 + 1 < length spans.now) }
    ensures { result ≡ hull spans.now panes.now }
{
    let mut hull = span_at(spans, panes[0] as usize);
    for &k in &panes[1..] {
        hull = hull.joined(span_at(spans, k as usize));
    }
    hull
}
