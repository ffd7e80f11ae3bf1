// Internal: walks at a quarter hour of the day: what they ask beside boxes, of slots and of positions. The published code has none.
#![tactic(auto)]

ghost use Rattle.std.specs.Prelude.{◌≡◌, ◌+◌, ◌*◌, ◌≤◌, length, cond};
ghost use Rattle.span.specs.Span.{holds, span_at};
ghost use Rattle.timed.specs.Masks.{Masks};

use causes::Refusal;
use gate::Gate;

// The bytes of a node in a side table: two to each slot.
const ROW: usize = 16;

// What a walk at a quarter hour reads beside the record: a side table, an index list, a count of panes and the list of their spans.
#[derive(Clone, Copy)]
pub struct Hours<'a> {
    pub side: &'a [u8],
    pub indices: &'a [u32],
    pub panes: usize,
    pub spans: &'a [u8],
    pub quarter: u8,
    pub ghost fits: { length spans.now ≡ 2 * panes },
}

// All that as one pointer, which goes in a register.
#[derive(Clone, Copy)]
pub struct AtQuarter<'a> {
    pub hours: &'a Hours<'a>,
}

// All bits of a slot's byte, or none.
fn mask(whole: bool) -> u8
    ensures { result ≡ cond whole 255 0 }
{
    if whole { 255 } else { 0 }
}

// A byte for each slot of the node whose spans begin with span `at` of a side table: all bits where its span holds the quarter hour. The loop
// compiles to no branch.
fn open_slots(side: &[u8], at: usize, quarter: u8) -> u64
    requires { 2 * at + 16 ≤ length side.now }
    ensures { Masks (λ k. holds (span_at side.now (at + k)) quarter) result }
{
    let mut masks = [0u8; 8];
    for k in 0..8 {
        masks[k] = mask(span::span_at(side, at + k).holds(quarter));
    }
    words::load_u64(&masks, 0)
}

impl Hours<'_> {
    ghost use Rattle.timed.specs.Hours.{timetable_of, pane_at};

    // The pane that position p names, if it names one.
    fn pane(&self, p: usize) -> Option<usize>
        ensures { result ≡ pane_at (timetable_of self.now) p }
    {
        if p >= self.indices.len() {
            return None;
        }
        let pane = self.indices[p] as usize;
        if pane >= self.panes {
            return None;
        }
        Some(pane)
    }
}

impl Gate for AtQuarter<'_> {
    ghost use Rattle.timed.specs.Hours.{timetable_of, gates_at};

    ghost gates = { λ g. gates_at (timetable_of g.hours.now) };

    // A node without a row has no open slot.
    fn keep_open(self, v: usize, marks: u64) -> u64 {
        let h = self.hours;
        if v >= h.side.len() / ROW {
            return 0;
        }
        marks & open_slots(h.side, 8 * v, h.quarter)
    }

    fn admits(self, p: usize) -> Result<bool, Refusal> {
        let h = self.hours;
        let Some(pane) = h.pane(p) else {
            return Err(Refusal::Fault);
        };
        Ok(span::span_at(h.spans, pane).holds(h.quarter))
    }

    fn forged(self) -> bool {
        !span::quarter_fits(self.hours.quarter)
    }
}
