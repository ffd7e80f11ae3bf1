// Internal: what a timed query looks at on entry beside an untimed one: whether its spans, its side table and its quarter hour fit.
#![tactic(auto)]

ghost use Rattle.std.specs.Prelude.{◌≡◌, IfOk};
ghost use Rattle.causes.specs.Refusal.{cause_in};
ghost use Rattle.timed.specs.Hours.{timetable_of};
ghost use Rattle.timed_entry.specs.Entry.{timetable, timed_cause};

use causes::Refusal;
use timed::Hours;

// The bytes of a node in a side table.
const ROW: usize = 16;

// What a walk at a quarter hour reads beside a record, or cause 14.
pub fn hours_of<'a>(
    record: &[u8],
    side: &'a [u8],
    indices: &'a [u32],
    panes: usize,
    spans: &'a [u8],
    quarter: u8,
) -> Result<Hours<'a>, Refusal>
    ensures value { cause_in result ≡ timed_cause «record».now (timetable side.now indices.now panes spans.now quarter) }
    ensures hours { IfOk result (λ h. timetable_of h ≡ timetable side.now indices.now panes spans.now quarter) }
{
    if !span::spans_fit(panes, spans) {
        return Err(Refusal::SpansUnfit);
    }
    let rows = ROW * (record.len() / node::BYTES);
    if side.len() != rows {
        return Err(Refusal::SpansUnfit);
    }
    if !span::quarter_fits(quarter) {
        return Err(Refusal::SpansUnfit);
    }
    Ok(Hours {
        side,
        indices,
        panes,
        spans,
        quarter,
    })
}
