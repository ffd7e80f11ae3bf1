// Closest and miss at a quarter hour: only panes whose spans hold it are met. The published code has neither.
#![tactic(auto)]

ghost use Rattle.std.specs.Prelude.{◌≡◌, IfOk};
ghost use Rattle.causes.specs.Refusal.{cause_in};
ghost use Rattle.ray.specs.Ray.{ray_from};
ghost use Rattle.pane_walk.specs.Panes.{closest_result, miss_result};
ghost use Rattle.timed.specs.Hours.{timetable_of};
ghost use Rattle.timed_entry.specs.Entry.{timed_cause};
ghost use Rattle.closest_timed.specs.Timed.{pane_timetable, closest_timed_of, miss_timed_of};

use causes::Refusal;
use gate::AllOpen;
use pane_walk::IndexedPanes;
pub use pane_walk::{ClosestFound, ClosestHit, MissFound, Occlusion};
use ray::Beam;
use timed::{AtQuarter, Hours};

// What a walk among panes at a quarter hour reads beside the record, or cause 14.
fn hours_over<'a>(
    record: &[u8],
    side: &'a [u8],
    on: IndexedPanes<'a>,
    spans: &'a [u8],
    quarter: u8,
) -> Result<Hours<'a>, Refusal>
    ensures value { cause_in result
        ≡ timed_cause «record».now (pane_timetable side.now on.entry.indices.now on.entry.panes.now spans.now quarter) }
    ensures hours { IfOk result (λ h. timetable_of h ≡ pane_timetable side.now on.entry.indices.now on.entry.panes.now spans.now quarter) }
{
    let count = on.panes.len() / packed::BOX;
    timed_entry::hours_of(record, side, on.indices, count, spans, quarter)
}

// The first of the panes along a ray that are there at the quarter hour: `side` is the record's side table, `spans` has two bytes to each pane.
pub fn closest_timed(
    record: &[u8],
    side: &[u8],
    indices: &[u32],
    panes: &[f32],
    spans: &[u8],
    beam: Beam,
    quarter: u8,
) -> ClosestFound
    ensures { closest_result result ≡ closest_timed_of «record».now side.now indices.now panes.now spans.now quarter (ray_from beam) }
{
    let on = IndexedPanes { indices, panes };
    match hours_over(record, side, on, spans, quarter) {
        Ok(hours) => pane_walk::closest(record, on, Ok(()), AtQuarter { hours: &hours }, beam),
        // no walk is made, so no gate is asked
        Err(refusal) => pane_walk::closest(record, on, Err(refusal), AllOpen, beam),
    }
}

// Whether a ray meets none of the panes that are there at the quarter hour at a distance that counts.
pub fn miss_timed(
    record: &[u8],
    side: &[u8],
    indices: &[u32],
    panes: &[f32],
    spans: &[u8],
    beam: Beam,
    quarter: u8,
) -> Result<MissFound, Refusal>
    ensures { miss_result result ≡ miss_timed_of «record».now side.now indices.now panes.now spans.now quarter (ray_from beam) }
{
    let on = IndexedPanes { indices, panes };
    match hours_over(record, side, on, spans, quarter) {
        Ok(hours) => pane_walk::miss(record, on, Ok(()), AtQuarter { hours: &hours }, beam),
        Err(refusal) => pane_walk::miss(record, on, Err(refusal), AllOpen, beam),
    }
}
