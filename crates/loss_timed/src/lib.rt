// A ray's loss at a quarter hour, and a report over rays that each have one of their own: only panes whose spans hold it are met. The published code
// has neither.
#![tactic(auto)]

ghost use Rattle.std.specs.Prelude.{◌≡◌, ◌<◌, IfOk, length};
ghost use Rattle.causes.specs.Causes.{first_cause};
ghost use Rattle.causes.specs.Refusal.{cause_in};
ghost use Rattle.ray.specs.Ray.{ray_from};
ghost use Rattle.span.specs.Span.{quarter_fits};
ghost use Rattle.timed.specs.Hours.{timetable_of};
ghost use Rattle.timed_entry.specs.Entry.{timetable};
ghost use Rattle.loss_walk.specs.Losses.{loss_result, totals_answer};
ghost use Rattle.loss_timed.specs.Timed.{quarters_fit, hours_conditions, loss_timed_of, report_timed_of};

use causes::Refusal;
use gate::AllOpen;
pub use loss_walk::RayLoss;
use loss_walk::{Scene, Walks};
use ray::{Beam, Ray};
use timed::{AtQuarter, Hours};

// What the walks of a list of rays read beside a record, and the quarter hour of each: that of `hours` is not read.
#[derive(Clone, Copy)]
struct EachQuarter<'a> {
    hours: &'a Hours<'a>,
    quarters: &'a [u8],
}

impl Walks for EachQuarter<'_> {
    ghost use Rattle.timed.specs.Hours.{timetable_of};
    ghost use Rattle.loss_timed.specs.Timed.{gates_by};

    ghost gates = { λ w. gates_by (timetable_of w.hours.now) w.quarters.now };

    ghost listed = { λ w i. i < length w.quarters.now };

    fn loss_of(
        self,
        scene: Scene,
        ray: Ray,
        i: usize,
        totals: &mut [u64],
    ) -> Result<RayLoss, Refusal> {
        let lists = *self.hours;
        let hours = Hours {
            side: lists.side,
            indices: lists.indices,
            panes: lists.panes,
            spans: lists.spans,
            quarter: self.quarters[i],
        };
        loss_walk::ray_loss(scene, ray, AtQuarter { hours: &hours }, totals)
    }
}

// Whether each byte is a quarter hour of a day.
fn quarters_fit(quarters: &[u8]) -> bool
    ensures { result ≡ quarters_fit quarters.now }
{
    quarters.iter().all(|&quarter| span::quarter_fits(quarter))
}

// What the walks of a report read beside the record, at any quarter hour, or cause 14.
fn hours_over<'a>(
    record: &[u8],
    side: &'a [u8],
    indices: &'a [u32],
    panes: usize,
    spans: &'a [u8],
    quarters: &[u8],
) -> Result<Hours<'a>, Refusal>
    ensures value { cause_in result
        ≡ first_cause (hours_conditions «record».now (timetable side.now indices.now panes spans.now 0) quarters.now) }
    ensures hours { IfOk result (λ h. timetable_of h ≡ timetable side.now indices.now panes spans.now 0) }
{
    let hours = timed_entry::hours_of(record, side, indices, panes, spans, 0)?;
    if !quarters_fit(quarters) {
        return Err(Refusal::SpansUnfit);
    }
    Ok(hours)
}

// A ray's loss to the panes that are there at the quarter hour: `side` is the record's side table, `spans` has two bytes to each pane.
pub fn loss_timed(
    record: &[u8],
    side: &[u8],
    indices: &[u32],
    panes: usize,
    spans: &[u8],
    losses: &[u32],
    beam: Beam,
    quarter: u8,
) -> Result<RayLoss, Refusal>
    ensures { loss_result result ≡ loss_timed_of «record».now side.now indices.now panes spans.now losses.now quarter (ray_from beam) }
{
    match timed_entry::hours_of(record, side, indices, panes, spans, quarter) {
        Ok(hours) => loss_walk::loss(
            record,
            indices,
            panes,
            losses,
            Ok(()),
            AtQuarter { hours: &hours },
            beam,
        ),
        // no walk is made, so no gate is asked
        Err(refusal) => loss_walk::loss(
            record,
            indices,
            panes,
            losses,
            Err(refusal),
            AllOpen,
            beam,
        ),
    }
}

// A report over many rays, each with a quarter hour of its own, a byte each beside the rays.
pub fn report_timed(
    record: &[u8],
    side: &[u8],
    indices: &[u32],
    panes: usize,
    spans: &[u8],
    losses: &[u32],
    rays: &[f32],
    quarters: &[u8],
    ray_totals: &mut [u64],
    pane_totals: &mut [u64],
) -> Result<u64, Refusal>
    ensures { record { answer = totals_answer result; ray_totals = ray_totals.new; pane_totals = pane_totals.new }
        ≡ report_timed_of «record».now side.now indices.now panes spans.now losses.now rays.now quarters.now
        ray_totals.old pane_totals.old }
{
    let fits = quarters.len() == rays.len() / packed::RAY;
    match hours_over(record, side, indices, panes, spans, quarters) {
        Ok(hours) => {
            let walks = EachQuarter {
                hours: &hours,
                quarters,
            };
            loss_walk::report(
                fits,
                record,
                indices,
                panes,
                losses,
                rays,
                Ok(()),
                walks,
                ray_totals,
                pane_totals,
            )
        }
        // no walk is made, so no gate is asked
        Err(refusal) => {
            let unfit = Err(refusal);
            loss_walk::report(
                fits,
                record,
                indices,
                panes,
                losses,
                rays,
                unfit,
                AllOpen,
                ray_totals,
                pane_totals,
            )
        }
    }
}
