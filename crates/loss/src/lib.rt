// A ray's loss as a sum over the positions that it meets, and a report over many rays. The published code has neither: it lists the positions.
#![tactic(auto)]

ghost use Rattle.std.specs.Prelude.{◌≡◌};
ghost use Rattle.ray.specs.Ray.{ray_from};
ghost use Rattle.loss.specs.Loss.{loss_of, loss_result, report_of, totals_answer};

use causes::Refusal;
use gate::AllOpen;
pub use loss_walk::RayLoss;
use ray::Beam;

// A ray's loss: what the panes of all positions that it meets take from it, a pane as often as it is met. A position's pane is the one that its index
// word names, of `panes` in all.
pub fn loss(
    record: &[u8],
    indices: &[u32],
    panes: usize,
    losses: &[u32],
    beam: Beam,
) -> Result<RayLoss, Refusal>
    ensures { loss_result result ≡ loss_of «record».now indices.now panes losses.now (ray_from beam) }
{
    loss_walk::loss(record, indices, panes, losses, Ok(()), AllOpen, beam)
}

// A report over many rays of eight floats each, with the node tests of all: in front of `ray_totals` what each ray loses, in front of `pane_totals`
// what each pane takes from all rays together. One walk of each ray looks for faults, and where there is none another writes.
pub fn report(
    record: &[u8],
    indices: &[u32],
    panes: usize,
    losses: &[u32],
    rays: &[f32],
    ray_totals: &mut [u64],
    pane_totals: &mut [u64],
) -> Result<u64, Refusal>
    ensures { record { answer = totals_answer result; ray_totals = ray_totals.new; pane_totals = pane_totals.new }
        ≡ report_of «record».now indices.now panes losses.now rays.now
        ray_totals.old pane_totals.old }
{
    loss_walk::report(
        true,
        record,
        indices,
        panes,
        losses,
        rays,
        Ok(()),
        AllOpen,
        ray_totals,
        pane_totals,
    )
}
