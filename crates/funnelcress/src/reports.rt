// A report over many rays for C and Rust: what each ray loses, and what each pane takes from all rays together.
ghost use Rattle.std.specs.Prelude.{◌≡◌};
ghost use Rattle.loss.specs.Loss.{report_of, totals_answer};
ghost use Rattle.funnelcress.specs.Reports.{report_number, handed_report};

use causes::Refusal;

// A report's answer as a number, whatever quarter hours its rays have.
#[tactic(auto, unfolding(crate::specs::Reports::report_number, loss::specs::Loss::totals_answer))]
pub fn report_number(report: Result<u64, Refusal>) -> u64
    ensures { result ≡ report_number (totals_answer report) }
{
    match report {
        Ok(tests) => tests,
        Err(refusal) => super::refusal_number(refusal),
    }
}

// A report for rays of eight floats each: the node tests of all rays, or kind 2 with the number of a refusal. The totals
// are at the fronts of the slices lent, each by itself.
#[unsafe(no_mangle)]
pub extern "C" fn funnelcress_report(
    record: &[u8],
    indices: &[u32],
    panes: usize,
    losses: &[u32],
    rays: &[f32],
    ray_totals: &mut [u64],
    pane_totals: &mut [u64],
) -> u64
    ensures { record { number = result; ray_totals = ray_totals.new; pane_totals = pane_totals.new }
        ≡ handed_report (report_of «record».now indices.now panes losses.now rays.now
        ray_totals.old pane_totals.old) }
{
    let answer = loss::report(
        record,
        indices,
        panes,
        losses,
        rays,
        ray_totals,
        pane_totals,
    );
    report_number(answer)
}
