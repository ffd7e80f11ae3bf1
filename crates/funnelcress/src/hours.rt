// Quarter hours for C and Rust: the conversion that writes a side table beside its record, and a report over rays that each have one of their own.
ghost use Rattle.std.specs.Prelude.{◌≡◌};
ghost use Rattle.loss_timed.specs.Timed.{report_timed_of};
ghost use Rattle.funnelcress.specs.Reports.{handed_report};
ghost use Rattle.funnelcress.specs.Timed.{timed_conversion_by, handed_timed};

// The timed conversion with ordering off for order 0 and on for 1: its answer's number is made as the untimed one's, and any other order is refused
// as there. The side table is left at the front of `side`. C lends each slice on its own.
#[unsafe(no_mangle)]
pub extern "C" fn funnelcress_bvh2_to_cwbvh_timed(
    words: &[u32],
    indices: &[u32],
    limit: u32,
    order: u32,
    panes: usize,
    spans: &[u8],
    decisions: &mut [u32],
    costs: &mut [f32],
    record: &mut [u8],
    list: &mut [u32],
    side: &mut [u8],
) -> u64
    ensures { record {
      untimed = record {
        number = result;
        decisions = decisions.new;
        costs = costs.new;
        bytes = «record».new;
        list = list.new;
      };
      side = side.new;
    } ≡ handed_timed (timed_conversion_by order (λ ordered. record {
      untimed = record {
        words = words.entry.now;
        indices = indices.now;
        limit = limit;
        ordered = ordered;
        decisions = decisions.old;
        costs = costs.old;
        bytes = «record».old;
        list = list.old;
      };
      panes = panes;
      spans = spans.now;
      side = side.old;
    })) }
{
    if order > 1 {
        return super::refusal_number(super::order_refusal(words, indices.len()));
    }
    let ordered = order == 1;
    super::conversion_number(bvh2_to_cwbvh_timed::bvh2_to_cwbvh_timed(
        words, indices, limit, ordered, panes, spans, decisions, costs, record, list, side,
    ))
}

// A report at quarter hours, a byte each beside the rays: its answer's number and both totals are those of a report, over the panes that are there.
#[unsafe(no_mangle)]
pub extern "C" fn funnelcress_report_timed(
    record: &[u8],
    side: &[u8],
    indices: &[u32],
    panes: usize,
    spans: &[u8],
    losses: &[u32],
    rays: &[f32],
    quarters: &[u8],
    ray_totals: &mut [u64],
    pane_totals: &mut [u64],
) -> u64
    ensures { record { number = result; ray_totals = ray_totals.new; pane_totals = pane_totals.new }
        ≡ handed_report (report_timed_of «record».now side.now indices.now panes spans.now losses.now rays.now
        quarters.now ray_totals.old pane_totals.old) }
{
    let answer = loss_timed::report_timed(
        record,
        side,
        indices,
        panes,
        spans,
        losses,
        rays,
        quarters,
        ray_totals,
        pane_totals,
    );
    super::reports::report_number(answer)
}
