// Any-hit at a quarter hour: the positions that a ray passes by boxes and spans, in the order of the walk. The published code has none.
#![tactic(auto)]

ghost use Rattle.std.specs.Prelude.{◌≡◌, length};
ghost use Rattle.ray.specs.Ray.{ray_from};
ghost use Rattle.any_hit_walk.specs.AnyHit.{result_of};
ghost use Rattle.timed_entry.specs.Entry.{timetable};
ghost use Rattle.any_hit_timed.specs.Timed.{any_hit_timed_of, list_timed};

pub use any_hit_walk::{AnyHit, AnyHitError};
use gate::AllOpen;
use ray::Beam;
use timed::AtQuarter;

// The positions that a ray passes at the quarter hour, in front of `list`: `side` is the record's side table, `spans` has two bytes to each of so
// many panes, and a position's pane is the one that its index word names. Nothing is written unless all fit.
pub fn any_hit_timed(
    record: &[u8],
    side: &[u8],
    indices: &[u32],
    panes: usize,
    spans: &[u8],
    beam: Beam,
    quarter: u8,
    list: &mut [u32],
) -> Result<AnyHit, AnyHitError>
    ensures result_value { result_of result
        ≡ any_hit_timed_of «record».now (timetable side.now indices.now panes spans.now quarter) (ray_from beam) (length list.old) }
    ensures list_after { list.new
        ≡ list_timed «record».now (timetable side.now indices.now panes spans.now quarter) (ray_from beam) list.old }
{
    let n = indices.len();
    match timed_entry::hours_of(record, side, indices, panes, spans, quarter) {
        Ok(hours) => any_hit_walk::any_hit(
            record,
            n,
            Ok(()),
            AtQuarter { hours: &hours },
            beam,
            list,
        ),
        // no walk is made, so no gate is asked
        Err(refusal) => any_hit_walk::any_hit(record, n, Err(refusal), AllOpen, beam, list),
    }
}
