// The walk of a ray at a quarter hour, step by step. A walker with a quarter hour over 95 is forged. The published code has none.
#![tactic(auto)]

ghost use Rattle.std.specs.Prelude.{◌≡◌};
ghost use Rattle.ray.specs.Ray.{ray_from};
ghost use Rattle.causes.specs.Refusal.{cause_number};
ghost use Rattle.walk.specs.Step as S;
ghost use Rattle.walk.specs.WordStep.{stay_words};
ghost use Rattle.walk_record.specs.WalkRay.{rays_of};
ghost use Rattle.walk_record.specs.Walk.{step_at};
ghost use Rattle.traverse.specs.Walker.{walker_words};
ghost use Rattle.traverse_timed.specs.Walker.{at_quarter};
ghost use Rattle.traverse_timed.specs.Walker.{timed_words, timed_stepped_of, timed_started_of, timed_started, timed_step_bytes, timed_told};

pub use advance::Answer;
use advance::CwBvh;
use causes::Refusal;
use gate::Gate;
use ray::Beam;
use timed::{AtQuarter, Hours};
pub use traverse::Walker;

// A walker, and the quarter hour of its ray.
#[derive(Clone, Copy)]
pub struct TimedWalker {
    pub walker: Walker,
    pub quarter: u8,
}

// The walker after a step, and what the step did.
#[derive(Clone, Copy)]
pub struct TimedStepped {
    pub walker: TimedWalker,
    pub answer: Answer,
}

impl TimedWalker {
    // A walker that has the first node before it, for a ray of this quarter hour.
    pub fn new(beam: Beam, quarter: u8) -> Result<TimedWalker, Refusal>
        ensures { timed_started_of result ≡ timed_started (ray_from beam) quarter }
    {
        if !span::quarter_fits(quarter) {
            return Err(Refusal::SpansUnfit);
        }
        match Walker::new(beam) {
            Ok(walker) => Ok(TimedWalker { walker, quarter }),
            Err(refusal) => Err(refusal),
        }
    }

    // The walker as it was, refused.
    fn refused(self, refusal: Refusal) -> TimedStepped
        ensures { timed_stepped_of result
            ≡ at_quarter self.quarter (stay_words (walker_words self.walker) (S.refused (cause_number refusal))) }
    {
        TimedStepped {
            walker: self,
            answer: Answer::Refused(refusal),
        }
    }

    // A step of a walk beside a gate, on a record whose sizes fit.
    fn step_on<G: Gate>(self, bvh: CwBvh, gate: G) -> TimedStepped
        ensures { timed_stepped_of result ≡ at_quarter self.quarter
            (step_at bvh.entry.bytes.now (rays_of (G.gates gate)) bvh.entry.positions (walker_words self.walker)) }
    {
        let walker = self.walker;
        let mut stack = walker.stack;
        let t = walk_step::step(
            walker.walk,
            walker.ray,
            walker.octant,
            gate,
            &mut stack,
            bvh,
        );
        let walk = t.walk;
        TimedStepped {
            walker: TimedWalker {
                walker: Walker {
                    walk,
                    stack,
                    ..walker
                },
                ..self
            },
            answer: t.answer,
        }
    }

    // Tests one node, reports one position whose own span holds the quarter hour, or is done; a refused step gives the walker back. The span list is
    // looked at whole in each step.
    pub fn step(
        self,
        record: &[u8],
        side: &[u8],
        indices: &[u32],
        panes: usize,
        spans: &[u8],
    ) -> TimedStepped
        ensures { timed_stepped_of result ≡ timed_step_bytes «record».now side.now indices.now panes spans.now (timed_words self) }
    {
        let n = indices.len();
        if let Err(refusal) = causes::record_sizes(record.len(), n) {
            return self.refused(refusal);
        }
        // a quarter hour that fits, since a walker's own that does not is another cause
        match timed_entry::hours_of(record, side, indices, panes, spans, 0) {
            Ok(_) => {
                let quarter = self.quarter;
                let hours = Hours {
                    side,
                    indices,
                    panes,
                    spans,
                    quarter,
                };
                let bvh = CwBvh {
                    bytes: record,
                    positions: n,
                };
                self.step_on(bvh, AtQuarter { hours: &hours })
            }
            Err(refusal) => self.refused(refusal),
        }
    }

    // Tells the walker a distance, as an untimed one is told; the quarter hour stays.
    pub fn tell(self, distance: f32) -> TimedWalker
        ensures { timed_words result ≡ timed_told distance (timed_words self) }
    {
        let walker = self.walker.tell(distance);
        TimedWalker { walker, ..self }
    }
}
