// A walker for C and Rust, kept in words that the caller lends: 18, and the 32 of its stack.
ghost use Rattle.std.specs.Prelude.{◌≡◌, not, eqb};
ghost use Rattle.causes.specs.Refusal.{cause_in};
ghost use Rattle.traverse.specs.Walker.{started, told_walker, step_bytes};
ghost use Rattle.advance.specs.Turn.{step_answer};
ghost use Rattle.walker_state.specs.State.{walker_in, held, is_refused, Leaves};
ghost use Rattle.packed.specs.Packed.{ray_in};
ghost use Rattle.funnelcress.specs.Walkers.{begin_cause, begun_number, step_number};

use causes::Refusal;
use traverse::Answer;

// How beginning ends, as a number.
#[tactic(auto, unfolding(crate::specs::Walkers::begun_number))]
fn begun_number(begun: Result<(), Refusal>) -> u64
    ensures { result ≡ begun_number (cause_in begun) }
{
    match begun {
        Ok(()) => 0,
        Err(refusal) => super::refusal_number(refusal),
    }
}

// Begins a walker for a ray of eight floats; refused, the words stay as they were.
#[unsafe(no_mangle)]
pub extern "C" fn funnelcress_begin(ray: &[f32], head: &mut [u64; 18], stack: &mut [u64; 32]) -> u64
    ensures value { result ≡ begun_number (begin_cause ray.now) }
    ensures leaves { Leaves (not (eqb (begin_cause ray.now) 0)) (held head.old stack.old)
        (held head.new stack.new) (started (ray_in ray.now 0)).walker }
{
    let odd = ray.len() != 8;
    if odd {
        return super::refusal_number(Refusal::LengthUnfit);
    }
    let beam = packed::beam_at(ray, 0);
    begun_number(walker_state::begin(beam, head, stack))
}

// A step's answer as a number.
#[tactic(auto, unfolding(crate::specs::Walkers::step_number, advance::specs::Turn::step_answer))]
fn step_number(answer: Answer) -> u64
    ensures { result ≡ step_number (step_answer answer) }
{
    match answer {
        Answer::Tested(node) => u64::from(node),
        Answer::Position(position) => 0x1_0000_0000 + u64::from(position),
        Answer::Done => 0x3_0000_0000,
        Answer::Refused(refusal) => super::refusal_number(refusal),
    }
}

// One step of a walker: the kind of answer, and below 2^32 the node tested, the position reported, or the number of a refusal.
#[unsafe(no_mangle)]
pub extern "C" fn funnelcress_step(
    head: &mut [u64; 18],
    stack: &mut [u64; 32],
    record: &[u8],
    n: usize,
) -> u64
    ensures value { result ≡ step_number (step_bytes «record».now n (walker_in head.old stack.old)).answer }
    ensures leaves { Leaves (is_refused (step_bytes «record».now n (walker_in head.old stack.old)).answer)
        (held head.old stack.old) (held head.new stack.new)
        (step_bytes «record».now n (walker_in head.old stack.old)).walker }
{
    step_number(walker_state::step(head, stack, record, n))
}

// Tells a walker a distance.
#[unsafe(no_mangle)]
pub extern "C" fn funnelcress_tell(head: &mut [u64; 18], stack: &mut [u64; 32], distance: f32)
    ensures { walker_in head.new stack.new
        ≡ told_walker distance (walker_in head.old stack.old) }
{
    walker_state::tell(head, stack, distance);
}
