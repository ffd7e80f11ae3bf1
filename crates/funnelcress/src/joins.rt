// Two trees joined for C and Rust.
ghost use Rattle.std.specs.Prelude.{◌≡◌};
ghost use Rattle.join.specs.Join.{join_of, joining_answer};
ghost use Rattle.funnelcress.specs.Joins.{join_number, handed_join};

use causes::Refusal;

// A joined tree's answer as a number.
#[tactic(auto, unfolding(crate::specs::Joins::join_number, join::specs::Join::joining_answer))]
fn join_number(joined: Result<u32, Refusal>) -> u64
    ensures { result ≡ join_number (joining_answer joined) }
{
    match joined {
        Ok(leaves) => u64::from(leaves),
        Err(refusal) => super::refusal_number(refusal),
    }
}

// Two trees as one, at the fronts of `words` and `indices`: how many leaves it has, or kind 2 with the number of a refusal.
// C lends each slice by itself.
#[unsafe(no_mangle)]
pub extern "C" fn funnelcress_join(
    first: &[u32],
    first_indices: &[u32],
    first_panes: usize,
    second: &[u32],
    second_indices: &[u32],
    marks: &mut [u32],
    words: &mut [u32],
    indices: &mut [u32],
) -> u64
    ensures { record { number = result; marks = marks.new; words = words.new; indices = indices.new }
        ≡ handed_join (join_of (record {
          first = first.entry.now;
          first_indices = first_indices.now;
          panes = first_panes;
          second = second.now;
          second_indices = second_indices.now;
          marks = marks.old;
          words = words.old;
          indices = indices.old;
        })) }
{
    let answer = join::join(
        first,
        first_indices,
        first_panes,
        second,
        second_indices,
        marks,
        words,
        indices,
    );
    join_number(answer)
}
