// Runs the timed conversion on stored binary trees with spans, and compares what it answers, and what it leaves in every slice, with what is stored,
// bit by bit. Its argument names a file of answers; how these are made and laid out is said in oracle/README.md.
#![tactic(auto)]

mod accepted;
mod asked;
mod refused;

use std::io;

// Whether the library agrees with a case, whose kind the file tells by a number.
fn agrees(kind: u32, case: &[u8]) -> bool {
    match kind {
        48 => accepted::accepted(case),
        49 => refused::refused(case),
        50 => refused::lengths(case),
        _ => false,
    }
}

fn main(rt: HostRuntime) -> io::Result<()> {
    let all = stored::replay(&rt, 1, |kind, case| Ok(agrees(kind, case)))?;
    stored::print_verdict(&rt, all)
}
