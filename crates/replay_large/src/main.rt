// Makes large trees by a rule, converts them, checks the records and asks all queries of them; and converts such trees with spans, and asks any-hit
// at quarter hours. Digests of what is written, and all answers, are compared with the stored ones. Its arguments name two files of answers; how
// these are made and laid out is said in oracle/README.md.
#![tactic(auto)]

mod made;
mod rays;
mod timed_trees;
mod trees;

use std::io;

// Whether the library agrees with a case, whose kind the file tells by a number.
fn agrees(kind: u32, case: &[u8]) -> bool {
    match kind {
        42 => trees::large(case),
        59 => timed_trees::timed_large(case),
        _ => false,
    }
}

fn main(rt: HostRuntime) -> io::Result<()> {
    let large = stored::replay(&rt, 1, |kind, case| Ok(agrees(kind, case)))?;
    let timed = stored::replay(&rt, 2, |kind, case| Ok(agrees(kind, case)))?;
    stored::print_verdict(&rt, large && timed)
}
