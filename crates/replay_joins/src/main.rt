// Joins stored trees, and large ones that are made by a rule, and compares answers and lent words with what is stored. Its argument names a file of
// answers; how these are made and laid out is said in oracle/README.md.
#![tactic(auto)]

mod calls;
mod made;
mod ruled;
mod trees;

use std::io;

// Whether the library agrees with a case, whose kind the file tells by a number.
fn agrees(kind: u32, case: &[u8]) -> bool {
    match kind {
        45 => trees::joined(case),
        46 => ruled::sized(case),
        _ => false,
    }
}

fn main(rt: HostRuntime) -> io::Result<()> {
    let all = stored::replay(&rt, 1, |kind, case| Ok(agrees(kind, case)))?;
    stored::print_verdict(&rt, all)
}
