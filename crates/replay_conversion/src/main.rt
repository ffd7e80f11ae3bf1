// Runs the conversion on stored binary trees and compares what it answers, and what it leaves in every slice, with what is stored, bit by bit; and
// likewise what showrecord prints for stored inputs. Its arguments name two files of answers; how these are made and laid out is said in
// oracle/README.md.
#![tactic(auto)]

mod shown;
mod trees;

use std::io;

// Whether the library agrees with a case, whose kind the file tells by a number.
fn agrees(kind: u32, case: &[u8]) -> bool {
    match kind {
        16 => trees::accepted(case),
        17 => trees::refused(case),
        18 => trees::lengths(case),
        40 => shown::shown(case),
        _ => false,
    }
}

fn main(rt: HostRuntime) -> io::Result<()> {
    let converted = stored::replay(&rt, 1, |kind, case| Ok(agrees(kind, case)))?;
    let shown = stored::replay(&rt, 2, |kind, case| Ok(agrees(kind, case)))?;
    stored::print_verdict(&rt, converted && shown)
}
