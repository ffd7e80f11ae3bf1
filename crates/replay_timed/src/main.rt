// Runs the timed queries, steps, losses and reports on stored records, side tables and spans, and compares what they answer, and what they leave in
// lent words, with what is stored. Its arguments name three files of answers; how these are made and laid out is said in oracle/README.md.
#![tactic(auto)]

mod alike;
mod calls;
mod lent;
mod queries;
mod questions;
mod reports;
mod walks;

use std::io;

// Whether the library agrees with a case, whose kind the file tells by a number.
fn agrees(kind: u32, case: &[u8]) -> bool {
    match kind {
        51 | 52 | 53 => queries::queried(case),
        54 | 55 | 56 => walks::walked(case),
        57 => reports::reported(case),
        58 => alike::sized(case),
        _ => false,
    }
}

fn main(rt: HostRuntime) -> io::Result<()> {
    let queries = stored::replay(&rt, 1, |kind, case| Ok(agrees(kind, case)))?;
    let steps = stored::replay(&rt, 2, |kind, case| Ok(agrees(kind, case)))?;
    let losses = stored::replay(&rt, 3, |kind, case| Ok(agrees(kind, case)))?;
    stored::print_verdict(&rt, queries && steps && losses)
}
