// Converts stored trees with their children ordered and with them as gathered, and compares what rays meet in both records, and whether they are
// blocked, with what is stored, and reports of losses over both. Its argument names a file of answers; how these are made and laid out is said in
// oracle/README.md.
#![tactic(auto)]

mod pairs;
mod rays;
mod reports;
mod trees;

use std::io;

// Whether the library agrees with a case, whose kind the file tells by a number.
fn agrees(kind: u32, case: &[u8]) -> bool {
    match kind {
        47 => trees::both_ways(case),
        _ => false,
    }
}

fn main(rt: HostRuntime) -> io::Result<()> {
    let all = stored::replay(&rt, 1, |kind, case| Ok(agrees(kind, case)))?;
    stored::print_verdict(&rt, all)
}
