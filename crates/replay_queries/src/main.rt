// Runs any-hit, closest and miss on stored records and rays, and compares each answer with the stored one.
// Its argument names a file of answers; how these are made and laid out is said in oracle/README.md.
#![tactic(auto)]

mod any;
mod nearest;
mod queries;

use std::io;

fn main(rt: HostRuntime) -> io::Result<()> {
    let all = stored::replay(&rt, 1, |kind, case| Ok(queries::agrees(kind, case)))?;
    stored::print_verdict(&rt, all)
}
