// Runs stored lists of a walker's calls on stored records, and compares each step, and the walker at the end, with what is stored.
// Its argument names a file of answers; how these are made and laid out is said in oracle/README.md.
#![tactic(auto)]

mod calls;
mod walkers;
mod walks;

use std::io;

fn main(rt: HostRuntime) -> io::Result<()> {
    let all = stored::replay(&rt, 1, |kind, case| Ok(walks::agrees(kind, case)))?;
    stored::print_verdict(&rt, all)
}
