// Runs the library on stored record nodes and compares each answer with the stored one, bit by bit.
// Its argument names a file of answers; how these are made and laid out is said in oracle/README.md.
#![tactic(auto)]

mod nodes;

use std::io;

fn main(rt: HostRuntime) -> io::Result<()> {
    let all = stored::replay(&rt, 1, |kind, case| Ok(nodes::agrees(kind, case)))?;
    stored::print_verdict(&rt, all)
}
