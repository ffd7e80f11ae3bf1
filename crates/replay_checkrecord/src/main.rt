// Runs what checkrecord does, from a reader to a line, on files that hold the stored inputs, and compares each line with the stored one. Inputs that
// are longer than any record are stored by their length. Its argument names a file of answers; how these are made and laid out is said in
// oracle/README.md.
#![tactic(auto)]

mod inputs;

use std::env::Env;
use std::fs::Files;
use std::io;

// Runs the file that the first argument names. The input's files are closed before the last line is printed.
fn run<R: Files + Env + Print + AllocGlobal>(rt: &R) -> io::Result<bool> {
    let mut input = inputs::open(rt)?;
    stored::replay(rt, 1, |kind, case| inputs::agrees(kind, case, &mut input))
}

fn main(rt: HostRuntime) -> io::Result<()> {
    stored::print_verdict(&rt, run(&rt)?)
}
