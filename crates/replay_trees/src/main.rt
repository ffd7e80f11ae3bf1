// Gathers the children of the nodes of stored binary trees and gives them slots; gives slots by stored costs, and to children with any boxes; and
// compares each answer with the stored one, bit by bit.
// Its argument names a file of answers; how these are made and laid out is said in oracle/README.md.
#![tactic(auto)]

mod gathered;
mod seats;
mod trees;

use std::io;

// Whether the library agrees with a case, whose kind the file tells by a number.
fn agrees(kind: u32, case: &[u8]) -> bool {
    match kind {
        19 => gathered::children(case),
        20 => seats::table(case),
        21 => seats::node(case),
        _ => false,
    }
}

fn main(rt: HostRuntime) -> io::Result<()> {
    let all = stored::replay(&rt, 1, |kind, case| Ok(agrees(kind, case)))?;
    stored::print_verdict(&rt, all)
}
