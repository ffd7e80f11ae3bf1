// checkrecord: reads a little-endian word n and the bytes of a record from standard input, to its end, and prints `sound LEVEL`, `unsound` or
// `refused NUMBER`. Input that can't be read whole, since a read fails, is `refused 1`.
#![tactic(auto)]

use std::io;

fn main(rt: HostRuntime) -> io::Result<()> {
    let mut line = [0u8; 19];
    match check_text::answer(&mut rt.stdin(), &mut line) {
        Ok(long) => rt.write_all(&line[..long]),
        Err(_) => rt.println("refused 1"),
    }
}
