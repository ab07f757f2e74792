// Replays stored tree files through the check, and prints what it answers to each.
//
// A line of the standard input is a title, a space, and the bytes of a file in hexadecimal. A line of the output is the
// title and `passes`, or the title and `R` with the number, the node and the row of the first fault; or `bad-line`.
// The expected answers were computed by models of the format and not by the check: those titled `random` and `script`
// by one that others wrote, the rest by one of the check's own authors.
// None of the files has too many records or names: it would be too large to store.
#![tactic(auto)]

mod hex;
mod replay;

use replay::answer;
use std::io;
use std::io::{BufRead, BufReader};

fn main(rt: HostRuntime) -> io::Result<()> {
    let heap = rt.alloc();
    for line in BufReader::new(heap, rt.stdin())?.lines(heap) {
        let line = line?;
        rt.println(answer(heap, line.as_str())?)?;
    }
    Ok(())
}
