// Lists the records of a tree file: reads standard input, writes a line for each record, or one line for the fault.
#![tactic(auto)]

mod text;

use std::io::Read;
use text::{LIMIT, listing_of};

fn main(rt: HostRuntime) -> anyhow::Result<()> {
    let mut file = Vec::new(rt.alloc());
    rt.stdin().take(LIMIT as u64 + 1).read_to_end(&mut file)?;
    let text = listing_of(rt.alloc(), file.as_slice())?;
    rt.print(text.as_str())?;
    Ok(())
}
