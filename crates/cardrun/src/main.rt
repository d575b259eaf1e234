//! Runs the script on standard input on a new card, and prints what it writes and what stopped it.
#![tactic(auto)]

use script::{MAX_SCRIPT, refusal_line, run_script};
use std::io;
use std::io::{Read, Write};

// The bytes that one run may write.
const MAX_OUTPUT: usize = 65_536;

fn main(rt: HostRuntime) -> io::Result<()> {
    let mut input = Vec::new(rt.alloc());
    // One byte more than the longest script tells that it is too long.
    let limit = MAX_SCRIPT as u64 + 1;
    rt.stdin().take(limit).read_to_end(&mut input)?;
    let mut output = vec![in rt.alloc(); 0u8; MAX_OUTPUT]?;
    let run = run_script(&input, &mut output);
    output.truncate(run.bytes);
    rt.stdout().write_all(&output)?;
    let last = refusal_line(rt.alloc(), run.into())?;
    rt.print(last)
}
