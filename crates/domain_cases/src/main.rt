//! Asks the number domains the cases on standard input, and compares their answers with those beside the cases.
#![tactic(auto)]

mod cases;

use cases::Case;
use std::io;
use std::io::{BufRead, BufReader};

fn main(rt: HostRuntime) -> io::Result<()> {
    let heap = rt.alloc();
    // Both counts are wanted after the loop, so no index of its lines serves.
    let mut asked = 0u64;
    let mut differ = 0u64;
    for line in BufReader::new(heap, rt.stdin())?.lines(heap) {
        let line = line?;
        let holds = match line.parse::<Case>() {
            Ok(case) => case.holds(heap)?,
            Err(_) => false,
        };
        asked = asked.saturating_add(1);
        if !holds {
            differ = differ.saturating_add(1);
            println!(rt; "differs: {line}")?;
        }
    }
    println!(rt; "{asked} cases, {differ} differ")
}
