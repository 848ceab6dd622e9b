// Reads a constraint table from standard input, and prints every code of every part with its level and every rule,
// or the number of its refusal.

#![tactic(auto)]

use bench::levels::levels;
use bench::{Line, MOST_BYTES};
use std::io;
use std::io::Read;

fn main(rt: HostRuntime) -> io::Result<()> {
    let heap = rt.alloc();
    let mut table = Vec::new(heap);
    rt.stdin().take(MOST_BYTES).read_to_end(&mut table)?;
    match levels(heap, &table) {
        Ok(lines) => {
            // By `text`, whose contract tells the bytes, the newline too.
            for line in &lines {
                rt.print(line.text(heap)?)?;
            }
            Ok(())
        }
        Err(fault) => rt.println(Line::Refused(fault.refusal)),
    }
}
