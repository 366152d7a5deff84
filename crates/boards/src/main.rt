// Shows the cases that stand on standard input, one on each line: what a service makes of each.
#![tactic(auto)]

mod cases;
mod probes;

use std::io;
use std::io::{Read, Write};

fn main(rt: HostRuntime) -> io::Result<()> {
    // Memory is fixed, so that the length of what was read stands beside it.
    let mut text = [0u8; 65536];
    let mut reader = rt.reader();
    let mut len = 0;
    // Each read but the last gives a byte at least.
    for _ in 0..65536 {
        let count = reader.read(&mut text[len..])?;
        if count == 0 {
            break;
        }
        len += count;
    }
    let mut out = io::writer(&rt);
    cases::show_all(&mut out, &text[..len])?;
    if len == 65536 {
        writeln!(out, "too long")?;
    }
    Ok(())
}
