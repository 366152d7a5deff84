// The number that a probe gets, the smallest betraying input, the lowest output that shows it there and the way, or that the pin is
// hidden, and what stands in the lent buffer from a place on: behind the netlist's file, every line's value from line 0 up.
use std::io;
use std::io::Write;
use stuck::{Probed, Way};
use text::print::Signs;
use text::{print, spelling};

// What is shown behind a refusal.
const ZERO: Probed = Probed {
    input: 0,
    output: 0,
    way: Way::BothLow,
};

pub fn show<W: Write>(out: &mut W, table: &[u8], case: &[u8]) -> io::Result<()> {
    let len = spelling::number(out, case, 1, 10610)?;
    let from = spelling::number(out, case, 2, 10610)?;
    let mut lent = [b'.'; 10609];
    let lines = &mut lent[..len];
    let probed = probe::probe(table, reader::nth(case, 3), lines);
    let number = print::refusal(&probed);
    let Probed { input, output, way } = probed.unwrap_or(ZERO);
    let way = match way {
        Way::BothLow => "both low",
        Way::BothHigh => "both high",
        Way::Hidden => "hidden",
    };
    write!(
        out,
        ": {number}, input {input}, output {output}, {way}, lines {}",
        Signs(&lines[from.min(len)..])
    )
}
