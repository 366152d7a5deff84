// The number that a sheet gets and its length; then the bytes of the lent buffer from a place to before another, points where
// nothing is written, or, where the sheet is refused, how many bytes of the buffer keep their values. The longest sheet has 238,128
// bytes.
ghost use Rattle.std.specs.Prelude.{◌≤◌};

use crate::runs;
use std::io;
use std::io::Write;
use std::ops::Range;
use text::print::Outcome;
use text::{print, spelling};

// A netlist's sheet, and what is left of the buffer behind it.
pub fn show<W: Write>(out: &mut W, netlist: &[u8], case: &[u8]) -> io::Result<()> {
    let room = spelling::number(out, case, 1, 238129)?;
    show_part(out, netlist, room, 0..room)
}

// Some lines, of 22 bytes each, of the sheet of a row of gates.
pub fn show_row<W: Write>(out: &mut W, case: &[u8]) -> io::Result<()> {
    let mut file = [0u8; 53029];
    let len = runs::put_row(out, case, &mut file)?;
    let room = spelling::number(out, case, 1, 238129)?;
    let to = spelling::number(out, case, 3, 10825)?;
    let from = spelling::number(out, case, 2, to + 1)?;
    show_part(out, &file[..len], room, 22 * from..22 * to)
}

fn show_part<W: Write>(
    out: &mut W,
    netlist: &[u8],
    room: usize,
    part: Range<usize>,
) -> io::Result<()>
    requires { (room ≤ 238128) × (part.start ≤ part.end) × (part.end ≤ 238128) }
{
    let mut lent = [b'.'; 238128];
    let sheet = &mut lent[..room];
    let written = sheet::sheet(netlist, sheet);
    write!(out, "{}", Outcome(written, "bytes"))?;
    if written.is_err() {
        return write!(out, ", kept {}", print::kept(sheet));
    }
    writeln!(out)?;
    let lent = &lent;
    out.write_all(&lent[part])
}
