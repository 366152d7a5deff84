// The number that a run gets, what is left in the first lent buffer from a place on, every line's value from line 0 up, and in the
// second, every output's pair and the lamp's.
ghost use Rattle.std.specs.Prelude.{◌≡◌, ◌≤◌, length, IfOk, OnErr};

use std::io;
use std::io::Write;
use text::print::Signs;
use text::{print, spelling};

// A run of a netlist with what else the case says.
pub fn show<W: Write>(out: &mut W, netlist: &[u8], case: &[u8]) -> io::Result<()> {
    let lines_len = spelling::number(out, case, 1, 10610)?;
    let pairs_len = spelling::number(out, case, 5, 10610)?;
    let mut lines = [b'.'; 10609];
    let mut pairs = [b'.'; 10609];
    let lines = &mut lines[..lines_len];
    let pairs = &mut pairs[..pairs_len];
    let ran = run::run(
        netlist,
        reader::nth(case, 4),
        reader::nth(case, 3),
        lines,
        pairs,
    );
    let from = spelling::number(out, case, 2, 10610)?;
    write!(
        out,
        ": {}, lines {}, pairs {}",
        print::refusal(&ran),
        Signs(&lines[from.min(lines_len)..]),
        Signs(pairs)
    )
}

// A run of a row of gates.
pub fn show_row<W: Write>(out: &mut W, case: &[u8]) -> io::Result<()> {
    let mut file = [0u8; 53029];
    let len = put_row(out, case, &mut file)?;
    show(out, &file[..len], case)
}

// Writes a netlist with one contact, so many gates of five bytes 0, ANDs of the constant 0, and one output, the last line and the
// false rail, over bytes 0; returns its length, since no clause could speak of a file that is lent on. The case's first part says how
// many gates.
pub fn put_row<W: Write>(out: &mut W, case: &[u8], file: &mut [u8; 53029]) -> io::Result<usize>
    ensures ok { IfOk result (λ n. n ≤ length file.new) }
    ensures err { OnErr result (file.new ≡ file.old) }
{
    let count = spelling::number(out, case, 0, 10604)?;
    let gate_bytes = 5 * count;
    let [high, low] = (3 + count as u16).to_be_bytes();
    files::put_field(file, 0, 1, &[1]);
    file[4] = 4;
    files::put_number(file, 5, gate_bytes as u16);
    files::put_field(file, 7 + gate_bytes, 5, &[high, low, 0, 3]);
    Ok(14 + gate_bytes)
}
