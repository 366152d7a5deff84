// The number that a drawing gets and the length of its table; then the lent bytes, points where nothing is written.
ghost use Rattle.std.specs.Prelude.{◌≡◌, ◌≤◌, length, IfOk, OnErr};

use files::Refusal;
use std::io;
use std::io::Write;
use text::print::{Outcome, Signs};
use text::spelling;

// The table of a drawing.
pub fn show<W: Write>(out: &mut W, drawing: &[u8], case: &[u8]) -> io::Result<()> {
    show_table(out, drawing, case, |drawing, table| {
        truths::from_drawing(drawing, table)
    })
}

// The table that a service makes of a file, in as many lent bytes as the case says.
pub fn show_table<W: Write, F: FnOnce(&[u8], &mut [u8]) -> Result<u32, Refusal>>(
    out: &mut W,
    file: &[u8],
    case: &[u8],
    make: F,
) -> io::Result<()>
    requires { F.IsAlwaysCallable make }
{
    let room = spelling::number(out, case, 1, 244)?;
    let mut lent = [b'.'; 243];
    let table = &mut lent[..room];
    let made = make(file, table);
    write!(out, "{}, table {}", Outcome(made, "bytes"), Signs(table))
}

// That of a row of nodes.
pub fn show_row<W: Write>(out: &mut W, case: &[u8]) -> io::Result<()> {
    let mut file = [0u8; 623];
    let len = put_row(out, case, &mut file)?;
    show(out, &file[..len], case)
}

// Writes a drawing with twelve contacts, one output, the last number, and so many nodes of three bytes 0, which lead to the constant 0,
// over bytes 0; returns its length, as runs::put_row does. The case's first part says how many nodes.
fn put_row<W: Write>(out: &mut W, case: &[u8], file: &mut [u8; 623]) -> io::Result<usize>
    ensures ok { IfOk result (λ n. n ≤ length file.new) }
    ensures err { OnErr result (file.new ≡ file.old) }
{
    let count = spelling::number(out, case, 0, 205)?;
    let node_bytes = 3 * count;
    files::put_field(file, 0, 1, &[12]);
    files::put_field(file, 4, 2, &[(count + 1) as u8]);
    file[8] = 7;
    files::put_number(file, 9, node_bytes as u16);
    Ok(11 + node_bytes)
}
