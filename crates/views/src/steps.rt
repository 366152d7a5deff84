// The number that a step gets, its place out, and what is left in the two lent buffers, the lines' and the pairs', also where the
// step is refused.
ghost use Rattle.std.specs.Prelude.{◌≡◌, ◌≤◌, length, IfOk, OnErr};

use crate::runs;
use files::Refusal;
use std::io;
use std::io::Write;
use text::print::{Outcome, Signs, Spelt};
use text::spelling;

// A step with buffers that have the bytes of the case's parts.
pub fn show<W: Write>(out: &mut W, netlist: &[u8], case: &[u8]) -> io::Result<()> {
    let mut lines = [0u8; 1024];
    let mut pairs = [0u8; 1024];
    let lines_len = lend(out, reader::nth(case, 3), &mut lines)?;
    let pairs_len = lend(out, reader::nth(case, 6), &mut pairs)?;
    let lines = &mut lines[..lines_len];
    let pairs = &mut pairs[..pairs_len];
    let stepped = step(out, netlist, case, lines, pairs)?;
    write!(
        out,
        "{}, lines {}, pairs {}",
        Outcome(stepped, "place"),
        Spelt(lines),
        Spelt(pairs)
    )
}

// A step of a row of gates with buffers of points, the first shown from a place on.
pub fn show_row<W: Write>(out: &mut W, case: &[u8]) -> io::Result<()> {
    let mut file = [0u8; 53029];
    let len = runs::put_row(out, case, &mut file)?;
    let lines_len = spelling::number(out, case, 3, 10610)?;
    let pairs_len = spelling::number(out, case, 6, 10610)?;
    let mut lines = [b'.'; 10609];
    let mut pairs = [b'.'; 10609];
    let lines = &mut lines[..lines_len];
    let pairs = &mut pairs[..pairs_len];
    let stepped = step(out, &file[..len], case, lines, pairs)?;
    let from = spelling::number(out, case, 7, 10610)?;
    write!(
        out,
        "{}, lines {}, pairs {}",
        Outcome(stepped, "place"),
        Signs(&lines[from.min(lines_len)..]),
        Signs(pairs)
    )
}

// A step with the case's place, count, holds and rails. An error of the outside is that of the writing.
fn step<W: Write>(
    out: &mut W,
    netlist: &[u8],
    case: &[u8],
    lines: &mut [u8],
    pairs: &mut [u8],
) -> io::Result<Result<u32, Refusal>>
    ensures { OnErr result ((lines.new ≡ lines.old) × (pairs.new ≡ pairs.old)) }
{
    let place = spelling::number(out, case, 1, 4_294_967_296)? as u32;
    let count = spelling::number(out, case, 2, 4_294_967_296)? as u32;
    Ok(run::step(
        netlist,
        reader::nth(case, 5),
        reader::nth(case, 4),
        place,
        count,
        lines,
        pairs,
    ))
}

// Copies a part to a buffer's start and returns its length. A length and no slice: of a buffer that is lent on no clause can say what an
// error leaves.
fn lend<W: Write>(out: &mut W, part: &[u8], buffer: &mut [u8; 1024]) -> io::Result<usize>
    ensures ok { IfOk result (λ n. (n ≤ 1024) × (n ≤ length buffer.new)) }
    ensures err { OnErr result (buffer.new ≡ buffer.old) }
{
    if 1024 < part.len() {
        write!(out, ": too large")?;
        return Ok(0);
    }
    buffer[..part.len()].copy_from_slice(part);
    Ok(part.len())
}
