// Cases, one on each line: a sign for the kind, a space, the name up to a colon, and the parts (text/src/spelling.rt), parted by
// strokes. Parts that are left out are nothing, or 0. A line that starts with a hash is no case.
//
//     f NAME: FILE                                              the fields of a file
//     t NAME: TABLE                                             a table, and what is read off
//     a NAME: TABLE                                             the first two alike nodes of a table, and the pairs compared
//     i NAME: TABLE / INPUT                                     what is read off at one input
//     d NAME: DRAWING / ROOM                                    a drawing's table in a buffer of so many bytes
//     w NAME: COUNT / ROOM                                      the same, of a drawing of so many nodes
//     e NAME: RULES / ROOM                                      a rule sheet's table in a buffer of so many bytes
//     b NAME: TABLE                                             the netlist that is built
//     k NAME: TABLE / ROOM                                      what build keeps of a buffer of so many bytes
//     l NAME: TABLE                                             the netlist that is built with a lamp
//     m NAME: TABLE / ROOM                                      what build with lamp keeps of a buffer of so many bytes
//     r NAME: NETLIST / ROOM / FROM / HOLDS / RAILS / PAIRS     a run with two buffers, the first shown from a place on
//     g NAME: COUNT / ROOM / FROM / HOLDS / RAILS / PAIRS       the same, of a row of so many gates
//     c NAME: NETLIST / PLACE / COUNT / LINES / HOLDS / RAILS / PAIRS
//                                                               a step with two buffers that have these bytes
//     h NAME: GATES / PLACE / COUNT / ROOM / HOLDS / RAILS / PAIRS / FROM
//                                                               the same, of a row of so many gates, with the buffers of g
//     p NAME: TABLE / ROOM / FROM / HOLD                        a probe with a buffer that is shown from a place on
//     s NAME: NETLIST / ROOM                                    a sheet in a buffer of so many bytes, or what is kept of it
//     n NAME: COUNT / ROOM / FROM / TO                          the same, of a row of so many gates, from a line to before another
use crate::probes;
use listings::netlists;
use std::io;
use std::io::Write;
use text::spelling;
use views::{drawings, field_rows, rules, runs, sheets, steps, tables};

pub fn show_all<W: Write>(out: &mut W, text: &[u8]) -> io::Result<()> {
    for line in text.split_inclusive(|byte| *byte == b'\n') {
        show_line(out, line.strip_suffix(b"\n").unwrap_or(line))?;
    }
    Ok(())
}

fn show_line<W: Write>(out: &mut W, line: &[u8]) -> io::Result<()> {
    if let [b'#', ..] = line {
        return Ok(());
    }
    if let [kind, _, rest @ ..] = line {
        let colon = spelling::find(rest, 0, b':');
        out.write_all(&rest[..colon])?;
        if let Some(case) = spelling::spell(&rest[colon..]) {
            show(out, *kind, &case)?;
            return writeln!(out);
        }
    }
    writeln!(out, ": misspelt")
}

// A kind is read where it is shown: an enum of kinds would only name each once more.
fn show<W: Write>(out: &mut W, kind: u8, case: &[u8]) -> io::Result<()> {
    let file = reader::nth(case, 0);
    match kind {
        b'f' => field_rows::show(out, file),
        b't' => tables::show(out, file),
        b'a' => tables::show_twins(out, file),
        b'i' => tables::show_at(out, file, case),
        b'd' => drawings::show(out, file, case),
        b'w' => drawings::show_row(out, case),
        b'e' => rules::show(out, file, case),
        b'b' => netlists::show(out, file),
        b'k' => netlists::show_kept(out, file, case),
        b'l' => netlists::show_with_lamp(out, file),
        b'm' => netlists::show_kept_with_lamp(out, file, case),
        b'r' => runs::show(out, file, case),
        b'g' => runs::show_row(out, case),
        b'c' => steps::show(out, file, case),
        b'h' => steps::show_row(out, case),
        b'p' => probes::show(out, file, case),
        b's' => sheets::show(out, file, case),
        b'n' => sheets::show_row(out, case),
        _ => write!(out, ": of no kind"),
    }
}
