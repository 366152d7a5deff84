// The rows of a sheet one after another, under headings.
ghost use Rattle.std.specs.Prelude.{◌≡◌, ◌++◌, ◌+◌, ◌/◌, ◌≤◌, ◌<◌, length};
ghost use Rattle.std.proofs.lemmas.List.Edits.{sets};
ghost use Rattle.files.specs.Room.{over};
ghost use Rattle.netlist.specs.Netlist.{gates_of, pairs_of};
ghost use Rattle.wiring.specs.Inner.Read.{netlist_by};
ghost use Rattle.sheet.specs.Sheet.{heading, heading_after, row_text, gate_row, pair_row, numbered_rows, rows_from, sheet_of};
ghost use Rattle.sheet.specs.Inner.Places.{end_of, place_of, rows_by};

use crate::row;
use crate::row::{Kind, Row};
use netlist::{Gate, Pair};
use wiring::Parts;

// The length of a sheet of so many rows.
pub fn length_of(rows: usize) -> usize
    requires { (0 < rows) × (rows < 65536) }
    ensures { result ≡ end_of rows }
{
    22 * (1 + rows + (rows - 1) / 50)
}

// Writes the heading, from a place on.
fn put_heading(text: &mut [u8], at: usize)
    requires { at + 22 ≤ length text.old }
    ensures { text.new ≡ sets text.old at heading }
{
    files::copy(text, at, b" LINE KIN     A     B\n");
}

// Writes the heading above the row that so many rows stand before, if there is one.
fn put_heading_after(text: &mut [u8], before: usize)
    requires { (before < 65536) × (place_of before ≤ length text.old) }
    ensures { text.new ≡ sets text.old (end_of before) (heading_after before) }
{
    if before != 0 && before % 50 == 0 {
        put_heading(text, 22 * (before + before / 50));
    }
}

// Writes the row that so many rows stand before, below its heading if there is one.
fn put_next(text: &mut [u8], before: usize, row: Row)
    requires { (before < 65536) × (end_of (before + 1) ≤ length text.old) }
    ensures { text.new
        ≡ sets text.old (end_of before) (heading_after before ++ row_text row) }
{
    put_heading_after(text, before);
    row::put_row(text, 22 * (1 + before + before / 50), row);
}

// Writes the gates' rows below the first heading, given the first gate's line.
fn put_gates(text: &mut [u8], line: usize, gates: &[u8])
    requires { (line + length gates.now / 5 < 65536) × (end_of (length gates.now / 5) ≤ length text.old) }
    ensures { text.new
        ≡ sets text.old (end_of 0) (rows_from 0 (numbered_rows gate_row line (gates_of gates.now))) }
{
    for (g, gate) in gates.as_chunks::<5>().0.iter().enumerate() {
        let gate = Gate::from(gate);
        let row = Row {
            number: (line + g) as u16,
            kind: Kind::from(gate.kind),
            first: gate.left,
            second: gate.right,
        };
        put_next(text, g, row);
    }
}

// Writes the rows of pairs, all of one kind, below so many other rows.
fn put_pairs(text: &mut [u8], before: usize, kind: Kind, pairs: &[u8])
    requires { (before + length pairs.now / 4 < 65536) × (end_of (before + length pairs.now / 4) ≤ length text.old) }
    ensures { text.new
        ≡ sets text.old (end_of before) (rows_from before (numbered_rows (pair_row kind) 0 (pairs_of pairs.now))) }
{
    for (j, pair) in pairs.as_chunks::<4>().0.iter().enumerate() {
        let pair = Pair::from(pair);
        let row = Row {
            number: j as u16,
            kind: kind,
            first: pair.on,
            second: pair.off,
        };
        put_next(text, before + j, row);
    }
}

// How many rows a netlist's sheet has.
pub fn rows_of(parts: &Parts<'_>) -> usize
    ensures { result ≡ rows_by parts.now }
{
    parts.gates.len() / 5 + parts.pair_count()
}

// Writes the sheet of a netlist from the start of a buffer.
pub fn put_sheet(text: &mut [u8], parts: &Parts<'_>)
    requires { end_of (rows_by parts.now) ≤ length text.old }
    ensures { text.new ≡ over (sheet_of (netlist_by parts.now)) text.old }
{
    let gates = parts.gates.len() / 5;
    let outputs = parts.outputs.len() / 4;
    put_heading(text, 0);
    put_gates(text, parts.gate_line(), parts.gates);
    put_pairs(text, gates, Kind::Out, parts.outputs);
    put_pairs(text, gates + outputs, Kind::Lamp, parts.lamp);
}
