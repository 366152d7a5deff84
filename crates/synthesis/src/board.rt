// The board of a diagram.
ghost use Rattle.std.specs.Prelude.{◌≡◌, true, ◌*◌, ◌≤◌, max, length, take, fold};
ghost use mathlib.Core.List.{flat_map};
ghost use Rattle.std.proofs.lemmas.List.Edits.{sets};
ghost use Rattle.diagram.specs.Questions.{Sized, in_range};
ghost use Rattle.netlist.specs.Netlist.{gate_line, gate_bytes, pair_bytes};
ghost use Rattle.fields.specs.Bounded.{listed};
ghost use Rattle.rules.specs.Board.{pair_of, board_of};
ghost use Rattle.rules.specs.Lamp.{lamp_of, with_lamp};
ghost use Rattle.synthesis.specs.Inner.Writers.{HasMade, Begun, Makes, BoardMade};

use diagram::Diagram;
use gates::Gates;
use products::Rows;
use rules::Entry;

// A writer of the gates of a diagram's board to a buffer.
pub(crate) fn begin<'a>(d: &Diagram, out: &'a mut [u8]) -> Gates<'a>
    requires { d.now.contacts ≤ 12 }
    ensures { result ≡ record { out = out.entry; first = gate_line d.now.contacts; made = 0 } }
{
    Gates {
        out,
        first: 2 + 2 * d.contacts,
        made: 0,
    }
}

// Writes each output's true line and false line: columns 1 and 0 of its node's row.
fn put_pairs(d: &Diagram, cells: &Rows, pairs: &mut [u8])
    requires { Sized d.now × (in_range d.now ≡ true) × (4 * d.now.outputs ≤ length pairs.old) }
    ensures { pairs.new
        ≡ sets pairs.old 0 (flat_map pair_bytes (listed (pair_of d.now cells.now) d.now.outputs 0)) }
{
    for (j, root) in d.roots[..d.outputs].iter().enumerate() {
        let node = *root as usize;
        files::put_number(pairs, 4 * j, u16::from(cells[node][1]));
        files::put_number(pairs, 4 * j + 2, u16::from(cells[node][0]));
    }
}

// Makes the gates of a diagram's board, by a writer that has made none, and writes its pairs, four bytes each, from the start of
// their buffer.
pub(crate) fn put_board(d: &Diagram, gates: &mut Gates, pairs: &mut [u8])
    requires sized { Sized d.now × (in_range d.now ≡ true) × (4 * d.now.outputs ≤ length pairs.old) }
    requires begun { Begun d.now gates.old }
    ensures gates_after { Makes (board_of d.now).gates gates.old gates.new }
    ensures pairs_after { pairs.new ≡ sets pairs.old 0 (flat_map pair_bytes (board_of d.now).pairs) }
{
    let mut cells = [[Entry::Never; 8]; 8];
    blocks::block(d, 0, d.contacts, gates, &mut cells);
    put_pairs(d, &cells, pairs);
}

// Makes the gates of the lamp of a diagram's board behind the board's own, and writes the lamp's pair, four bytes, from the start of
// its buffer, given the board's pairs.
pub(crate) fn put_lamp(d: &Diagram, pairs: &[u8], gates: &mut Gates, lamp: &mut [u8])
    requires sized { Sized d.now × (pairs.now ≡ flat_map pair_bytes (board_of d.now).pairs) × (4 ≤ length lamp.old) }
    requires made { BoardMade d.now gates.old }
    ensures gates_after { HasMade (with_lamp (board_of d.now)).gates gates.new }
    ensures lamp_after { lamp.new ≡ sets lamp.old 0 (pair_bytes (lamp_of (board_of d.now)).1) }
{
    let pair = gates.join_tree(pairs);
    files::put_number(lamp, 0, pair.on);
    files::put_number(lamp, 2, pair.off);
}

// Writes the gates of a diagram's board, five bytes each, and its pairs, four bytes each, from the start of each buffer, and returns
// the number of gates.
pub fn synthesise(d: &Diagram, out: &mut [u8], pairs: &mut [u8]) -> usize
    requires { Sized d.now × (in_range d.now ≡ true) ×
        (5 * length (board_of d.now).gates ≤ length out.old) × (4 * d.now.outputs ≤ length pairs.old) }
    ensures value { result ≡ length (board_of d.now).gates }
    ensures out_after { out.new ≡ sets out.old 0 (flat_map gate_bytes (board_of d.now).gates) }
    ensures pairs_after { pairs.new ≡ sets pairs.old 0 (flat_map pair_bytes (board_of d.now).pairs) }
{
    let mut gates = begin(d, out);
    put_board(d, &mut gates, pairs);
    gates.made
}

// The largest width of a diagram's levels; level n counts, as 2.
fn widest(d: &Diagram) -> usize
    requires { d.now.contacts ≤ 12 }
    ensures { result ≡ fold max 2 (take d.now.contacts d.now.widths) }
{
    d.widths[..d.contacts]
        .iter()
        .fold(2, |most, width| most.max(*width))
}

// A number of gates that a diagram's board does not pass: the formula for its largest width.
pub fn most_gates(d: &Diagram) -> usize
    requires { Sized d.now }
    ensures { length (board_of d.now).gates ≤ result }
{
    let w = widest(d);
    (d.contacts - 1) * (w * w * (2 * w - 1))
}
