// The diagram that a table file holds.
ghost use Rattle.std.specs.Prelude.{◌≡◌, min, length, replicate};
ghost use Rattle.std.proofs.Math.Seq.{paste};
ghost use Rattle.fields.specs.Fields.{fields_of};
ghost use Rattle.table.specs.Table.{widths_of, edges_of, diagram_in};
ghost use Rattle.table.specs.Inner.Read.{bare};

use diagram::Diagram;
use fields::{Cursor, Step};

// Copies a value to the front of dst, as far as there is room.
fn put(dst: &mut [u8], value: &[u8])
    ensures { dst.new ≡ paste dst.old 0 value.now (min (length dst.old) (length value.now)) }
{
    let count = dst.len().min(value.len());
    dst[..count].copy_from_slice(&value[..count]);
}

// Lays out each level's width, and its edges from 16 l on. A level is a number here, for a proof knows nothing of what stands behind
// the chunks of a slice that is written.
fn lay_levels(file: &[u8], widths: &mut [usize], edges: &mut [u8])
    requires { (widths.old ≡ replicate 12 0) × (edges.old ≡ replicate 192 0) }
    ensures widths_after { widths.new ≡ widths_of (fields_of file.now).items }
    ensures edges_after { edges.new ≡ edges_of (fields_of file.now).items }
{
    let mut cursor = Cursor::new().skip(file, 2);
    for level in 0..12 {
        let Step::Next(field, moved) = cursor.next(file) else {
            return;
        };
        let value = fields::value(file, field);
        widths[level] = value.len() / 2;
        put(&mut edges[level * 16..level * 16 + 16], value);
        cursor = moved;
    }
}

// The diagram whose contacts and levels the fields give, without outputs: their field is not looked for. Apart from `diagram`: that one
// made of this would copy it once more, which a small table's read-off would feel.
pub fn levels(file: &[u8]) -> Diagram
    ensures { result ≡ bare (diagram_in file.now) }
{
    let mut widths = [0usize; 12];
    let mut edges = [0u8; 192];
    lay_levels(file, &mut widths, &mut edges);
    Diagram {
        contacts: fields::byte(reader::nth(file, 0), 0) as usize,
        outputs: 0,
        roots: [0; 8],
        widths,
        edges,
    }
}

// The diagram whose counts, outputs and levels the fields give, in that sequence.
pub fn diagram(file: &[u8]) -> Diagram
    ensures { result ≡ diagram_in file.now }
{
    let outputs = reader::nth(file, 1);
    let mut roots = [0u8; 8];
    put(&mut roots, outputs);
    let mut widths = [0usize; 12];
    let mut edges = [0u8; 192];
    lay_levels(file, &mut widths, &mut edges);
    Diagram {
        contacts: fields::byte(reader::nth(file, 0), 0) as usize,
        outputs: outputs.len(),
        roots,
        widths,
        edges,
    }
}
