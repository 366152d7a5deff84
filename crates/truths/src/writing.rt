// The table of a drawing's functions, from its truth tables.
ghost use Rattle.std.specs.Prelude.{◌≡◌, ◌+◌, ◌*◌, ◌-◌, ◌^◌, ◌≤◌, length};
ghost use Rattle.files.specs.Room.{written};
ghost use Rattle.drawing.specs.Drawing.{node_count, parted};
ghost use Rattle.truths.specs.Inner.Words.{drawn_tabling};

use crate::paths::Sound;
use crate::tables::Words;
use files::Refusal;

impl Words<'_> {
    // Writes the table of the outputs' functions, with room for N words of their truth tables.
    fn write<const N: usize>(&self, table: &mut [u8]) -> Result<u32, Refusal>
        requires { let p = self.now.drawing.parts in (length p.outputs.now * 2 ^ (p.contacts - 6) ≤ N) × (N ≤ 512) }
        ensures { written result table.new ≡ drawn_tabling (parted self.now.drawing.parts) table.old }
    {
        let parts = self.drawing.parts;
        let mut truths = [0u64; N];
        self.put_outputs(&mut truths);
        rows::write(&truths, parts.contacts, parts.outputs.len(), table)
    }
}

// Writes the table of the outputs' functions, with room for N words of numbers. The room for the truth tables has one of three lengths:
// it is cleared, so a small drawing has the shortest.
fn write_with<const N: usize>(drawing: Sound<'_>, table: &mut [u8]) -> Result<u32, Refusal>
    requires { (2 + node_count drawing.parts.nodes.now ≤ N) × (N ≤ 202) }
    ensures { written result table.new ≡ drawn_tabling (parted drawing.entry.parts) table.old }
{
    let mut values = [0u64; N];
    drawing.put_words(&mut values);
    let words = Words {
        drawing: drawing,
        values: &values,
    };
    let most = drawing.parts.outputs.len() << rows::fixed_contacts(drawing.parts.contacts);
    // Chosen here: a length is a const argument, which no function hands in.
    if most <= 8 {
        words.write::<8>(table)
    } else if most <= 64 {
        words.write::<64>(table)
    } else {
        words.write::<512>(table)
    }
}

// Writes the table of the outputs' functions, with room for the words of 14 nodes or of 200.
pub fn write_table(drawing: Sound<'_>, table: &mut [u8]) -> Result<u32, Refusal>
    ensures { written result table.new ≡ drawn_tabling (parted drawing.entry.parts) table.old }
{
    // Chosen here: a length is a const argument, which no function hands in.
    if drawing.parts.node_count() <= 14 {
        write_with::<16>(drawing, table)
    } else {
        write_with::<202>(drawing, table)
    }
}
