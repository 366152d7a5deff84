// The truth tables of a drawing's outputs, 64 values a word: within a word the last six contacts vary, and those before them are fixed.
ghost use Rattle.std.specs.Prelude.{◌≡◌, ◌+◌, ◌*◌, ◌-◌, ◌^◌, ◌≤◌, length};
ghost use Rattle.rows.specs.Inner.Rows.{Tabulated};
ghost use Rattle.drawing.specs.Drawing.{node_count, drawn_at, parted};
ghost use Rattle.truths.specs.Inner.Words.{WordsFrom, From, Block};

use crate::paths::Sound;

// A drawing, and the words of its constants and of the nodes of the last six levels.
#[derive(Drop)]
pub struct Words<'a> {
    pub drawing: Sound<'a>,
    pub values: &'a [u64],
    ghost room: { 2 + node_count drawing.parts.nodes.now ≤ length values.now },
    ghost worked: { WordsFrom drawing.parts.contacts drawing.parts.nodes.now values.now (drawing.parts.contacts - 6) },
}

// Copies words to a block of as many. One by one: `copy_from_slice` calls memmove, which the archive would need from outside.
fn copy(words: &[u64], block: &mut [u64])
    requires { length words.now ≡ length block.old }
    ensures { block.new ≡ words.now }
{
    for (i, word) in words.iter().enumerate() {
        block[i] = *word;
    }
}

impl Words<'_> {
    // The truth table of number v over the last of the fixed contacts, so many: one word again and again, the table over one contact less
    // twice, or those of both edges.
    fn put_block(&self, v: usize, left: usize, block: &mut [u64])
        requires { let p = self.now.drawing.parts in (left ≤ p.contacts - 6) × From p.nodes.now (p.contacts - 6 - left) v
            × (length block.old ≡ 2 ^ left) }
        ensures { let p = self.now.drawing.parts in Block p.contacts left p.nodes.now v block.new }
    {
        let Some((half, zero, one)) = self.drawing.fork(v) else {
            block.fill(self.values[v]);
            return;
        };
        let (first, second) = block.split_at_mut(1usize << (left - 1));
        if half + 1 < left {
            self.put_block(v, left - 1, first);
            copy(first, second);
        } else {
            self.put_block(zero, half, first);
            self.put_block(one, half, second);
        }
    }

    // The truth tables of the outputs, one after the other.
    pub fn put_outputs(&self, truths: &mut [u64])
        requires { let p = self.now.drawing.parts in (length p.outputs.now * 2 ^ (p.contacts - 6) ≤ length truths.old)
            × (length truths.old ≤ 512) }
        ensures { let p = self.now.drawing.parts in Tabulated p.contacts (length p.outputs.now) (drawn_at (parted p)) truths.new }
    {
        let fixed = rows::fixed_contacts(self.drawing.parts.contacts);
        let size = 1usize << fixed;
        for (j, output) in self.drawing.parts.outputs.iter().enumerate() {
            self.put_block(
                *output as usize,
                fixed,
                &mut truths[j * size..(j + 1) * size],
            );
        }
    }
}
