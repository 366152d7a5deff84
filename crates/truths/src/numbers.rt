// One word for each number of a drawing: its values at the last six contacts. For a constant, and for a node of the last six levels, the
// contacts before them change nothing.
ghost use Rattle.std.specs.Prelude.{◌≡◌, Bool, cond, ℕ, ◌+◌, ◌-◌, ◌≤◌, ◌<◌, length};
ghost use Rattle.diagram.specs.Diagram.{bit};
ghost use Rattle.bits.specs.Inner.Bits.{bit_of};
ghost use Rattle.drawing.specs.Drawing.{node_count};
ghost use Rattle.truths.specs.Inner.Words.{Closed, WordsFrom, LevelTo};

use crate::paths::Sound;

// A word that follows one word where a contact is closed, another where it is open.
fn mix(closed: u64, zero: u64, one: u64) -> u64
    ensures { (k : ℕ) (b : Bool) → k < 64 → bit_of k closed ≡ bit b → bit_of k result ≡ bit_of k (cond b one zero) }
{
    closed & one | !closed & zero
}

impl Sound<'_> {
    // The word of node i, if it is of this level, given the words of the levels above it.
    fn put_node(self, level: usize, closed: u64, i: usize, values: &mut [u64])
        requires { let p = self.parts in (2 + node_count p.nodes.now ≤ length values.old) × (level < p.contacts)
            × (p.contacts ≤ level + 6) × Closed (p.contacts - 1 - level) closed × (i < node_count p.nodes.now)
            × LevelTo p.contacts p.nodes.now values.old level i }
        ensures { LevelTo self.entry.parts.contacts self.entry.parts.nodes.now values.new level (i + 1) }
    {
        let [own, zero, one] = self.parts.node(i);
        if own as usize != level {
            return;
        }
        values[2 + i] = mix(closed, values[zero as usize], values[one as usize]);
    }

    // The words of the nodes of a level, given those of the levels above it.
    fn put_level(self, level: usize, values: &mut [u64])
        requires { let p = self.parts in (2 + node_count p.nodes.now ≤ length values.old) × (level < p.contacts)
            × (p.contacts ≤ level + 6) × WordsFrom p.contacts p.nodes.now values.old (level + 1) }
        ensures { WordsFrom self.entry.parts.contacts self.entry.parts.nodes.now values.new level }
    {
        let closed = bits::rail_batch(self.parts.contacts - 1 - level, 0);
        // By number: node i has number 2 + i, where its word goes.
        for i in 0..self.parts.node_count() {
            self.put_node(level, closed, i, values);
        }
    }

    // The words of the constants and of the nodes of the last six levels, from the highest down.
    pub fn put_words(self, values: &mut [u64])
        requires { 2 + node_count self.parts.nodes.now ≤ length values.old }
        ensures { let p = self.entry.parts in WordsFrom p.contacts p.nodes.now values.new (p.contacts - 6) }
    {
        values[0] = 0;
        values[1] = u64::MAX;
        // By number, the highest level first.
        for level in (rows::fixed_contacts(self.parts.contacts)..self.parts.contacts).rev() {
            self.put_level(level, values);
        }
    }
}
