// A level of the table: its functions, at most eight, in the sequence of their first mention, each by the place of a block that is its
// truth table.
ghost use Rattle.std.specs.Prelude.{◌≡◌, ℕ, [], ◌+◌, ◌*◌, ◌/◌, ◌%◌, ◌^◌, ◌≤◌, ◌<◌, length, get_or, position, is_some, IfSome};
ghost use Rattle.functions.specs.Functions.{same};
ghost use Rattle.canonical.specs.Inner.Blocks.{block_at, level_at, is_few, Block, Blocks, Numbered};

use crate::blocks::Truths;
use few::Few;

// Lists the halves of a level's blocks, each half of 2^left bits: one block after the other, the first half first.
pub fn halve(starts: &[usize], left: usize, halves: &mut [usize; 16])
    requires { (length starts.now ≤ 8) × (left ≤ 11) × ((i : ℕ) → i < length starts.now → get_or starts.now i 0 < 32768) }
    ensures { (k : ℕ) → k < 2 * length starts.now → get_or halves.new k 0 ≡ get_or starts.now (k / 2) 0 + k % 2 * 2 ^ left }
{
    for (u, start) in starts.iter().enumerate() {
        halves[2 * u] = *start;
        halves[2 * u + 1] = *start + (1 << left);
    }
}

impl Truths<'_> {
    // The place of a block among others, the first that is the same.
    fn find(self, starts: &[usize], start: usize) -> Option<usize>
        requires { Blocks self.words.now self.left starts.now × Block self.words.now self.left start }
        ensures { let block = block_at self.entry.words.now self.entry.left in
            result ≡ position (λ s. same (block s) (block start)) starts.now }
    {
        starts.iter().position(|other| self.same(*other, start))
    }

    // Numbers mentions of functions of a level, and lists those first mentioned; none if they are more than eight.
    fn number(self, mentions: &[usize], numbers: &mut [u8], level: &mut Few<usize>) -> Option<()>
        requires { (1 ≤ self.left) × Blocks self.words.now self.left mentions.now
            × (length numbers.old ≡ length mentions.now) × (level.old ≡ []) }
        ensures value { is_some result ≡ is_few self.entry.left (level_at self.entry.words.now self.entry.left mentions.now) }
        ensures numbered { IfSome result (λ u. Numbered self.entry.words.now self.entry.left mentions.now numbers.new level.new) }
    {
        for (k, start) in mentions.iter().enumerate() {
            let number = match self.find(level.as_slice(), *start) {
                Some(number) => number,
                None => {
                    let number = level.as_slice().len();
                    if number == 8 {
                        return None;
                    }
                    level.push(*start);
                    number
                }
            };
            numbers[k] = number as u8;
        }
        Some(())
    }

    // Numbers mentions of constants, by their values.
    fn number_constants(self, mentions: &[usize], numbers: &mut [u8])
        requires { Blocks self.words.now 0 mentions.now × (length numbers.old ≡ length mentions.now) }
        ensures { Numbered self.entry.words.now 0 mentions.now numbers.new [] }
    {
        for (k, start) in mentions.iter().enumerate() {
            numbers[k] = self.bit(*start);
        }
    }

    // Numbers mentions of a level, and lists its functions where they are not constants; none if they are more than eight.
    pub fn enter(self, mentions: &[usize], numbers: &mut [u8], level: &mut Few<usize>) -> Option<()>
        requires { Blocks self.words.now self.left mentions.now × (length numbers.old ≡ length mentions.now) }
        ensures value { is_some result ≡ is_few self.entry.left (level_at self.entry.words.now self.entry.left mentions.now) }
        ensures numbered { IfSome result (λ u. Numbered self.entry.words.now self.entry.left mentions.now numbers.new level.new) }
    {
        *level = Few::new(0);
        if self.left == 0 {
            self.number_constants(mentions, numbers);
            return Some(());
        }
        self.number(mentions, numbers, level)
    }
}
