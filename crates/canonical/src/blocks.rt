// Truth tables, 64 bits a word. Contact 0 weighs most, so fixing the first contacts leaves a block of bits, whose first half is for the
// next contact open, its second half for that contact closed.
ghost use Rattle.std.specs.Prelude.{◌≡◌, ℕ, ◌/◌, ◌%◌, ◌^◌, ◌≤◌, ◌<◌, length, get_or};
ghost use Rattle.functions.specs.Functions as functions;
ghost use Rattle.canonical.specs.Inner.Blocks.{block_at, bit_in, Block};

// Truth tables, and how many contacts their functions have left: a function is a block of 2^left bits, known by the place where it
// begins.
#[derive(Clone, Copy, Drop)]
pub struct Truths<'a> {
    pub words: &'a [u64],
    pub left: usize,
    ghost few: { left ≤ 12 },
    ghost fit: { (i : ℕ) → get_or words.now i 0 < 2 ^ 64 },
}

impl Truths<'_> {
    // A block of fewer than 64 bits, as a number.
    fn part(self, start: usize) -> u64
        requires { (self.left < 6) × (start / 64 < length self.words.now) }
        ensures { result ≡ get_or self.entry.words.now (start / 64) 0 / 2 ^ (start % 64) % 2 ^ 2 ^ self.entry.left }
    {
        let bits = 1usize << self.left;
        (self.words[start / 64] >> (start % 64)) % (1u64 << bits)
    }

    // Whether two blocks are the same.
    pub fn same(self, a: usize, b: usize) -> bool
        requires { Block self.words.now self.left a × Block self.words.now self.left b }
        ensures { let block = block_at self.entry.words.now self.entry.left in result ≡ functions.same (block a) (block b) }
    {
        if self.left < 6 {
            return self.part(a) == self.part(b);
        }
        let count = 1usize << (self.left - 6);
        self.words[a / 64..a / 64 + count] == self.words[b / 64..b / 64 + count]
    }

    // The constant that a bit is.
    pub fn bit(self, at: usize) -> u8
        requires { at / 64 < length self.words.now }
        ensures { result ≡ bit_in self.entry.words.now at }
    {
        ((self.words[at / 64] >> (at % 64)) % 2) as u8
    }
}
