// The inputs that fit a rule, as a cube: a word of 64 for the last six contacts, the others by a mask and a value of the word's number.
#![tactic(auto)]

ghost use Rattle.std.specs.Prelude.{◌≡◌, Bool, ◌&&◌, eqb, ℕ, ◌+◌, ◌*◌, ◌-◌, ◌≤◌, ◌<◌, length};
ghost use Rattle.std.specs.Int.Bits.{bit_and};
ghost use Rattle.diagram.specs.Diagram.{bit};
ghost use Rattle.bits.specs.Inner.Bits.{bit_of};
ghost use Rattle.rulesheet.specs.Rules.{accepts};
ghost use Rattle.cubes.specs.Inner.Cubes.{Low, mask_digit, value_digit, High, CubeOf};

// The words whose number has `value` where `mask` is set.
#[derive(Clone, Copy, Drop)]
pub struct Words {
    pub mask: usize,
    pub value: usize,
}

// The inputs at the bits of `pattern`, in each of the words.
#[derive(Clone, Copy, Drop)]
pub struct Cube {
    pub words: Words,
    pub pattern: u64,
}

impl Words {
    // Whether it has a word, by its number.
    pub fn has(self, word: usize) -> bool
        ensures { result ≡ eqb (bit_and word self.mask) self.value }
    {
        word & self.mask == self.value
    }

    // The same with one more contact, which is the lowest.
    fn with_contact(self, byte: u8) -> Self
        requires { (self.mask < 64) × (self.value < 64) }
        ensures { (result.mask ≡ 2 * self.mask + mask_digit byte) × (result.value ≡ 2 * self.value + value_digit byte) }
    {
        let mask = if byte < 2 { 1 } else { 0 };
        let value = if byte == 1 { 1 } else { 0 };
        Words {
            mask: 2 * self.mask + mask,
            value: 2 * self.value + value,
        }
    }
}

// A word of inputs without those that a rule's byte for a contact does not fit, given where the contact is closed. The byte stays a byte:
// with an enum of its three meanings from-rules was slower.
fn narrow(word: u64, byte: u8, closed: u64) -> u64
    ensures { (k : ℕ) (a b : Bool) → k < 64 → bit_of k word ≡ bit a → bit_of k closed ≡ bit b →
        bit_of k result ≡ bit (a && accepts byte b) }
{
    match byte {
        0 => word & !closed,
        1 => word & closed,
        _ => word,
    }
}

// The inputs of a word that fit a rule by the last contacts, each by its number, which its rail is given by too.
fn pattern_of(rule: &[u8], n: usize, fixed: usize) -> u64
    requires { (n ≤ 12) × (fixed ≡ n - 6) × (n ≤ length rule.now) }
    ensures { Low n fixed (n - fixed) rule.now result }
{
    let mut pattern = bits::ONES;
    for contact in fixed..n {
        pattern = narrow(pattern, rule[contact], bits::rail_batch(n - 1 - contact, 0));
    }
    pattern
}

// The words that a rule's fixed contacts fit.
fn words_of(rule: &[u8], fixed: usize) -> Words
    requires { (fixed ≤ 6) × (fixed ≤ length rule.now) }
    ensures { High fixed fixed rule.now result.mask result.value }
{
    let mut words = Words { mask: 0, value: 0 };
    for byte in &rule[..fixed] {
        words = words.with_contact(*byte);
    }
    words
}

// The inputs that fit a rule.
pub fn cube_of(rule: &[u8], n: usize) -> Cube
    requires { (n ≤ 12) × (n ≤ length rule.now) }
    ensures { CubeOf n rule.now result }
{
    let fixed = n.saturating_sub(6);
    Cube {
        words: words_of(rule, fixed),
        pattern: pattern_of(rule, n, fixed),
    }
}
