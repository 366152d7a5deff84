// Words of 64 bits: bit k stands for input base + k.
ghost use Rattle.std.specs.Prelude.{◌≡◌, ℕ, ◌+◌, ◌%◌, ◌≤◌, ◌<◌};
ghost use Rattle.diagram.specs.Diagram.{bit, input_of};
ghost use Rattle.bits.specs.Inner.Bits.{bit_of};

pub const ONES: u64 = u64::MAX;

// The true rails' batches of contacts 0 to 5, at every base that is a multiple of 64.
const PATTERNS: [u64; 6] = [
    0xAAAA_AAAA_AAAA_AAAA,
    0xCCCC_CCCC_CCCC_CCCC,
    0xF0F0_F0F0_F0F0_F0F0,
    0xFF00_FF00_FF00_FF00,
    0xFFFF_0000_FFFF_0000,
    0xFFFF_FFFF_0000_0000,
];

// A value at all 64 inputs, a byte of 0 or 1 as the callers hold it.
pub fn same_batch(value: u8) -> u64
    requires { value ≤ 1 }
    ensures { (k : ℕ) → k < 64 → bit_of k result ≡ value }
{
    if value == 0 { 0 } else { ONES }
}

// The batch of a contact's true rail.
pub fn rail_batch(contact: usize, base: usize) -> u64
    requires { (contact < 12) × (base % 64 ≡ 0) }
    ensures { (k : ℕ) → k < 64 → bit_of k result ≡ bit (input_of (base + k) contact) }
{
    if contact < 6 {
        return PATTERNS[contact];
    }
    if (base >> contact) % 2 == 0 { 0 } else { ONES }
}

// The place of the lowest set bit of a batch.
pub fn lowest_bit(batch: u64) -> u32
    requires { 0 < batch }
    ensures { (result < 64) × (bit_of result batch ≡ 1) × ((k : ℕ) → k < result → bit_of k batch ≡ 0) }
{
    u64::trailing_zeros(batch)
}
