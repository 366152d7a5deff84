// The table of functions whose truth tables lie one after the other, each in as many words as its contacts need.
#![tactic(auto)]

ghost use Rattle.std.specs.Prelude.{◌≡◌, ◌*◌, ◌-◌, ◌^◌, ◌≤◌, length};
ghost use Rattle.files.specs.Room.{written};
ghost use Rattle.canonical.specs.Service.{tabling_of};
ghost use Rattle.rows.specs.Inner.Rows.{row_at};

use files::Refusal;
use std::array;

// How many contacts are fixed within a word of a truth table: all but the last six.
pub fn fixed_contacts(n: usize) -> usize
    ensures { result ≡ n - 6 }
{
    n.saturating_sub(6)
}

// Writes the table of the first m functions from the start of the lent buffer and returns its length; a refusal leaves the buffer as it
// came.
pub fn write(truths: &[u64], n: usize, m: usize, table: &mut [u8]) -> Result<u32, Refusal>
    requires { (1 ≤ n) × (n ≤ 12) × (1 ≤ m) × (m ≤ 8) × (m * 2 ^ (n - 6) ≤ length truths.now) × (length truths.now ≤ 512) }
    ensures { written result table.new ≡ tabling_of n m (row_at truths.now n) table.old }
{
    let fixed = fixed_contacts(n);
    let starts: [usize; 8] = array::from_fn(|j| 64 * (j << fixed));
    canonical::write(truths, n, &starts[..m], table)
}
