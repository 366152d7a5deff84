// The gates, outputs and holds that bytes name.
ghost use Rattle.std.specs.Prelude.{◌≡◌, ◌+◌, ◌*◌, ◌≤◌, length};
ghost use Rattle.netlist.specs.Netlist.{gate_at, pair_at, hold_at, number_at};

use crate::{Gate, Hold, Pair};

impl From<&[u8; 5]> for Gate {
    fn from(bytes: &[u8; 5]) -> Self
        ensures { result ≡ gate_at bytes.now 0 }
    {
        gate_at(bytes, 0)
    }
}

impl From<&[u8; 4]> for Pair {
    fn from(bytes: &[u8; 4]) -> Self
        ensures { result ≡ pair_at bytes.now 0 }
    {
        pair_at(bytes, 0)
    }
}

impl From<&[u8; 3]> for Hold {
    fn from(bytes: &[u8; 3]) -> Self
        ensures { result ≡ hold_at bytes.now 0 }
    {
        hold_at(bytes, 0)
    }
}

// The number of two bytes at a place.
pub fn number_at(bytes: &[u8], at: usize) -> u16
    requires { at + 2 ≤ length bytes.now }
    ensures { result ≡ number_at bytes.now at }
{
    u16::from_be_bytes([bytes[at], bytes[at + 1]])
}

// Gate g of the gates' bytes.
pub fn gate_at(bytes: &[u8], g: usize) -> Gate
    requires { 5 * g + 5 ≤ length bytes.now }
    ensures { result ≡ gate_at bytes.now g }
{
    Gate {
        kind: bytes[5 * g],
        left: number_at(bytes, 5 * g + 1),
        right: number_at(bytes, 5 * g + 3),
    }
}

// Output j of the outputs' bytes, or a lamp of its bytes.
pub fn pair_at(bytes: &[u8], j: usize) -> Pair
    requires { 4 * j + 4 ≤ length bytes.now }
    ensures { result ≡ pair_at bytes.now j }
{
    Pair {
        on: number_at(bytes, 4 * j),
        off: number_at(bytes, 4 * j + 2),
    }
}

// Hold i of a hold list's bytes.
pub fn hold_at(bytes: &[u8], i: usize) -> Hold
    requires { 3 * i + 3 ≤ length bytes.now }
    ensures { result ≡ hold_at bytes.now i }
{
    Hold {
        line: number_at(bytes, 3 * i),
        value: bytes[3 * i + 2],
    }
}
