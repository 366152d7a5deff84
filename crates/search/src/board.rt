// What is searched.
ghost use Rattle.std.specs.Prelude.{◌≡◌, true, ◌+◌, ◌/◌, ◌≤◌, length};
ghost use Rattle.netlist.specs.Netlist.{gate_line};
ghost use Rattle.wiring.specs.Questions.{are_gates, are_pairs};

// A netlist without a lamp, by the bytes of its gates and of its pairs, whose sources are all below their own lines.
#[derive(Clone, Copy, Drop)]
pub struct Board<'a> {
    pub contacts: usize,
    pub gates: &'a [u8],
    pub pairs: &'a [u8],
    ghost few: { contacts ≤ 12 },
    ghost fits: { length gates.now / 5 ≤ 10560 },
    ghost wired: { are_gates (gate_line contacts) gates.now ≡ true },
    ghost paired: { are_pairs (gate_line contacts + length gates.now / 5) pairs.now ≡ true },
}

impl Board<'_> {
    // The line of the first gate.
    pub fn gate_line(self) -> usize
        ensures { result ≡ gate_line self.entry.contacts }
    {
        2 + 2 * self.contacts
    }

    // The line after the last.
    pub fn line_count(self) -> usize
        ensures { result ≡ gate_line self.entry.contacts + length self.entry.gates.now / 5 }
    {
        self.gate_line() + self.gates.len() / 5
    }
}
