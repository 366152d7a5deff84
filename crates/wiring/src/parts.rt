// The parts of a netlist.
ghost use Rattle.std.specs.Prelude.{◌≡◌, ◌+◌, ◌/◌, ◌≤◌, length};
ghost use Rattle.netlist.specs.Netlist.{gate_line};

// A netlist's contacts and the bytes of its gates, its outputs and its lamp, as many as question 11 admits; of no lamp there are none,
// as the definitions have a list of at most one pair.
#[derive(Clone, Copy, Drop)]
pub struct Parts<'a> {
    pub contacts: usize,
    pub gates: &'a [u8],
    pub outputs: &'a [u8],
    pub lamp: &'a [u8],
    ghost few_contacts: { contacts ≤ 12 },
    ghost few_gates: { length gates.now / 5 ≤ 10602 },
    ghost few_outputs: { length outputs.now / 4 ≤ 8 },
    ghost one_lamp: { length lamp.now / 4 ≤ 1 },
}

impl Parts<'_> {
    // The line of the first gate.
    pub fn gate_line(&self) -> usize
        ensures { result ≡ gate_line self.now.contacts }
    {
        2 + 2 * self.contacts
    }

    // The line after the last.
    pub fn line_count(&self) -> usize
        ensures { result ≡ gate_line self.now.contacts + length self.now.gates.now / 5 }
    {
        self.gate_line() + self.gates.len() / 5
    }

    // How many pairs it shows: the outputs' and the lamp's.
    pub fn pair_count(&self) -> usize
        ensures { result ≡ length self.now.outputs.now / 4 + length self.now.lamp.now / 4 }
    {
        self.outputs.len() / 4 + self.lamp.len() / 4
    }
}
