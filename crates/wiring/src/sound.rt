// Question 12, about a netlist's gates, outputs and lamp.
ghost use Rattle.std.specs.Prelude.{◌≡◌, ◌+◌, ◌/◌, ◌≤◌, length};
ghost use Rattle.netlist.specs.Netlist.{gate_at, pair_at};
ghost use Rattle.wiring.specs.Questions.{is_gate, is_pair, are_gates, are_pairs, wiring_of};

// Question 12's answer. An enum of its own: `wiring_number` states the number of each case.
#[derive(Clone, Copy, Drop)]
pub enum Wiring {
    Sound,
    Unsound,
}

// Whether two lines of two bytes each are both below a bound. They are read as the halves of one number.
fn both_below(lines: [u8; 4], bound: usize) -> bool
    requires { bound ≤ 65535 }
    ensures { result ≡ is_pair bound (pair_at lines 0) }
{
    let both = u32::from_be_bytes(lines);
    let past = bound as u32 * 65536;
    both < past && both % 65536 * 65536 < past
}

// Whether a gate's kind is 0 or 1 and its sources are below its own line.
fn gate_sound(line: usize, gate: &[u8; 5]) -> bool
    requires { line ≤ 65535 }
    ensures { result ≡ is_gate line (gate_at gate.now 0) }
{
    let [kind, a, b, c, d] = *gate;
    kind <= 1 && both_below([a, b, c, d], line)
}

// Whether every gate is sound, the first on line first.
fn gates_sound(first: usize, gates: &[u8]) -> bool
    requires { first + length gates.now / 5 ≤ 65535 }
    ensures { result ≡ are_gates first gates.now }
{
    for (g, gate) in gates.as_chunks::<5>().0.iter().enumerate() {
        if !gate_sound(first + g, gate) {
            return false;
        }
    }
    true
}

// Whether every output's lines, or the lamp's, are in the netlist.
fn pairs_sound(lines: usize, pairs: &[u8]) -> bool
    requires { lines ≤ 65535 }
    ensures { result ≡ are_pairs lines pairs.now }
{
    pairs
        .as_chunks::<4>()
        .0
        .iter()
        .all(|pair| both_below(*pair, lines))
}

// Question 12: is every kind 0 or 1, every source below its gate's own line, every output line and lamp line in the netlist?
pub fn ask_wiring(n: usize, gates: &[u8], pairs: &[u8], lamp: &[u8]) -> Wiring
    requires { (n ≤ 12) × (length gates.now / 5 ≤ 10602) }
    ensures { result ≡ wiring_of n gates.now pairs.now lamp.now }
{
    let first = 2 + 2 * n;
    let lines = first + gates.len() / 5;
    if gates_sound(first, gates) && pairs_sound(lines, pairs) && pairs_sound(lines, lamp) {
        Wiring::Sound
    } else {
        Wiring::Unsound
    }
}
