// The depth of a netlist: a rail or constant has depth 0, a gate one more than its deeper source.
ghost use Rattle.std.specs.Prelude.{◌≡◌, [], ◌+◌, ◌*◌, ◌/◌, ◌≤◌, length, take, replicate};
ghost use Rattle.netlist.specs.Netlist.{gates_of, net_with};
ghost use Rattle.rules.specs.Board.{largest, depth_of};
ghost use Rattle.depths.specs.Inner.Depths.{depths_from, SourcesBelow};

use netlist::Gate;

// Works out the depths of the gates, whose lines go from `first` up, and returns the largest. The buffer has a place for each line: no heap.
fn scan(gates: &[u8], first: usize, depths: &mut [u16]) -> u16
    requires count_bound { (length gates.now / 5 ≤ 65535) × (first + length gates.now / 5 ≤ length depths.old)
        × (take first depths.old ≡ replicate first 0) }
    requires sources_below { SourcesBelow gates.now first (length gates.now / 5) }
    ensures { result ≡ largest (depths_from gates.now first (length gates.now / 5)) }
{
    let mut deepest: u16 = 0;
    for (g, gate) in gates.as_chunks::<5>().0.iter().enumerate() {
        let gate = Gate::from(gate);
        let depth = depths[gate.left as usize].max(depths[gate.right as usize]) + 1;
        depths[first + g] = depth;
        deepest = deepest.max(depth);
    }
    deepest
}

// The depth of a netlist of n contacts and at most so many lines.
fn depth_within<const LINES: usize>(gates: &[u8], n: usize) -> usize
    requires lines_bound { (n ≤ 12) × (length gates.now / 5 ≤ 10560) × (2 + 2 * n + length gates.now / 5 ≤ LINES) × (LINES ≤ 65536) }
    requires sources_below { SourcesBelow gates.now (2 + 2 * n) (length gates.now / 5) }
    ensures { result ≡ depth_of (net_with n (gates_of gates.now) [] []) }
{
    let mut depths = [0u16; LINES];
    scan(gates, 2 + 2 * n, &mut depths) as usize
}

// The depth of a netlist of n contacts and these gates, five bytes each.
pub fn depth_of(gates: &[u8], n: usize) -> usize
    requires n_bound { (n ≤ 12) × (length gates.now / 5 ≤ 10560) }
    requires sources_below { SourcesBelow gates.now (2 + 2 * n) (length gates.now / 5) }
    ensures { result ≡ depth_of (net_with n (gates_of gates.now) [] []) }
{
    // Chosen here: a length is a const argument, which no function hands in.
    if gates.len() / 5 <= 1974 {
        return depth_within::<2_000>(gates, n);
    }
    depth_within::<10_586>(gates, n)
}
