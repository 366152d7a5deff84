// What a board's pairs show at some input.
ghost use Rattle.std.specs.Prelude.{◌≡◌, true, ◌/◌, ◌≤◌, ◌<◌, length, get_or};
ghost use Rattle.netlist.specs.Netlist.{pair_at, pairs_of};
ghost use Rattle.wiring.specs.Questions.{are_pairs};
ghost use Rattle.faults.specs.Betrayal.{no_code, some_no_code, lowest_no_code};

// A board's pairs, and its lines' values at some input.
#[derive(Clone, Copy, Drop)]
pub struct Shown<'a> {
    pub pairs: &'a [u8],
    pub lines: &'a [u8],
    ghost few: { length pairs.now / 4 ≤ 8 },
    ghost paired: { are_pairs (length lines.now) pairs.now ≡ true },
}

impl Shown<'_> {
    // The values of output j's true line and of its false line.
    pub fn pair(self, j: usize) -> (u8, u8)
        requires { j < length self.pairs.now / 4 }
        ensures on { result.0 ≡ get_or self.entry.lines.now (pair_at self.entry.pairs.now j).on 0 }
        ensures off { result.1 ≡ get_or self.entry.lines.now (pair_at self.entry.pairs.now j).off 0 }
    {
        let pair = netlist::pair_at(self.pairs, j);
        let on = self.lines[usize::from(pair.on)];
        let off = self.lines[usize::from(pair.off)];
        (on, off)
    }

    // Whether output j's pair shows no code.
    fn is_no_code(self, j: usize) -> bool
        requires { j < length self.pairs.now / 4 }
        ensures { result ≡ no_code (pairs_of self.entry.pairs.now) self.entry.lines.now j }
    {
        let (on, off) = self.pair(j);
        on == off
    }

    // The lowest output whose pair shows no code, which some output's does.
    pub fn lowest(self) -> u32
        requires { some_no_code (pairs_of self.pairs.now) self.lines.now ≡ true }
        ensures { result ≡ lowest_no_code (pairs_of self.entry.pairs.now) self.entry.lines.now }
    {
        let count = self.pairs.len() / 4;
        (0..count).find(|j| self.is_no_code(*j)).unwrap() as u32
    }
}
