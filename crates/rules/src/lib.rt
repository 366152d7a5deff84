// The rules that give a table's netlist, gate for gate, and demand 2 about it: specs/ and proofs/. The code that follows them is
// in `gates`, `products`, `blocks` and `synthesis`.
#![tactic(auto)]

// An entry of a matrix: never, always, or a line.
#[derive(Clone, Copy, Drop)]
pub enum Entry {
    Never,
    Always,
    Line(u16),
}

impl From<Entry> for u16 {
    ghost use Rattle.std.specs.Prelude.{◌≡◌};
    ghost use Rattle.rules.specs.Board.{line_of};

    ghost from_gives = { λ entry line. line ≡ line_of entry };

    // The line that stands for an entry: line 0 for never, line 1 for always.
    fn from(entry: Entry) -> u16 {
        match entry {
            Entry::Never => 0,
            Entry::Always => 1,
            Entry::Line(line) => line,
        }
    }
}
