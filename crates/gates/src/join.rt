// The gates of a product's entry: the ANDs of its terms, and the ORs that join them.
ghost use Rattle.std.specs.Prelude.{◌≤◌, length};
ghost use Rattle.rules.specs.Blocks.{cut, term, or_tree, joined};
ghost use Rattle.gates.specs.Inner.Written.{Written, RoomFor};

use crate::gate::Gates;
use rules::Entry;

impl<'a> Gates<'a> {
    // A term: never where a factor is, the other factor where one is always, else an AND with the left factor first.
    pub fn term(&mut self, left: Entry, right: Entry) -> Entry
        requires { RoomFor (term left right) self.old }
        ensures { Written (term left right) self.old self.new result }
    {
        match left {
            Entry::Never => Entry::Never,
            Entry::Always => right,
            Entry::Line(a) => match right {
                Entry::Never => Entry::Never,
                Entry::Always => left,
                Entry::Line(b) => Entry::Line(self.gate(0, a, b)),
            },
        }
    }

    // The OR tree of some lines: each part's ORs come first, then the OR of the two.
    fn or_tree(&mut self, lines: &[u16]) -> u16
        requires { (1 ≤ length lines.now) × RoomFor (or_tree (cut (length lines.now)) lines.now) self.old }
        ensures { Written (or_tree (cut (length lines.now)) lines.now) self.old self.new result }
    {
        if lines.len() == 1 {
            return lines[0];
        }
        // Not needed, but quicker.
        if lines.len() == 2 {
            return self.gate(1, lines[0], lines[1]);
        }
        let (left, right) = lines.split_at((lines.len() + 1) / 2);
        let one = self.or_tree(left);
        let other = self.or_tree(right);
        self.gate(1, one, other)
    }

    // The entry of a product whose terms are these lines: never where there is none, else their OR tree.
    pub fn join_lines(&mut self, lines: &[u16]) -> Entry
        requires { RoomFor (joined lines.now) self.old }
        ensures { Written (joined lines.now) self.old self.new result }
    {
        match lines {
            [] => Entry::Never,
            _ => Entry::Line(self.or_tree(lines)),
        }
    }
}
