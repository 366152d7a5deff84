// The gates of a lamp: two pairs joined into one, and all pairs of a board.
ghost use Rattle.std.specs.Prelude.{◌≤◌, length};
ghost use Rattle.netlist.specs.Netlist.{pairs_of};
ghost use Rattle.rules.specs.Blocks.{cut};
ghost use Rattle.rules.specs.Lamp.{join, join_tree};
ghost use Rattle.gates.specs.Inner.Written.{Written, GateRoom, RoomFor};

use crate::gate::Gates;
use netlist::Pair;

impl<'a> Gates<'a> {
    // Joins two pairs: the OR of two ANDs is the true line, that of two more the false line.
    fn join(&mut self, left: Pair, right: Pair) -> Pair
        requires { GateRoom self.old 6 }
        ensures { Written (join left right) self.old self.new result }
    {
        let both = self.gate(0, left.on, right.on);
        let neither = self.gate(0, left.off, right.off);
        let on = self.gate(1, both, neither);
        let one = self.gate(0, left.on, right.off);
        let other = self.gate(0, left.off, right.on);
        let off = self.gate(1, one, other);
        Pair { on: on, off: off }
    }

    // Joins the pairs of some bytes, four bytes a pair: each part's joins come first, then the join of the two.
    pub fn join_tree(&mut self, pairs: &[u8]) -> Pair
        requires { (4 ≤ length pairs.now) × RoomFor (join_tree (cut (length (pairs_of pairs.now))) (pairs_of pairs.now)) self.old }
        ensures { Written (join_tree (cut (length (pairs_of pairs.now))) (pairs_of pairs.now)) self.old self.new result }
    {
        let count = pairs.len() / 4;
        if count <= 1 {
            return netlist::pair_at(pairs, 0);
        }
        let (left, right) = pairs.split_at(4 * ((count + 1) / 2));
        let one = self.join_tree(left);
        let other = self.join_tree(right);
        self.join(one, other)
    }
}
