// A drawing's numbers by the contacts that are fixed within a word of a truth table, all but the last six.
ghost use Rattle.std.specs.Prelude.{◌+◌, ◌-◌, ◌<◌, MatchOption};
ghost use Rattle.drawing.specs.Drawing.{node_count, parted};
ghost use Rattle.truths.specs.Inner.Words.{Limited, From, Forks};

use drawing::Parts;

// A drawing that question 16 lets through.
#[derive(Clone, Copy, Drop)]
pub struct Sound<'a> {
    pub parts: Parts<'a>,
    ghost limited: { Limited (parted parts) },
}

impl Sound<'_> {
    // Where a number leads by a fixed contact: how many contacts are fixed after that one, and the 0-edge and the 1-edge; none if no
    // fixed contact leads on from the number.
    pub fn fork(self, v: usize) -> Option<(usize, usize, usize)>
        requires { v < 2 + node_count self.parts.nodes.now }
        ensures { let p = self.entry.parts in MatchOption result (From p.nodes.now (p.contacts - 6) v)
            (λ f. Forks p.contacts p.nodes.now v f.0 f.1 f.2) }
    {
        if v < 2 {
            return None;
        }
        let [level, zero, one] = self.parts.node(v - 2);
        let half = self.parts.contacts.checked_sub(level as usize + 7)?;
        Some((half, zero as usize, one as usize))
    }
}
