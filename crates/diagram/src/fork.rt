// Whether a level's contact makes a difference at some node.
ghost use Rattle.std.specs.Prelude.{◌≡◌, ◌+◌, ◌*◌, ◌≤◌, ◌<◌, length};
ghost use Rattle.fields.specs.Bounded.{any};
ghost use Rattle.diagram.specs.Diagram.{width, is_fork};
ghost use Rattle.diagram.specs.Inner.Bytes.{is_fork_at};

use crate::Diagram;

// Whether some of so many nodes, whose edges stand from a place on, has two different ones.
pub fn forks(edges: &[u8], from: usize, nodes: usize) -> bool
    requires { from + 2 * nodes ≤ length edges.now }
    ensures { result ≡ any nodes (is_fork_at edges.now from) }
{
    edges[from..from + 2 * nodes]
        .chunks_exact(2)
        .any(|node| node[0] != node[1])
}

impl Diagram {
    // Whether some node of a level has two different edges.
    pub fn forks(&self, level: usize) -> bool
        requires { (level < self.now.contacts) × (self.now.contacts ≤ 12) × (width self.now level ≤ 8) }
        ensures { result ≡ any (width self.now level) (is_fork self.now level) }
    {
        forks(&self.edges, level * 16, self.widths[level])
    }
}
