// Quasi-reduced decision diagrams with several outputs: questions 5 and 7 about one, and its outputs at an input.
#![tactic(auto)]

ghost use Rattle.std.specs.Prelude.{◌≡◌, ◌*◌, ◌≤◌, ◌<◌};
ghost use Rattle.fields.specs.Bounded.{listed};
ghost use Rattle.diagram.specs.Diagram as diagrams;

mod evaluate;
mod fork;
mod sound;

pub use fork::forks;
pub use sound::{Numbering, Range};

// A decoded table. Level l has widths[l] nodes, and its edges stand from 16 l on: 16 l + 2 u is the 0-edge of node u,
// 16 l + 2 u + 1 its 1-edge. Output j starts at node roots[j] of level 0. What lies past the counts is 0.
// Arrays of a fixed length with their counts, since nothing is allocated. No field says that the limits are kept: the promises name
// these fields, and speak of diagrams beyond the limits, too.
#[derive(Clone, Copy, Drop)]
pub struct Diagram {
    pub contacts: usize,
    pub outputs: usize,
    pub roots: [u8; 8],
    pub widths: [usize; 12],
    pub edges: [u8; 192],
}

impl Diagram {
    // The number of nodes of a level; level n has two.
    pub fn width(&self, level: usize) -> usize
        requires { self.now.contacts ≤ 12 }
        ensures { result ≡ diagrams.width self.now level }
    {
        if level < self.contacts {
            self.widths[level]
        } else {
            2
        }
    }

    // The edges of a level, two bytes for each node, 0-edge first.
    pub fn level(&self, level: usize) -> &[u8]
        requires { (level < self.now.contacts) × (self.now.contacts ≤ 12) × (diagrams.width self.now level ≤ 8) }
        ensures { result.now ≡ listed (diagrams.edge_at self.now level) (2 * diagrams.width self.now level) 0 }
    {
        let from = level * 16;
        &self.edges[from..from + 2 * self.widths[level]]
    }
}
