// Questions 5 and 7, about a diagram.
ghost use Rattle.std.specs.Prelude.{◌≡◌, ◌≤◌, ltb, length, get_or};
ghost use Rattle.std.specs.List.{list_all};
ghost use Rattle.fields.specs.Bounded.{listed};
ghost use Rattle.diagram.specs.Questions as questions;
ghost use Rattle.diagram.specs.Questions.{mention, range_of, numbering_of};
ghost use Rattle.diagram.specs.Inner.Fit.{Fit};

use crate::Diagram;

// Question 5's answer. An enum of its own: `range_number` states the number of each case.
#[derive(Clone, Copy, Drop)]
pub enum Range {
    Within,
    Outside,
}

// Question 7's answer. An enum of its own: `numbering_number` states the number of each case.
#[derive(Clone, Copy, Drop)]
pub enum Numbering {
    InTurn,
    OutOfTurn,
}

// Whether all bytes are below a bound.
fn below(bytes: &[u8], bound: usize) -> bool
    ensures { result ≡ list_all (λ b. ltb b bound) bytes.now }
{
    bytes.iter().all(|byte| (*byte as usize) < bound)
}

// Whether the bytes each mention a node mentioned before or the next number, and mention so many nodes.
fn in_turn(bytes: &[u8], nodes: usize) -> bool
    ensures { result ≡ questions.in_turn (λ k. get_or bytes.now k 0) (length bytes.now) nodes }
{
    let mut next: usize = 0;
    for byte in bytes {
        let node = *byte as usize;
        if next < node {
            return false;
        }
        next = next.max(node + 1);
    }
    next == nodes
}

impl Diagram {
    // What mentions the nodes of a level: the output list, or the edges of the level before.
    fn mentions(&self, level: usize) -> &[u8]
        requires { Fit self.now × (self.now.outputs ≤ 8) × (level ≤ self.now.contacts) }
        ensures { result.now ≡ listed (mention self.now level) (questions.mentions self.now level) 0 }
    {
        if level == 0 {
            &self.roots[..self.outputs]
        } else {
            self.level(level - 1)
        }
    }

    // Question 5: does every edge and output name a node that its level has?
    pub fn ask_range(&self) -> Range
        requires { Fit self.now × (self.now.outputs ≤ 8) }
        ensures { result ≡ range_of self.now }
    {
        // By number, as each level has mentions and a width.
        for level in 0..=self.contacts {
            if !below(self.mentions(level), self.width(level)) {
                return Range::Outside;
            }
        }
        Range::Within
    }

    // Question 7: are nodes numbered by first mention, and all mentioned?
    pub fn ask_numbering(&self) -> Numbering
        requires { Fit self.now × (self.now.outputs ≤ 8) }
        ensures { result ≡ numbering_of self.now }
    {
        // By number, as each level has mentions and a width.
        for level in 0..self.contacts {
            if !in_turn(self.mentions(level), self.width(level)) {
                return Numbering::OutOfTurn;
            }
        }
        Numbering::InTurn
    }
}
