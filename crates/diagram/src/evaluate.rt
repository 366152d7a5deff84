// The outputs of a diagram at an input.
ghost use Rattle.std.specs.Prelude.{◌≡◌, ◌≤◌};
ghost use Rattle.diagram.specs.Diagram.{input_of, word_at, path};

use crate::Diagram;

impl Diagram {
    // The node of level n that a node of level 0 leads to at an input.
    fn lead(&self, input: u32, node: u8) -> u8
        requires { self.now.contacts ≤ 12 }
        ensures { result ≡ path self.now (input_of input) self.now.contacts 0 node }
    {
        let mut u = node;
        let mut rest = input;
        // By number: l is the level.
        for l in 0..self.contacts {
            u = fields::byte(
                &self.edges,
                l * 16 + (2 * (u as usize) + (rest % 2) as usize),
            );
            rest = rest / 2;
        }
        u
    }

    // The word of the outputs at an input, output j with the weight 2^j.
    pub fn word(&self, input: u32) -> u32
        requires { (self.now.contacts ≤ 12) × (self.now.outputs ≤ 8) }
        ensures { result ≡ word_at self.now (input_of input) self.now.outputs }
    {
        let mut word: u32 = 0;
        for (j, root) in self.roots[..self.outputs].iter().enumerate() {
            word += (self.lead(input, *root) as u32) << j;
        }
        word
    }
}
