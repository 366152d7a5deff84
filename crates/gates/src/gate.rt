// Gates written one after another, five bytes each.
ghost use Rattle.std.specs.Prelude.{◌≡◌, ◌*◌, ◌≤◌, length, take};
ghost use Rattle.rules.specs.Make.{gate};
ghost use Rattle.gates.specs.Inner.Written.{Written, GateRoom};

// A writer of gates: the buffer, the line of the first gate, and the number of gates made so far.
#[derive(Drop)]
pub struct Gates<'a> {
    pub out: &'a mut [u8],
    pub first: usize,
    pub made: usize,
}

impl<'a> Gates<'a> {
    // Makes a gate on the next line: AND (kind 0) or OR (kind 1) of two lines, the kind as the file has it. Returns its line.
    pub fn gate(&mut self, kind: u8, left: u16, right: u16) -> u16
        requires { GateRoom self.old 1 }
        ensures { Written (gate kind left right) self.old self.new result }
    {
        let at = 5 * self.made;
        let line = (self.first + self.made) as u16;
        self.out[at] = kind;
        files::put_number(self.out, at + 1, left);
        files::put_number(self.out, at + 3, right);
        self.made += 1;
        line
    }

    // The bytes of the gates made so far.
    pub fn bytes(&self) -> &[u8]
        requires { 5 * self.now.made ≤ length self.now.out.now }
        ensures { result.now ≡ take (5 * self.now.made) self.now.out.now }
    {
        let end = 5 * self.made;
        &self.out[..end]
    }
}
