// A board: what its lines are worked out from.
ghost use Rattle.std.specs.Prelude.{◌+◌, ◌/◌, length};
ghost use Rattle.evaluation.specs.Inner.Ready.{Ready};

// The bytes of its gates, and the rails and the holds that it is run with.
#[derive(Clone, Copy, Drop)]
pub struct Board<'a> {
    pub gates: &'a [u8],
    pub rails: &'a [u8],
    pub holds: &'a [u8],
    ghost ready: { Ready gates.now rails.now holds.now (2 + length rails.now + length gates.now / 5) },
}
