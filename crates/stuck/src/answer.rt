// What probe finds.
ghost use Rattle.std.specs.Prelude.{◌≡◌};
ghost use Rattle.stuck.specs.Service.{way_of, hidden_probe, found};

// How a pair without a code shows; or that no code input shows the held pin.
#[derive(Clone, Copy, Debug, PartialEq, Eq, Drop)]
pub enum Way {
    BothLow,
    BothHigh,
    Hidden,
}

impl From<u8> for Way {
    // The way in which a pair without a code shows, by its true line's value.
    fn from(value: u8) -> Self
        ensures { result ≡ way_of value }
    {
        if value == 0 {
            Way::BothLow
        } else {
            Way::BothHigh
        }
    }
}

// The smallest betraying input, the lowest output that shows it there and the way it shows; or hidden, with
// the numbers 0, as C has it.
#[derive(Clone, Copy, Drop)]
pub struct Probed {
    pub input: u32,
    pub output: u32,
    pub way: Way,
}

impl Probed {
    // Hidden: no code input betrays the hold.
    pub fn hidden() -> Self
        ensures { found result ≡ hidden_probe }
    {
        Probed {
            input: 0,
            output: 0,
            way: Way::Hidden,
        }
    }
}
