// What the services answer C, and the promises about all of them.
#![tactic(auto)]

ghost use Rattle.std.specs.Prelude.{◌≡◌};
ghost use Rattle.stuck.specs.Service.{answer_of};
ghost use Rattle.answers.specs.Answers.{way_number, probed_by};

use files::Refusal;
use stuck::Way;

// What probe returns to C; the way is 0 for both low, 1 for both high, 2 for hidden.
#[repr(C)]
#[derive(Clone, Copy, Drop)]
pub struct Probed {
    pub refusal: u32,
    pub input: u32,
    pub output: u32,
    pub way: u32,
}

// The number of a way. No `From`: neither `Way` nor `u32` is of this crate.
pub fn way_number(way: Way) -> u32
    ensures { result ≡ way_number way }
{
    match way {
        Way::BothLow => 0,
        Way::BothHigh => 1,
        Way::Hidden => 2,
    }
}

impl From<Result<stuck::Probed, Refusal>> for Probed {
    ghost from_gives = { λ x p. p ≡ probed_by (answer_of x) };

    // With a refusal every other number is zero.
    fn from(probed: Result<stuck::Probed, Refusal>) -> Probed {
        match probed {
            Ok(found) => Probed {
                refusal: 0,
                input: found.input,
                output: found.output,
                way: way_number(found.way),
            },
            Err(refusal) => Probed {
                refusal: refusal.number(),
                input: 0,
                output: 0,
                way: 0,
            },
        }
    }
}
