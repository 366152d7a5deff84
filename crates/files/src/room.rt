// Lent buffers: question 9, asked of each, and what a service that writes to one returns.
ghost use Rattle.std.specs.Prelude.{◌≡◌};
ghost use Rattle.files.specs.Refusals.{number_in};
ghost use Rattle.files.specs.Room.{room_of, length_in};

use crate::Refusal;

// Question 9's answer. An enum of its own: `room_number` states the number of each case.
#[derive(Clone, Copy, Drop)]
pub enum Room {
    Enough,
    Short,
}

// Question 9: is a lent buffer long enough?
pub fn ask_room(wanted: usize, lent: usize) -> Room
    ensures { result ≡ room_of wanted lent }
{
    if wanted <= lent {
        Room::Enough
    } else {
        Room::Short
    }
}

// What a service that writes to one lent buffer returns to C: how many bytes it wrote, or the number of its refusal.
#[repr(C)]
#[derive(Clone, Copy, Drop)]
pub struct Written {
    pub refusal: u32,
    pub length: u32,
}

impl From<Result<u32, Refusal>> for Written {
    ghost from_gives = { λ x w. (w.refusal ≡ number_in x) × (w.length ≡ length_in x) };

    // With a refusal the length is zero.
    fn from(written: Result<u32, Refusal>) -> Written {
        match written {
            Ok(length) => Written {
                refusal: 0,
                length: length,
            },
            Err(refusal) => Written {
                refusal: refusal.number(),
                length: 0,
            },
        }
    }
}
