// The service sheet.
ghost use Rattle.std.specs.Prelude.{◌≡◌};
ghost use Rattle.files.specs.Room.{written};
ghost use Rattle.sheet.specs.Service.{sheeting_of};

use crate::page;
use files::{Refusal, Room};

// Writes a netlist's sheet from the start of the lent buffer and returns its length; a refusal leaves the buffer as it came.
pub fn sheet(netlist: &[u8], text: &mut [u8]) -> Result<u32, Refusal>
    ensures { written result text.new ≡ sheeting_of netlist.now text.old }
{
    let parts = wiring::read(netlist)?;
    let length = page::length_of(page::rows_of(&parts));
    let Room::Enough = files::ask_room(length, text.len()) else {
        return Err(Refusal::Room);
    };
    page::put_sheet(text, &parts);
    Ok(length as u32)
}
