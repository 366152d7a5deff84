// The service from-drawing.
ghost use Rattle.std.specs.Prelude.{◌≡◌};
ghost use Rattle.files.specs.Room.{written};
ghost use Rattle.truths.specs.Service.{from_drawing_of};

use crate::paths::Sound;
use crate::writing;
use files::Refusal;

// Writes the table of a drawing's functions from the start of the lent buffer and returns its length; a refusal leaves the buffer as it
// came.
pub fn from_drawing(drawing: &[u8], table: &mut [u8]) -> Result<u32, Refusal>
    ensures { written result table.new ≡ from_drawing_of drawing.now table.old }
{
    let Some(parts) = drawing::ask_form(drawing) else {
        return Err(Refusal::Drawing);
    };
    writing::write_table(Sound { parts: parts }, table)
}
