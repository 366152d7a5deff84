// Files as rows of fields: one tag byte, two length bytes (high byte first), the value. Fields with tags of 128 to 255 are notes; the
// cursor passes over them.
#![tactic(auto)]

ghost use Rattle.std.specs.Prelude.{◌≡◌, get_or, drop};
ghost use Rattle.fields.specs.Fields.{raw_step_at, value_of, fields_of, number_of};
ghost use Rattle.fields.specs.Inner.Walk.{step_at, items_from};

// One field of a file: its tag, and the place and the length of its value, since `raw_step_at` and `past` speak of the place.
#[derive(Clone, Copy, Drop)]
pub struct Field {
    pub tag: u8,
    pub start: usize,
    pub len: usize,
}

// How far a file has been read.
#[derive(Clone, Copy, Drop)]
pub struct Cursor {
    pub at: usize,
}

// What stands at a cursor: three cases, so neither an Option nor a Result.
#[derive(Clone, Copy, Drop)]
pub enum Step {
    // A whole field, and the cursor moved past it.
    Next(Field, Cursor),
    // Nothing is left.
    End,
    // A field that the end of the file cuts short.
    Cut,
}

// Whether a file splits into whole fields with nothing left over. An enum of its own: `framing_number` states the number of each case.
#[derive(Clone, Copy, Drop)]
pub enum Framing {
    Whole,
    Broken,
}

impl Cursor {
    // The cursor at the first field.
    pub fn new() -> Self
        ensures { result.at ≡ 0 }
    {
        Cursor { at: 0 }
    }

    // The field at the cursor, be it a note, with the moved cursor, or why there is none.
    fn raw_next(self, file: &[u8]) -> Step
        ensures { result ≡ raw_step_at file.now self.at }
    {
        let at = self.at;
        if file.len() <= at {
            return Step::End;
        }
        let left = file.len() - at;
        if left < 3 {
            return Step::Cut;
        }
        let len = number(file[at + 1], file[at + 2]);
        if left - 3 < len {
            return Step::Cut;
        }
        let start = at + 3;
        Step::Next(
            Field {
                tag: file[at],
                start: start,
                len: len,
            },
            Cursor { at: start + len },
        )
    }

    // The next field that is no note, with the cursor moved past it, or why there is none.
    pub fn next(self, file: &[u8]) -> Step
        ensures { result ≡ step_at file.now self.at }
    {
        let mut cursor = self;
        loop {
            let step = cursor.raw_next(file);
            let Step::Next(field, moved) = step else {
                return step;
            };
            if field.tag < 128 {
                return Step::Next(field, moved);
            }
            cursor = moved;
        }
    }

    // The cursor past so many fields more, or where the whole fields end before that.
    pub fn skip(self, file: &[u8], count: usize) -> Self
        ensures { items_from file.now result.at ≡ drop count (items_from file.now self.at) }
    {
        let mut cursor = self;
        // So many steps of a cursor that is handed back moved.
        for _ in 0..count {
            let Step::Next(_, moved) = cursor.next(file) else {
                return cursor;
            };
            cursor = moved;
        }
        cursor
    }
}

// A two-byte number, its high byte first.
pub fn number(high: u8, low: u8) -> usize
    ensures { result ≡ number_of high low }
{
    u16::from_be_bytes([high, low]) as usize
}

// The byte at a place, or 0.
pub fn byte(bytes: &[u8], at: usize) -> u8
    ensures { result ≡ get_or bytes.now at 0 }
{
    bytes.get(at).copied().unwrap_or(0)
}

// The value of a field, as that part of the file.
pub fn value(file: &[u8], field: Field) -> &[u8]
    ensures { result.now ≡ value_of file.now field }
{
    let from_start = &file[field.start.min(file.len())..];
    &from_start[..field.len.min(from_start.len())]
}

// Question 1: do the bytes split into whole fields with nothing left over?
pub fn whole(file: &[u8]) -> Framing
    ensures { result ≡ (fields_of file.now).framing }
{
    let mut cursor = Cursor::new();
    loop {
        match cursor.next(file) {
            Step::Next(_, moved) => {
                cursor = moved;
            }
            Step::End => {
                return Framing::Whole;
            }
            Step::Cut => {
                return Framing::Broken;
            }
        }
    }
}
