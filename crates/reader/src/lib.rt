// The reader remembers the file and how far it has read. Its functions take it apart and leave the work to those of the cursor.
#![tactic(auto)]

mod place;

ghost use Rattle.std.specs.Prelude.{◌≡◌, drop};
ghost use Rattle.fields.specs.Inner.Walk.{step_at, items_from};
ghost use Rattle.reader.specs.Inner.Found.{found_in};

use fields::{Cursor, Step, value};
pub use place::nth;

// The value of the field that a step found, as that part of the file; nothing where it found none.
fn found(file: &[u8], step: Step) -> &[u8]
    ensures { result.now ≡ found_in file.now step }
{
    let Step::Next(field, _) = step else {
        return &file[..0];
    };
    value(file, field)
}

// A file, and how far it has been read.
#[derive(Clone, Copy, Drop)]
pub struct Reader<'a> {
    pub src: &'a [u8],
    pub at: usize,
}

impl<'a> Reader<'a> {
    // The reader at the first field of a file.
    pub fn new(src: &'a [u8]) -> Reader<'a>
        ensures { (result.src ≡ src.entry) × (result.at ≡ 0) }
    {
        Reader { src: src, at: 0 }
    }

    // The next field that is no note, or why there is none.
    pub fn next(self) -> Step
        ensures { result ≡ step_at self.entry.src.now self.entry.at }
    {
        let cursor = Cursor { at: self.at };
        cursor.next(self.src)
    }

    // The reader past so many fields more, or where the whole fields end before that.
    pub fn skip(self, count: usize) -> Reader<'a>
        ensures { (result.src ≡ self.entry.src)
            × (items_from result.src.now result.at ≡ drop count (items_from self.entry.src.now self.entry.at)) }
    {
        let cursor = Cursor { at: self.at };
        let moved = cursor.skip(self.src, count);
        Reader {
            src: self.src,
            at: moved.at,
        }
    }

    // The value of the field that a step found, as that part of the file; nothing where it found none.
    pub fn value(self, step: Step) -> &'a [u8]
        ensures { result.now ≡ found_in self.entry.src.now step }
    {
        found(self.src, step)
    }
}
