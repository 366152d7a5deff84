// Rows of a gate sheet: 21 characters and a line feed.
ghost use Rattle.std.specs.Prelude.{◌≡◌, [], ◌∷◌, ◌++◌, ◌+◌, ◌≤◌, ◌<◌, length};
ghost use Rattle.std.proofs.lemmas.List.Edits.{sets};
ghost use Rattle.sheet.specs.Sheet.{in_five, kind_of, row_text};
ghost use Rattle.sheet.specs.Inner.Places.{sign_at, kind_column};

// What a row is about: a gate, AND or OR, an output, or the lamp.
#[derive(Clone, Copy, Drop)]
pub enum Kind {
    And,
    Or,
    Out,
    Lamp,
}

// A row: a gate's line and sources, or an output's or a lamp's number and its true and false line.
#[derive(Clone, Copy, Drop)]
pub struct Row {
    pub number: u16,
    pub kind: Kind,
    pub first: u16,
    pub second: u16,
}

// The kind of a gate's row.
impl From<u8> for Kind {
    fn from(kind: u8) -> Self
        ensures { result ≡ kind_of kind }
    {
        if kind == 0 { Kind::And } else { Kind::Or }
    }
}

impl Kind {
    // In three characters, standing left, and a blank behind it. By value: a table of addresses would be data of the library's own.
    fn text(self) -> [u8; 4]
        ensures { result ≡ kind_column self }
    {
        match self {
            Kind::And => *b"AND ",
            Kind::Or => *b"OR  ",
            Kind::Out => *b"OUT ",
            Kind::Lamp => *b"LMP ",
        }
    }
}

// The digit at the place of a power of ten, or a blank before the first digit.
fn sign(x: u16, power: u16) -> u8
    requires { 0 < power }
    ensures { result ≡ sign_at power x }
{
    if x < power {
        b' '
    } else {
        (48 + x / power % 10) as u8
    }
}

// A number in five characters, standing right, and a sign behind it. By hand: `write!` to a slice gives a Result, and nothing can fail
// here.
fn put_decimal(text: &mut [u8], at: usize, x: u16, behind: u8)
    requires { at + 6 ≤ length text.old }
    ensures { text.new ≡ sets text.old at (in_five x ++ (behind ∷ [])) }
{
    text[at] = sign(x, 10_000);
    text[at + 1] = sign(x, 1_000);
    text[at + 2] = sign(x, 100);
    text[at + 3] = sign(x, 10);
    text[at + 4] = (48 + x % 10) as u8;
    text[at + 5] = behind;
}

// Writes a row, from a place on.
pub fn put_row(text: &mut [u8], at: usize, row: Row)
    requires { at + 22 ≤ length text.old }
    ensures { text.new ≡ sets text.old at (row_text row) }
{
    put_decimal(text, at, row.number, b' ');
    files::copy(text, at + 6, &row.kind.text());
    put_decimal(text, at + 10, row.first, b' ');
    put_decimal(text, at + 16, row.second, b'\n');
}
