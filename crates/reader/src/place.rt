// Fields by their place.
ghost use Rattle.std.specs.Prelude.{◌≡◌};
ghost use Rattle.fields.specs.Fields.{fields_of, value_in};

use crate::Reader;

// The value of the field at a place in the sequence of fields; nothing where there are not so many.
pub fn nth(file: &[u8], place: usize) -> &[u8]
    ensures { result.now ≡ value_in (fields_of file.now).items place }
{
    let reader = Reader::new(file).skip(place);
    reader.value(reader.next())
}
