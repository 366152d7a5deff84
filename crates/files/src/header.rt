// The field that tables and netlists begin with.
ghost use Rattle.std.specs.Prelude.{◌≡◌, [], ◌∷◌};
ghost use Rattle.fields.specs.Fields.{item_of};
ghost use Rattle.files.specs.Header.{contacts_in};
ghost use Rattle.files.specs.Inner.Number.{number_of_one};

use fields::{Field, value};

// The number in a field of a tag and one byte, if it is from 1 to the most.
pub fn number_field(file: &[u8], field: Field, tag: u8, most: u8) -> Option<usize>
    ensures { result ≡ number_of_one tag most (item_of file.now field) }
{
    let contents = value(file, field);
    if field.tag == tag && contents.len() == 1 && 1 <= contents[0] && contents[0] <= most {
        Some(contents[0] as usize)
    } else {
        None
    }
}

// Question 2 of a file's first field, which gives the count of contacts: is it tag 1, length 1, value 1 to 12?
pub fn count_contacts(file: &[u8], field: Field) -> Option<usize>
    ensures { result ≡ contacts_in (item_of file.now field ∷ []) }
{
    number_field(file, field, 1, 12)
}
