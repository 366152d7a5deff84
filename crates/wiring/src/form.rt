// Question 11: the form of a netlist file.
ghost use Rattle.std.specs.Prelude.{◌≡◌, not, ◌||◌, IfSome};
ghost use Rattle.fields.specs.Fields.{fields_of};
ghost use Rattle.files.specs.Header.{has_parts};
ghost use Rattle.files.specs.Inner.Row.{is_some, item_by};
ghost use Rattle.wiring.specs.Questions.{form_of};
ghost use Rattle.wiring.specs.Inner.Read.{PartsOf, contacts_by};

use crate::parts::Parts;
use fields::{Field, value};
use files::has_parts;

// Whether the fourth field, if there is one, is tag 6 of one whole pair.
fn may_be_lamp(file: &[u8], fourth: Option<Field>) -> bool
    ensures { result ≡ (not (is_some fourth) || has_parts 6 4 1 1 (item_by file.now fourth)) }
{
    match fourth {
        Some(lamp) => has_parts(file, lamp, 6, 4, 1, 1),
        None => true,
    }
}

// The bytes of the fourth field, if there is one.
fn lamp_of(file: &[u8], fourth: Option<Field>) -> &[u8]
    ensures { result.now ≡ (item_by file.now fourth).value }
{
    match fourth {
        Some(lamp) => value(file, lamp),
        None => &file[..0],
    }
}

// Question 11: does the file have whole fields of tags 1, 4, 5 in that order, then at most tag 6 and no more, tag 1 as in
// question 2, tag 4 of 0 to 10,602 whole gates, tag 5 of 1 to 8 whole outputs, tag 6 of one whole pair? They are its parts.
pub fn ask_form(file: &[u8]) -> Option<Parts<'_>>
    ensures formed { contacts_by result ≡ form_of (fields_of file.now) }
    ensures parts { IfSome result (λ p. PartsOf file.now p) }
{
    let row = files::first_four(file);
    let n = files::count_contacts(file, row.first?)?;
    let gates = row.second?;
    if !has_parts(file, gates, 4, 5, 0, 10602) {
        return None;
    }
    let outputs = row.third?;
    if !has_parts(file, outputs, 5, 4, 1, 8) {
        return None;
    }
    if !may_be_lamp(file, row.fourth) {
        return None;
    }
    if !row.ends {
        return None;
    }
    Some(Parts {
        contacts: n,
        gates: value(file, gates),
        outputs: value(file, outputs),
        lamp: lamp_of(file, row.fourth),
    })
}
