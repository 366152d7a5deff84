// Questions 3 and 4, about the fields of a table file.
ghost use Rattle.std.specs.Prelude.{◌≡◌, [], ◌∷◌};
ghost use Rattle.fields.specs.Fields.{item_of};
ghost use Rattle.fields.specs.Inner.Walk.{items_from};
ghost use Rattle.table.specs.Table.{outputs_in, levels_in};

use fields::{Cursor, Field, Step};

// Question 4's answer. An enum of its own: `levels_number` states the number of each case.
#[derive(Clone, Copy, Drop)]
pub enum Levels {
    Given,
    Lacking,
}

// Question 3 of a file's second field, which gives the count of outputs: is it tag 2, length 1 to 8?
pub fn count_outputs(file: &[u8], field: Field) -> Option<usize>
    ensures { result ≡ outputs_in (item_of file.now field ∷ []) }
{
    if !files::has_parts(file, field, 2, 1, 1, 8) {
        return None;
    }
    Some(fields::value(file, field).len())
}

// Question 4 of the fields from a place on: are they exactly n fields of tag 3 and no others, each of even length 2 to 16?
pub fn ask_levels(file: &[u8], at: usize, n: usize) -> Levels
    ensures { result ≡ levels_in n (items_from file.now at) }
{
    let mut cursor = Cursor { at };
    // So many steps of a cursor that is handed back moved.
    for _ in 0..n {
        let Step::Next(field, moved) = cursor.next(file) else {
            return Levels::Lacking;
        };
        if !files::has_parts(file, field, 3, 2, 1, 8) {
            return Levels::Lacking;
        }
        cursor = moved;
    }
    let Step::Next(_, _) = cursor.next(file) else {
        return Levels::Given;
    };
    Levels::Lacking
}
