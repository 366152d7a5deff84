// Question 18: the form of a rule sheet.
ghost use Rattle.std.specs.Prelude.{◌≡◌, IfSome, ◌≤◌};
ghost use Rattle.std.specs.Option.{option_map};
ghost use Rattle.fields.specs.Fields.{item_of, fields_from, fields_of};
ghost use Rattle.rulesheet.specs.Rules.{is_rule, form_of};
ghost use Rattle.rulesheet.specs.Inner.Form.{outputs_counted, rules_ended, rules_counted};
ghost use Rattle.rulesheet.specs.Inner.Sheet.{counts_of};

use crate::Sheet;
use fields::Field;

// The count of outputs in a field of tag 8, one byte from 1 to 8, if it is so formed.
fn count_outputs(file: &[u8], field: Field) -> Option<usize>
    ensures { result ≡ outputs_counted (item_of file.now field) }
{
    files::number_field(file, field, 8, 8)
}

// Whether a field is of tag 9: n bytes of 0, 1 or 2, then a word below 2^m.
fn is_rule(file: &[u8], field: Field, n: usize, m: usize) -> bool
    requires { (n ≤ 12) × (m ≤ 8) }
    ensures { result ≡ is_rule n m (item_of file.now field) }
{
    let tag = field.tag;
    let rule = fields::value(file, field);
    if tag != 9 {
        return false;
    }
    if rule.len() != n + 1 {
        return false;
    }
    if !rule[..n].iter().all(|byte| *byte <= 2) {
        return false;
    }
    let word = rule[n] as usize;
    if 1usize << m <= word {
        return false;
    }
    true
}

// So many rules, if there are some and the file ends at a place.
fn count_if_ended(file: &[u8], at: usize, count: usize) -> Option<usize>
    ensures { result ≡ rules_ended count (fields_from file.now at) }
{
    (0 < count && files::ends_at(file, at)).then_some(count)
}

// The count of the rules from a place on, 1 to 64, if what stands there is so formed. What is counted is the answer.
fn count_rules(file: &[u8], at: usize, n: usize, m: usize) -> Option<usize>
    requires { (n ≤ 12) × (m ≤ 8) }
    ensures { result ≡ rules_counted n m (fields_from file.now at) }
{
    let mut place = at;
    // By number: i rules are the answer where the fields end.
    for i in 0..64 {
        let Some((field, past)) = files::take(file, place) else {
            return count_if_ended(file, place, i);
        };
        if !is_rule(file, field, n, m) {
            return None;
        }
        place = past;
    }
    count_if_ended(file, place, 64)
}

// Question 18: does the file have whole fields of tags 1 and 8, then 1 to 64 of tag 9, and no more, tag 1 as in question 2, tag 8 of one
// byte from 1 to 8, each tag 9 of n bytes of 0, 1 or 2 and a word below 2^m?
pub fn ask_form(file: &[u8]) -> Option<Sheet<'_>>
    ensures counts { option_map counts_of result ≡ form_of (fields_of file.now) }
    ensures whole { IfSome result (λ s. s.file.now ≡ file.now) }
{
    let (first, past) = files::take(file, 0)?;
    let contacts = files::count_contacts(file, first)?;
    let (second, at) = files::take(file, past)?;
    let outputs = count_outputs(file, second)?;
    let count = count_rules(file, at, contacts, outputs)?;
    Some(Sheet {
        file,
        at,
        contacts,
        outputs,
        count,
    })
}
