// The table of a rule sheet, shown as a drawing's is.
use crate::drawings;
use std::io;
use std::io::Write;

pub fn show<W: Write>(out: &mut W, rules: &[u8], case: &[u8]) -> io::Result<()> {
    drawings::show_table(
        out,
        rules,
        case,
        |rules, table| coverage::from_rules(rules, table),
    )
}
