// The fields of a file without its notes, a line for each, and then whether the row of fields ends whole.
use fields::{Cursor, Field, Framing, Step};
use std::io;
use std::io::Write;
use text::print::Bytes;

pub fn show<W: Write>(out: &mut W, file: &[u8]) -> io::Result<()> {
    writeln!(out, ":")?;
    walk(out, file)?;
    match fields::whole(file) {
        Framing::Whole => write!(out, "whole"),
        Framing::Broken => write!(out, "broken"),
    }
}

// Every field of a file in sequence, and what stands after the last.
fn walk<W: Write>(out: &mut W, file: &[u8]) -> io::Result<()> {
    let mut cursor = Cursor::new();
    loop {
        match cursor.next(file) {
            Step::Next(field, moved) => {
                show_field(out, file, field)?;
                cursor = moved;
            }
            Step::End => {
                return write!(out, "end, ");
            }
            Step::Cut => {
                return write!(out, "cut, ");
            }
        }
    }
}

fn show_field<W: Write>(out: &mut W, file: &[u8], field: Field) -> io::Result<()> {
    writeln!(
        out,
        "tag {} at {} len {}:{}",
        field.tag,
        field.start,
        field.len,
        Bytes(fields::value(file, field))
    )
}
