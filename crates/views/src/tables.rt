// The number that a table's file gets, what its diagram is where it is accepted, and what is read off at the first inputs.
use diagram::Diagram;
use files::Refusal;
use std::io;
use std::io::Write;
use text::print::Outcome;
use text::{print, spelling};

pub fn show<W: Write>(out: &mut W, file: &[u8]) -> io::Result<()> {
    let table = table::read(file);
    write!(out, ": {}", print::refusal(&table))?;
    if let Ok(d) = table {
        shape(out, d)?;
    }
    words(out, file)
}

fn shape<W: Write>(out: &mut W, d: Diagram) -> io::Result<()> {
    write!(
        out,
        ", contacts {}, outputs {}, widths",
        d.contacts, d.outputs
    )?;
    for width in d.widths.iter().take(d.contacts) {
        write!(out, " {width}")?;
    }
    Ok(())
}

// The words at inputs 0 to 8, up to the first that is refused.
fn words<W: Write>(out: &mut W, file: &[u8]) -> io::Result<()> {
    write!(out, "; read off")?;
    // By number: a is the input.
    for a in 0..9 {
        match table::read_off(file, a) {
            Ok(word) => write!(out, " {word}")?,
            Err(refusal) => return write!(out, " refused {}", refusal.number()),
        }
    }
    write!(out, " ..")
}

// What is read off at one input.
pub fn show_at<W: Write>(out: &mut W, file: &[u8], case: &[u8]) -> io::Result<()> {
    let input = spelling::number(out, case, 1, 4_294_967_296)?;
    let reading = table::read_off(file, input as u32);
    write!(out, "{}", Outcome(reading, "word"))
}

// The number that a table's file gets and, where question 6 is asked, the first two alike nodes of one level and how many pairs are
// compared to find them.
pub fn show_twins<W: Write>(out: &mut W, file: &[u8]) -> io::Result<()> {
    let table = table::read(file);
    write!(out, ": {}", print::refusal(&table))?;
    let (Ok(_) | Err(Refusal::Twins | Refusal::Numbering)) = table else {
        return Ok(());
    };
    let found = table::find_twins(file);
    match found.twins {
        None => write!(out, ", no two alike")?,
        Some(pair) => write!(
            out,
            ", in level {} nodes {} and {}",
            pair.level, pair.earlier, pair.later
        )?,
    }
    write!(out, ", compared {}", found.compared)
}
