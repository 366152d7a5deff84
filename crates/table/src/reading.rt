// A table read under questions 1 to 7, and its word at an input.
ghost use Rattle.std.specs.Prelude.{◌≡◌, ◌≤◌, IfOk};
ghost use Rattle.diagram.specs.Inner.Fit.{Fit};
ghost use Rattle.files.specs.Refusals.{number_in};
ghost use Rattle.table.specs.Table.{diagram_in, fields_refusal, diagram_refusal, table_refusal, reading, reading_of};
ghost use Rattle.table.specs.Inner.Read.{comparison_in};

use crate::fit::Levels;
use crate::{decode, fit};
use diagram::{Diagram, Numbering, Range};
use fields::Framing;
use files::Refusal;
use twins::Comparison;

// What reading off returns to C: the outputs at an input, output j with the weight 2^j, or the number of the refusal.
#[repr(C)]
#[derive(Clone, Copy, Drop)]
pub struct Reading {
    pub refusal: u32,
    pub word: u32,
}

impl From<Result<u32, Refusal>> for Reading {
    ghost from_gives = { λ x r. r ≡ reading x };

    // With a refusal the word is zero.
    fn from(word: Result<u32, Refusal>) -> Reading {
        match word {
            Ok(word) => Reading { refusal: 0, word },
            Err(refusal) => Reading {
                refusal: refusal.number(),
                word: 0,
            },
        }
    }
}

// Questions 1 to 4.
fn asked_of_fields(file: &[u8]) -> Result<(), Refusal>
    ensures { number_in result ≡ fields_refusal file.now }
{
    let Framing::Whole = fields::whole(file) else {
        return Err(Refusal::Framing);
    };
    let Some((first, past_first)) = files::take(file, 0) else {
        return Err(Refusal::Contacts);
    };
    let Some(n) = files::count_contacts(file, first) else {
        return Err(Refusal::Contacts);
    };
    let Some((second, past)) = files::take(file, past_first) else {
        return Err(Refusal::Outputs);
    };
    let Some(_) = fit::count_outputs(file, second) else {
        return Err(Refusal::Outputs);
    };
    let Levels::Given = fit::ask_levels(file, past, n) else {
        return Err(Refusal::Levels);
    };
    Ok(())
}

// Questions 5 to 7.
fn asked_of_diagram(d: &Diagram) -> Result<(), Refusal>
    requires { Fit d.now × (d.now.outputs ≤ 8) }
    ensures { number_in result ≡ diagram_refusal d.now }
{
    let Range::Within = d.ask_range() else {
        return Err(Refusal::Range);
    };
    let None = twins::find_twins(d).twins else {
        return Err(Refusal::Twins);
    };
    let Numbering::InTurn = d.ask_numbering() else {
        return Err(Refusal::Numbering);
    };
    Ok(())
}

// The table in a file, under questions 1 to 7.
pub fn read(file: &[u8]) -> Result<Diagram, Refusal>
    ensures refusal { number_in result ≡ table_refusal file.now }
    ensures diagram { IfOk result (λ d. d ≡ diagram_in file.now) }
{
    asked_of_fields(file)?;
    let d = decode::diagram(file);
    asked_of_diagram(&d)?;
    Ok(d)
}

// What question 6's search hands back; nothing is compared in a file that questions 1 to 4 refuse.
pub fn find_twins(file: &[u8]) -> Comparison
    ensures { result ≡ comparison_in file.now }
{
    match asked_of_fields(file) {
        Ok(()) => twins::find_twins(&decode::levels(file)),
        Err(_) => Comparison {
            twins: None,
            compared: 0,
        },
    }
}

// The word of a table at input a: question 10 after the table's own.
pub fn read_off(file: &[u8], a: u32) -> Result<u32, Refusal>
    ensures { reading result ≡ reading_of file.now a }
{
    let d = read(file)?;
    if 1u32 << d.contacts <= a {
        return Err(Refusal::Input);
    }
    Ok(d.word(a))
}
