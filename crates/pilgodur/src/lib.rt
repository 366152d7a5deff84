// The services for C. include/pilgodur.h has their prototypes; a byte string is a pointer and then a length there.
#![tactic(auto)]

ghost use Rattle.std.specs.Prelude.{◌≡◌};
ghost use Rattle.table.specs.Table.{reading_of};
ghost use Rattle.simulation.specs.Service.{run_of, step_of};
ghost use Rattle.sheet.specs.Service.{sheeting_of};
ghost use Rattle.truths.specs.Service.{from_drawing_of};
ghost use Rattle.coverage.specs.Service.{from_rules_of};
ghost use Rattle.synthesis.specs.Service.{checked_of, building_of, lamp_building_of};
ghost use Rattle.answers.specs.Answers.{probe_of};

use answers::Probed;
use files::Written;
use run::Stepped;
use synthesis::Checked;
use table::Reading;

// Checks a table: questions 1 to 7; its contacts and outputs, and the gates and depth of its netlist.
#[unsafe(no_mangle)]
pub extern "C" fn pilgodur_check(table: &[u8]) -> Checked
    ensures { result ≡ checked_of table.now }
{
    Checked::from(synthesis::check(table))
}

// Builds a table's netlist: questions 1 to 7, then 9; the file's bytes and its length.
#[unsafe(no_mangle)]
pub extern "C" fn pilgodur_build(table: &[u8], file: &mut [u8]) -> Written
    ensures { record { refusal = result.refusal; length = result.length; buffer = file.new }
        ≡ building_of table.now file.old }
{
    Written::from(synthesis::build(table, file))
}

// Builds a table's netlist with its lamp: questions 1 to 7, then 9; the file's bytes and its length.
#[unsafe(no_mangle)]
pub extern "C" fn pilgodur_build_with_lamp(table: &[u8], file: &mut [u8]) -> Written
    ensures { record { refusal = result.refusal; length = result.length; buffer = file.new }
        ≡ lamp_building_of table.now file.old }
{
    Written::from(synthesis::build_with_lamp(table, file))
}

// Reads a table's outputs off at an input: questions 1 to 7, then 10.
#[unsafe(no_mangle)]
pub extern "C" fn pilgodur_read_off(table: &[u8], input: u32) -> Reading
    ensures { result ≡ reading_of table.now input }
{
    Reading::from(table::read_off(table, input))
}

// Runs a netlist with lines and pins held: questions 11 to 14, then 9 for either buffer.
#[unsafe(no_mangle)]
pub extern "C" fn pilgodur_run(
    netlist: &[u8],
    rails: &[u8],
    holds: &[u8],
    lines: &mut [u8],
    pairs: &mut [u8],
) -> u32
    ensures { record { refusal = result; lines = lines.new; pairs = pairs.new }
        ≡ run_of netlist.now rails.now holds.now lines.old pairs.old }
{
    match run::run(netlist, rails, holds, lines, pairs) {
        Ok(()) => 0,
        Err(refusal) => refusal.number(),
    }
}

// Works out so many lines of a run from a place on: questions 11 to 14, then 21, then 9 for either buffer; the place after them.
#[unsafe(no_mangle)]
pub extern "C" fn pilgodur_step(
    netlist: &[u8],
    rails: &[u8],
    holds: &[u8],
    place: u32,
    count: u32,
    lines: &mut [u8],
    pairs: &mut [u8],
) -> Stepped
    ensures { record { refusal = result.refusal; place = result.place; lines = lines.new; pairs = pairs.new }
        ≡ step_of netlist.now rails.now holds.now place count lines.old pairs.old }
{
    let stepped = run::step(netlist, rails, holds, place, count, lines, pairs);
    Stepped::from(stepped)
}

// Probes a stuck line or pin: questions 1 to 7, 14, 15, then 9.
#[unsafe(no_mangle)]
#[tactic(auto, unfolding(answers::specs::Answers::probe_of))]
pub extern "C" fn pilgodur_probe(table: &[u8], hold: &[u8], buffer: &mut [u8]) -> Probed
    ensures { record { answer = result; buffer = buffer.new }
        ≡ probe_of table.now hold.now buffer.old }
{
    Probed::from(probe::probe(table, hold, buffer))
}

// Writes a netlist's sheet: questions 11 and 12, then 9; the sheet's bytes and its length.
#[unsafe(no_mangle)]
pub extern "C" fn pilgodur_sheet(netlist: &[u8], text: &mut [u8]) -> Written
    ensures { record { refusal = result.refusal; length = result.length; buffer = text.new }
        ≡ sheeting_of netlist.now text.old }
{
    Written::from(sheet::sheet(netlist, text))
}

// Writes the table of a drawing's functions: question 16, then 17, then 9; the table's bytes and its length.
#[unsafe(no_mangle)]
pub extern "C" fn pilgodur_from_drawing(drawing: &[u8], table: &mut [u8]) -> Written
    ensures { record { refusal = result.refusal; length = result.length; buffer = table.new }
        ≡ from_drawing_of drawing.now table.old }
{
    Written::from(truths::from_drawing(drawing, table))
}

// Writes the table of a rule sheet: questions 18, 19, 20, 17, then 9; the table's bytes and its length.
#[unsafe(no_mangle)]
pub extern "C" fn pilgodur_from_rules(rules: &[u8], table: &mut [u8]) -> Written
    ensures { record { refusal = result.refusal; length = result.length; buffer = table.new }
        ≡ from_rules_of rules.now table.old }
{
    Written::from(coverage::from_rules(rules, table))
}
