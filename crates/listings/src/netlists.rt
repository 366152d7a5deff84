// What check says of a table, and the file that a build writes: its length, each gate by its line and sources, and each output's
// true and false line, and the lamp's.
use files::Refusal;
use netlist::{Gate, Pair};
use std::io;
use std::io::Write;
use synthesis::Checked;
use text::print::Outcome;
use text::{print, spelling};

// Points, which stand where nothing is written, are no whole field of a buffer this short.
pub fn show<W: Write>(out: &mut W, table: &[u8]) -> io::Result<()> {
    show_checked(out, Checked::from(synthesis::check(table)))?;
    write!(out, "built")?;
    show_file(out, table, |table, file| synthesis::build(table, file))
}

// The same of the file that build with lamp writes, without what check says.
pub fn show_with_lamp<W: Write>(out: &mut W, table: &[u8]) -> io::Result<()> {
    show_file(
        out,
        table,
        |table, file| synthesis::build_with_lamp(table, file),
    )
}

fn show_checked<W: Write>(out: &mut W, checked: Checked) -> io::Result<()> {
    writeln!(
        out,
        ": {}, contacts {}, outputs {}, gates {}, depth {}",
        checked.refusal, checked.contacts, checked.outputs, checked.gates, checked.depth
    )
}

// What a build says, and the gates, the outputs and the lamp of the file that it writes.
fn show_file<W: Write, F: FnOnce(&[u8], &mut [u8]) -> Result<u32, Refusal>>(
    out: &mut W,
    table: &[u8],
    build: F,
) -> io::Result<()>
    requires { F.IsAlwaysCallable build }
{
    let mut file = [b'.'; 8192];
    let built = build(table, &mut file);
    write!(out, "{}", Outcome(built, "bytes"))?;
    let contacts = fields::byte(reader::nth(&file, 0), 0);
    show_gates(out, reader::nth(&file, 1), contacts)?;
    show_pairs(out, "output", reader::nth(&file, 2))?;
    show_pairs(out, "lamp", reader::nth(&file, 3))
}

// The gates from the first line past the rails on, eight to a row.
fn show_gates<W: Write>(out: &mut W, gates: &[u8], contacts: u8) -> io::Result<()> {
    let first = 2 + 2 * usize::from(contacts);
    for (g, gate) in gates.as_chunks::<5>().0.iter().enumerate() {
        let gate = Gate::from(gate);
        let before = if g % 8 == 0 { "\n" } else { "; " };
        let kind = if gate.kind == 0 { "AND" } else { "OR" };
        write!(
            out,
            "{before}{} {kind} {} {}",
            first + g,
            gate.left,
            gate.right
        )?;
    }
    Ok(())
}

// Each pair's true line and false line, behind what it is called and its number.
fn show_pairs<W: Write>(out: &mut W, name: &str, pairs: &[u8]) -> io::Result<()> {
    for (j, pair) in pairs.as_chunks::<4>().0.iter().enumerate() {
        let pair = Pair::from(pair);
        write!(out, "\n{name} {j}: {} {}", pair.on, pair.off)?;
    }
    Ok(())
}

// What build says, and how many bytes of the lent buffer keep their values.
pub fn show_kept<W: Write>(out: &mut W, table: &[u8], case: &[u8]) -> io::Result<()> {
    show_lent(
        out,
        table,
        case,
        |table, file| synthesis::build(table, file),
    )
}

// The same of build with lamp.
pub fn show_kept_with_lamp<W: Write>(out: &mut W, table: &[u8], case: &[u8]) -> io::Result<()> {
    show_lent(
        out,
        table,
        case,
        |table, file| synthesis::build_with_lamp(table, file),
    )
}

// What a build says that is lent as many bytes as the case says, and how many of them keep their values.
fn show_lent<W: Write, F: FnOnce(&[u8], &mut [u8]) -> Result<u32, Refusal>>(
    out: &mut W,
    table: &[u8],
    case: &[u8],
    build: F,
) -> io::Result<()>
    requires { F.IsAlwaysCallable build }
{
    let len = spelling::number(out, case, 1, 10610)?;
    let mut lent = [b'.'; 10609];
    let file = &mut lent[..len];
    let built = build(table, file);
    write!(
        out,
        "{}, kept {}",
        Outcome(built, "bytes"),
        print::kept(file)
    )
}
