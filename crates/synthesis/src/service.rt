// The services check and build.
ghost use Rattle.std.specs.Prelude.{◌≡◌, true, ◌*◌, ◌≤◌, ◌<◌, length};
ghost use Rattle.files.specs.Room.{written, writing_of};
ghost use Rattle.diagram.specs.Questions.{Sized, in_range};
ghost use Rattle.table.specs.Table.{table_refusal, diagram_in};
ghost use Rattle.netlist.specs.Netlist.{file_with, file_of};
ghost use Rattle.rules.specs.Board.{board_of};
ghost use Rattle.synthesis.specs.Service.{counts_of, checked, checked_of, building_of, lamp_building_of};
ghost use Rattle.synthesis.specs.Inner.Boards.{board_with};

use crate::board;
use diagram::Diagram;
use files::{Refusal, Room};

// A table's contacts and outputs, and its netlist's gates and depth.
#[derive(Clone, Copy, Drop)]
pub struct Counts {
    pub contacts: u32,
    pub outputs: u32,
    pub gates: u32,
    pub depth: u32,
}

// What check returns to C: the counts, or the number of the refusal.
#[repr(C)]
#[derive(Clone, Copy, Drop)]
pub struct Checked {
    pub refusal: u32,
    pub contacts: u32,
    pub outputs: u32,
    pub gates: u32,
    pub depth: u32,
}

impl From<Result<Counts, Refusal>> for Checked {
    ghost from_gives = { λ x c. c ≡ checked x };

    // With a refusal the counts are zero.
    fn from(counts: Result<Counts, Refusal>) -> Checked {
        match counts {
            Ok(counts) => Checked {
                refusal: 0,
                contacts: counts.contacts,
                outputs: counts.outputs,
                gates: counts.gates,
                depth: counts.depth,
            },
            Err(refusal) => Checked {
                refusal: refusal.number(),
                contacts: 0,
                outputs: 0,
                gates: 0,
                depth: 0,
            },
        }
    }
}

// The counts of a diagram's board, whose gates are written to a buffer of so many bytes.
fn measure<const BYTES: usize>(d: &Diagram) -> Counts
    requires { Sized d.now × (in_range d.now ≡ true) × (5 * length (board_of d.now).gates ≤ BYTES) × (BYTES ≤ 65536) }
    ensures { result ≡ counts_of (board_of d.now) }
{
    let mut out = [0u8; BYTES];
    let mut pairs = [0u8; 32];
    let mut gates = board::begin(d, &mut out);
    board::put_board(d, &mut gates, &mut pairs);
    let depth = depths::depth_of(gates.bytes(), d.contacts);
    Counts {
        contacts: d.contacts as u32,
        outputs: d.outputs as u32,
        gates: gates.made as u32,
        depth: depth as u32,
    }
}

// Reads a table and returns its contacts and outputs and its netlist's gates and depth. The buffer for the gates is as long as
// the formula asks, in three lengths.
pub fn check(table: &[u8]) -> Result<Counts, Refusal>
    ensures { checked result ≡ checked_of table.now }
{
    let d = table::read(table)?;
    let most = board::most_gates(&d);
    // Chosen here: a length is a const argument, which no function hands in.
    if most <= 960 {
        return Ok(measure::<4_800>(&d));
    }
    if most <= 2880 {
        return Ok(measure::<14_400>(&d));
    }
    Ok(measure::<52_800>(&d))
}

// Writes a netlist's file, given the bytes of its gates, its pairs and its lamp, from the start of the lent buffer, if there is room.
fn write_file(
    n: usize,
    gates: &[u8],
    pairs: &[u8],
    lamp: &[u8],
    file: &mut [u8],
) -> Result<u32, Refusal>
    requires { (n < 256) × (length gates.now < 65536) × (length pairs.now < 65536) × (length lamp.now < 65536) }
    ensures { written result file.new ≡ writing_of 0 (file_with n gates.now pairs.now lamp.now) file.old }
{
    let length = netlist::length_of(gates.len(), pairs.len(), lamp.len());
    let Room::Enough = files::ask_room(length, file.len()) else {
        return Err(Refusal::Room);
    };
    netlist::put_file(file, n, gates, pairs, lamp);
    Ok(length as u32)
}

// Whether a netlist has its lamp.
#[derive(Clone, Copy, Drop)]
enum Lamp {
    With,
    Without,
}

// Writes the file of a diagram's netlist; its gates are first written to a buffer of so many bytes.
fn write<const BYTES: usize>(d: &Diagram, lamp: Lamp, file: &mut [u8]) -> Result<u32, Refusal>
    requires { Sized d.now × (in_range d.now ≡ true) × (5 * length (board_with lamp d.now).gates ≤ BYTES) × (BYTES ≤ 65536) }
    ensures { written result file.new ≡ writing_of 0 (file_of (board_with lamp d.now)) file.old }
{
    let mut out = [0u8; BYTES];
    let mut space = [0u8; 32];
    let mut gates = board::begin(d, &mut out);
    board::put_board(d, &mut gates, &mut space);
    let pairs = &space[..4 * d.outputs];
    match lamp {
        Lamp::Without => write_file(d.contacts, gates.bytes(), pairs, b"", file),
        Lamp::With => {
            let mut pair = [0u8; 4];
            board::put_lamp(d, pairs, &mut gates, &mut pair);
            write_file(d.contacts, gates.bytes(), pairs, &pair, file)
        }
    }
}

// Writes the file of a table's netlist. The buffer for the gates is as in check, with room for the lamp's.
fn build_as(table: &[u8], lamp: Lamp, file: &mut [u8]) -> Result<u32, Refusal>
    ensures { written result file.new
        ≡ writing_of (table_refusal table.now) (file_of (board_with lamp (diagram_in table.now))) file.old }
{
    let d = table::read(table)?;
    let most = board::most_gates(&d);
    // Chosen here: a length is a const argument, which no function hands in.
    if most <= 960 {
        return write::<5_010>(&d, lamp, file);
    }
    if most <= 2880 {
        return write::<14_610>(&d, lamp, file);
    }
    write::<53_010>(&d, lamp, file)
}

// Writes the file of a table's netlist from the start of the lent buffer and returns its length; a refusal leaves the buffer as it
// came.
pub fn build(table: &[u8], file: &mut [u8]) -> Result<u32, Refusal>
    ensures { written result file.new ≡ building_of table.now file.old }
{
    build_as(table, Lamp::Without, file)
}

// The same of the netlist with its lamp: C calls both.
pub fn build_with_lamp(table: &[u8], file: &mut [u8]) -> Result<u32, Refusal>
    ensures { written result file.new ≡ lamp_building_of table.now file.old }
{
    build_as(table, Lamp::With, file)
}
