// The services step and run: a netlist with lines and pins held.
#![tactic(auto)]

ghost use Rattle.std.specs.Prelude.{◌≡◌, true, ◌++◌, map, ◌+◌, ◌*◌, ◌/◌, ◌≤◌, length};
ghost use Rattle.std.proofs.lemmas.List.Edits.{sets};
ghost use Rattle.files.specs.Refusals.{number_in};
ghost use Rattle.files.specs.Room.{over};
ghost use Rattle.netlist.specs.Netlist.{pairs_of};
ghost use Rattle.wiring.specs.Questions.{are_pairs};
ghost use Rattle.wiring.specs.Inner.Read.{netlist_by, IsSound};
ghost use Rattle.simulation.specs.Run.{shown_of};
ghost use Rattle.simulation.specs.Service.{read_back, stepped_or, step_of, run_of};
ghost use Rattle.run.specs.Stepped.{place_in, stepped, ran};
ghost use Rattle.run.specs.Inner.Asking.{asking_by};

use drive::{Holds, Place, Rails};
use files::{Refusal, Room};
use netlist::Pair;
use wiring::Parts;

// What a step returns to C: its place out, or the number of its refusal.
#[repr(C)]
#[derive(Clone, Copy, Drop)]
pub struct Stepped {
    pub refusal: u32,
    pub place: u32,
}

impl From<Result<u32, Refusal>> for Stepped {
    ghost from_gives = { λ x s. (s.refusal ≡ number_in x) × (s.place ≡ place_in x) };

    // A refusal's place is 0.
    fn from(stepped: Result<u32, Refusal>) -> Stepped {
        match stepped {
            Ok(place) => Stepped {
                refusal: 0,
                place: place,
            },
            Err(refusal) => Stepped {
                refusal: refusal.number(),
                place: 0,
            },
        }
    }
}

// Writes each output's pair, true rail first, behind so many others, from lines as they are read.
fn show_pairs(outputs: &[u8], lines: &[u8], before: usize, pairs: &mut [u8])
    requires outputs_value { are_pairs (length lines.now) outputs.now ≡ true }
    requires outputs_in_bounds { 2 * (before + length outputs.now / 4) ≤ length pairs.old }
    ensures { pairs.new
        ≡ sets pairs.old (2 * before) (shown_of (pairs_of outputs.now) (map read_back lines.now)) }
{
    for (j, output) in outputs.as_chunks::<4>().0.iter().enumerate() {
        let pair = Pair::from(output);
        let at = 2 * (before + j);
        pairs[at] = evaluation::read_back(lines[pair.on as usize]);
        pairs[at + 1] = evaluation::read_back(lines[pair.off as usize]);
    }
}

// Writes every output's pair and the lamp's behind them, from the start of a buffer.
fn show(outputs: &[u8], lamp: &[u8], lines: &[u8], pairs: &mut [u8])
    requires outputs_value { (are_pairs (length lines.now) outputs.now ≡ true) × (are_pairs (length lines.now) lamp.now ≡ true) }
    requires lamp_in_bounds { 2 * (length outputs.now / 4 + length lamp.now / 4) ≤ length pairs.old }
    ensures { pairs.new
        ≡ over
        (shown_of (pairs_of outputs.now) (map read_back lines.now)
        ++ shown_of (pairs_of lamp.now) (map read_back lines.now))
        pairs.old }
{
    show_pairs(outputs, lines, 0, pairs);
    show_pairs(lamp, lines, outputs.len() / 4, pairs);
}

// Questions 13, 14, 21 and 9 of a netlist that has been read; 9 for either buffer, by its length.
fn ask(
    parts: &Parts<'_>,
    rails: &[u8],
    holds: &[u8],
    place: usize,
    lines: usize,
    pairs: usize,
) -> Result<(), Refusal>
    ensures { number_in result ≡ asking_by parts.now rails.now holds.now place lines pairs }
{
    let count = parts.line_count();
    let Rails::Driven = drive::ask_rails(parts.contacts, rails) else {
        return Err(Refusal::Rails);
    };
    let Holds::Ordered = drive::ask_holds(parts.gate_line(), count, holds) else {
        return Err(Refusal::Holds);
    };
    let Place::Within = drive::ask_place(count, place) else {
        return Err(Refusal::Place);
    };
    let Room::Enough = files::ask_room(count, lines) else {
        return Err(Refusal::Room);
    };
    let Room::Enough = files::ask_room(2 * parts.pair_count(), pairs) else {
        return Err(Refusal::Room);
    };
    Ok(())
}

// A step of a netlist that has been read: what both services do, with the parameters as C hands them over.
fn step_read(
    parts: &Parts<'_>,
    rails: &[u8],
    holds: &[u8],
    place: u32,
    count: u32,
    lines: &mut [u8],
    pairs: &mut [u8],
) -> Result<u32, Refusal>
    requires { IsSound parts.now }
    ensures { stepped result lines.new pairs.new
        ≡ stepped_or (asking_by parts.now rails.now holds.now place (length lines.old) (length pairs.old)) (netlist_by parts.now)
        rails.now holds.now place count lines.old pairs.old }
{
    let from = place as usize;
    ask(parts, rails, holds, from, lines.len(), pairs.len())?;
    let end = parts.line_count();
    let to = (from + count as usize).min(end);
    evaluation::work_out(parts.gates, rails, holds, from, to, lines);
    if to == end {
        show(parts.outputs, parts.lamp, lines, pairs);
    }
    Ok(to as u32)
}

// Sets the constants and works out so many lines from a place on, or all that are left if these are fewer, with lines and pins held;
// returns the place after them. The line values go to the first buffer; to the second, if no line is left, two bytes an output and,
// last, two for the lamp. A refusal leaves both as they came.
pub fn step(
    netlist: &[u8],
    rails: &[u8],
    holds: &[u8],
    place: u32,
    count: u32,
    lines: &mut [u8],
    pairs: &mut [u8],
) -> Result<u32, Refusal>
    ensures { stepped result lines.new pairs.new
        ≡ step_of netlist.now rails.now holds.now place count lines.old pairs.old }
{
    let parts = wiring::read(netlist)?;
    step_read(&parts, rails, holds, place, count, lines, pairs)
}

// Works out every line's value with lines and pins held: one step from line 2 over all lines.
pub fn run(
    netlist: &[u8],
    rails: &[u8],
    holds: &[u8],
    lines: &mut [u8],
    pairs: &mut [u8],
) -> Result<(), Refusal>
    ensures { ran result lines.new pairs.new
        ≡ run_of netlist.now rails.now holds.now lines.old pairs.old }
{
    let parts = wiring::read(netlist)?;
    step_read(&parts, rails, holds, 2, u32::MAX, lines, pairs)?;
    Ok(())
}
