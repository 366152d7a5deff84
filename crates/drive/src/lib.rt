// Questions 13, 14 and 21, about what a netlist is run with and from where.
#![tactic(auto)]

ghost use Rattle.std.specs.Prelude.{◌≡◌, ◌*◌, ◌/◌, ◌≤◌, length};
ghost use Rattle.fields.specs.Bounded.{all};
ghost use Rattle.drive.specs.Questions.{is_bit, rails_of, rank_of, is_hold, order_of, place_of};

use netlist::Hold;

// Question 13's answer. An enum of its own: `rails_number` states the number of each case.
#[derive(Clone, Copy, Drop)]
pub enum Rails {
    Driven,
    Undriven,
}

// Question 14's answer. An enum of its own: `holds_number` states the number of each case.
#[derive(Clone, Copy, Drop)]
pub enum Holds {
    Ordered,
    Disordered,
}

// Question 21's answer. An enum of its own: `place_number` states the number of each case.
#[derive(Clone, Copy, Drop)]
pub enum Place {
    Within,
    Outside,
}

// Whether both rails of each contact are 0 or 1.
fn are_bits(rails: &[u8]) -> bool
    ensures { result ≡ all (2 * (length rails.now / 2)) (is_bit rails.now) }
{
    rails
        .as_chunks::<2>()
        .0
        .iter()
        .all(|[on, off]| *on <= 1 && *off <= 1)
}

// Question 13: are there 2n rail bytes, each 0 or 1?
pub fn ask_rails(n: usize, rails: &[u8]) -> Rails
    requires { n ≤ 12 }
    ensures { result ≡ rails_of n rails.now }
{
    if rails.len() == 2 * n && are_bits(rails) {
        Rails::Driven
    } else {
        Rails::Undriven
    }
}

// Where a hold stands in a hold list: lines first, rising, then pins by rising gate, the first before the second. No derived order puts
// pins behind all lines, and a step seeks by the number.
pub fn rank(hold: Hold) -> usize
    ensures { result ≡ rank_of hold }
{
    if hold.value <= 1 {
        hold.line as usize
    } else {
        65536 + 2 * (hold.line as usize) + (hold.value / 2) as usize
    }
}

// Whether a hold, after one of rank before, names a line or a pin of a gate, which begin at line first.
fn is_hold(first: usize, lines: usize, before: usize, hold: Hold) -> bool
    ensures { result ≡ is_hold first lines before hold }
{
    let line = hold.line as usize;
    before < rank(hold) && line < lines && hold.value <= 5 && (hold.value <= 1 || first <= line)
}

// Question 14: are the holds whole, each naming a line from 2 up that is in the netlist, or a pin of a gate that is, line holds first,
// rising, then pins by rising gate, first before second, each pin once and never of a rail?
pub fn ask_holds(first: usize, lines: usize, holds: &[u8]) -> Holds
    ensures { result ≡ order_of first lines holds.now }
{
    let (holds, rest) = holds.as_chunks::<3>();
    if !rest.is_empty() {
        return Holds::Disordered;
    }
    let mut last = 1;
    for bytes in holds {
        let hold = Hold::from(bytes);
        if !is_hold(first, lines, last, hold) {
            return Holds::Disordered;
        }
        last = rank(hold);
    }
    Holds::Ordered
}

// Question 21: is a step's place a line from 2 up that is in the netlist, or the line after the last?
pub fn ask_place(lines: usize, place: usize) -> Place
    ensures { result ≡ place_of lines place }
{
    if (2..=lines).contains(&place) {
        Place::Within
    } else {
        Place::Outside
    }
}
