// Question 15: whether a line of an accepted table's board is read.
ghost use Rattle.std.specs.Prelude.{◌≡◌, ◌≤◌, ◌<◌};
ghost use Rattle.netlist.specs.Netlist.{line_count};
ghost use Rattle.rules.specs.Board.{board_of};
ghost use Rattle.stuck.specs.Service.{fanout_of};
ghost use Rattle.stuck.specs.Inner.Findings.{AcceptedDiagram};

use diagram::Diagram;

// Question 15's answer. An enum of its own: `fanout_number` states the number of each case.
#[derive(Clone, Copy, Drop)]
pub enum Fanout {
    Read,
    Unread,
}

// Question 15: does some gate or output read the line? Every gate of a board is read, a rail exactly if some node of its level has
// two different edges.
pub fn ask_fanout(d: &Diagram, line: usize) -> Fanout
    requires { AcceptedDiagram d.now × (2 ≤ line) × (line < line_count (board_of d.now)) }
    ensures { result ≡ fanout_of (board_of d.now) line }
{
    if 2 + 2 * d.contacts <= line {
        return Fanout::Read;
    }
    let contact = (line - 2) / 2;
    if d.forks(contact) {
        return Fanout::Read;
    }
    Fanout::Unread
}
