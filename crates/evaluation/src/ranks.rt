// The holds of a board by their ranks: those of lines rising, then those of pins.
ghost use Rattle.std.specs.Prelude.{◌≡◌, ◌/◌, ◌<◌};
ghost use Rattle.evaluation.specs.Inner.Walk.{IsNext, Awaits, Looks};

use crate::board::Board;
use netlist::Hold;

// The next hold: its place in the list and its rank, which is past every rank where the list has ended, so that one
// comparison serves.
#[derive(Clone, Copy, Drop)]
pub struct Next {
    pub at: usize,
    pub rank: usize,
}

impl Board<'_> {
    // The hold at a place.
    fn next_at(&self, at: usize) -> Next
        ensures { (result.at ≡ at) × IsNext self.now.holds.now result }
    {
        if at < self.holds.len() / 3 {
            Next {
                at: at,
                rank: drive::rank(netlist::hold_at(self.holds, at)),
            }
        } else {
            Next {
                at: at,
                rank: 262144,
            }
        }
    }

    // The first hold of a rank or a higher one.
    pub fn seek(&self, rank: usize) -> Next
        requires { rank < 262144 }
        ensures { Awaits self.now.holds.now rank result }
    {
        let holds = self.holds.as_chunks::<3>().0;
        let at = holds.partition_point(|bytes| drive::rank(Hold::from(bytes)) < rank);
        self.next_at(at)
    }

    // The value that the site of a rank is held at, if it is. The hold after it is the next then.
    pub fn held(&self, next: &mut Next, rank: usize) -> Option<u8>
        requires { Awaits self.now.holds.now rank next.old × (rank < 262144) }
        ensures { Looks self.now.holds.now rank result next.new }
    {
        if next.rank != rank {
            return None;
        }
        let at = next.at;
        *next = self.next_at(at + 1);
        Some(self.holds[3 * at + 2] % 2)
    }
}
