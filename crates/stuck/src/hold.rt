// Question 14, about the stuck line or pin.
ghost use Rattle.std.specs.Prelude.{◌≡◌};
ghost use Rattle.stuck.specs.Service.{one_hold};

use drive::Holds;

// Question 14, for just one hold.
pub fn ask_one_hold(first: usize, lines: usize, hold: &[u8]) -> Holds
    ensures { result ≡ one_hold first lines hold.now }
{
    if hold.len() != 3 {
        return Holds::Disordered;
    }
    drive::ask_holds(first, lines, hold)
}
