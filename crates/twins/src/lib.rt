// Question 6: the first two alike nodes of one level, and how many pairs are compared to find them.
#![tactic(auto)]

ghost use Rattle.std.specs.Prelude.{◌≡◌, ◌<◌, false, MatchOption};
ghost use Rattle.fields.specs.Bounded.{least};
ghost use Rattle.diagram.specs.Diagram.{width};
ghost use Rattle.diagram.specs.Questions.{alike};
ghost use Rattle.diagram.specs.Inner.Fit.{Fit};
ghost use Rattle.twins.specs.Twins.{repeats, comparison_of};

use diagram::Diagram;

// Two nodes of one level, the later with the greater number.
#[derive(Clone, Copy, Drop)]
pub struct Pair {
    pub level: usize,
    pub later: usize,
    pub earlier: usize,
}

// Question 6's answer: the first two nodes of one level that are alike (duplicate nodes, in the field's terms), if there are any; and
// how many pairs were compared.
#[derive(Clone, Copy, Drop)]
pub struct Comparison {
    pub twins: Option<Pair>,
    pub compared: usize,
}

// The first of the nodes before v in its level that has the edges of v.
fn first_like(d: &Diagram, level: usize, v: usize) -> Option<usize>
    requires { Fit d.now × (level < d.now.contacts) × (v < width d.now level) }
    ensures { MatchOption result (repeats d.now level v ≡ false)
        (λ u. (u < v) × (u ≡ least v (λ u. alike d.now level u v))) }
{
    let edges = d.level(level);
    let node = &edges[2 * v..2 * v + 2];
    edges[..2 * v]
        .chunks_exact(2)
        .position(|other| other == node)
}

// Question 6: does each pair of nodes of one level differ in an edge? By level upward, then by the later node, then by the earlier,
// up to the first pair that does not.
pub fn find_twins(d: &Diagram) -> Comparison
    requires { Fit d.now }
    ensures { result ≡ comparison_of d.now }
{
    let mut compared: usize = 0;
    // By number: the numbers of level and node are the answer.
    for level in 0..d.contacts {
        for later in 0..d.width(level) {
            if let Some(earlier) = first_like(d, level, later) {
                let pair = Pair {
                    level,
                    later,
                    earlier,
                };
                return Comparison {
                    twins: Some(pair),
                    compared: compared + earlier + 1,
                };
            }
            compared += later;
        }
    }
    Comparison {
        twins: None,
        compared,
    }
}
