// The product of two matrices of entries.
ghost use Rattle.std.specs.Prelude.{◌≡◌, ◌≤◌, ◌<◌, ◌&&◌, get_or};
ghost use Rattle.fields.specs.Bounded.{any};
ghost use Rattle.rules.specs.Blocks.{is_always, entry_at, lines_in, product_entry, product};
ghost use Rattle.gates.specs.Inner.Written.{free_line, Written, Grown, RoomFor};
ghost use Rattle.products.specs.Inner.Cells.{Stored, RowStored};
ghost use Rattle.products.specs.Inner.Terms.{any_always, both_always, Listed, terms_of, row_of};

use few::Few;
use gates::Gates;
use rules::Entry;

// A matrix by its rows of entries, of which as many count as the levels on both sides have nodes. The diagram has these counts, so
// that no matrix stores them.
pub type Rows = [[Entry; 8]; 8];

// The factors of a row: the middle nodes whose factor is not never, upward, and whether some factor is always, a fact of its own.
#[derive(Drop)]
struct Factors {
    nodes: Few<usize>,
    some: bool,
}

// Whether a term is always: both factors are.
fn are_always(left: Entry, right: Entry) -> bool
    ensures { result ≡ (is_always left && is_always right) }
{
    matches!((left, right), (Entry::Always, Entry::Always))
}

// Two matrices that are multiplied, and how many nodes stand between them.
#[derive(Drop)]
struct Product<'a> {
    left: &'a Rows,
    right: &'a Rows,
    middle: usize,
    ghost few: { middle ≤ 8 },
}

impl Product<'_> {
    // The factors of row u.
    fn factors_of(&self, u: usize) -> Factors
        requires { u < 8 }
        ensures listed { Listed self.now.left.now u self.now.middle 0 result.nodes }
        ensures some_value { result.some ≡ any_always self.now.middle self.now.left.now u }
    {
        let mut nodes = Few::new(0);
        let mut some = false;
        // By number: w is the middle node that is listed.
        for w in 0..self.middle {
            match self.left[u][w] {
                Entry::Never => {}
                Entry::Always => {
                    nodes.push(w);
                    some = true;
                }
                Entry::Line(_) => nodes.push(w),
            }
        }
        Factors {
            nodes: nodes,
            some: some,
        }
    }

    // Whether some term of the entry in row u and column v is always; none is unless some factor in row u is.
    fn crosses(&self, u: usize, v: usize, some: bool) -> bool
        requires inside { (u < 8) × (v < 8) }
        requires some_value { some ≡ any_always self.now.middle self.now.left.now u }
        ensures { result ≡ any self.now.middle (both_always self.now.left.now self.now.right.now u v) }
    {
        some && (0..self.middle).any(|w| are_always(self.left[u][w], self.right[w][v]))
    }

    // The lines among the terms of the entry in row u and column v, in sequence. Terms of middle nodes that are not listed are never.
    fn terms(&self, u: usize, v: usize, nodes: &[usize], gates: &mut Gates) -> Few<u16>
        requires inside { (u < 8) × (v < 8) }
        requires listed { Listed self.now.left.now u self.now.middle 0 nodes.now }
        requires room_for { let p = self.now in RoomFor (terms_of p.middle p.left.now p.right.now u v) gates.old }
        ensures grown { let p = self.now in Grown (terms_of p.middle p.left.now p.right.now u v) gates.old gates.new }
        ensures lines { let p = self.now in result ≡ lines_in (terms_of p.middle p.left.now p.right.now u v (free_line gates.old)).1 }
    {
        let mut lines = Few::new(0);
        for w in nodes {
            if let Entry::Line(line) = gates.term(self.left[u][*w], self.right[*w][v]) {
                lines.push(line);
            }
        }
        lines
    }

    // The entry in row u and column v: always if a term is, else the OR tree of the terms that are lines.
    fn entry(&self, u: usize, v: usize, factors: &Factors, gates: &mut Gates) -> Entry
        requires inside { (u < 8) × (v < 8) }
        requires some_value { factors.now.some ≡ any_always self.now.middle self.now.left.now u }
        requires listed { Listed self.now.left.now u self.now.middle 0 factors.now.nodes }
        requires room_for { let p = self.now in RoomFor (product_entry p.middle p.left.now p.right.now u v) gates.old }
        ensures { let p = self.now in Written (product_entry p.middle p.left.now p.right.now u v) gates.old gates.new result }
    {
        if self.crosses(u, v, factors.some) {
            return Entry::Always;
        }
        let lines = self.terms(u, v, factors.nodes.as_slice(), gates);
        gates.join_lines(lines.as_slice())
    }

    // Row u of the product, its entries by column.
    fn row(&self, columns: usize, u: usize, gates: &mut Gates, cells: &mut [Entry; 8])
        requires inside { (columns ≤ 8) × (u < 8) }
        requires room_for { let p = self.now in RoomFor (row_of p.middle p.left.now p.right.now columns u) gates.old }
        ensures grown { let p = self.now in Grown (row_of p.middle p.left.now p.right.now columns u) gates.old gates.new }
        ensures row_stored { let p = self.now in RowStored cells.new
            (λ v. get_or (row_of p.middle p.left.now p.right.now columns u (free_line gates.old)).1 v Entry.Never) columns }
    {
        let factors = self.factors_of(u);
        // By number: v is a column of the right matrix, too.
        for v in 0..columns {
            cells[v] = self.entry(u, v, &factors, gates);
        }
    }
}

// A product, row by row: its gates follow those made before, and its matrix goes to the cells.
pub fn multiply(
    left: &Rows,
    right: &Rows,
    rows: usize,
    middle: usize,
    columns: usize,
    gates: &mut Gates,
    cells: &mut Rows,
)
    requires rows_bound { (rows ≤ 8) × (middle ≤ 8) × (columns ≤ 8) }
    requires room_for { RoomFor (product rows middle columns left.now right.now) gates.old }
    ensures grown { Grown (product rows middle columns left.now right.now) gates.old gates.new }
    ensures stored { Stored cells.new
        (entry_at (product rows middle columns left.now right.now (free_line gates.old)).1) rows columns }
{
    let product = Product {
        left: left,
        right: right,
        middle: middle,
    };
    // By number: u is a row of the left matrix, too.
    for u in 0..rows {
        product.row(columns, u, gates, &mut cells[u]);
    }
}
