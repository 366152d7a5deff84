// The matrices of levels, and of blocks of several levels.
ghost use Rattle.std.specs.Prelude.{◌≡◌, suc, ◌+◌, ◌≤◌, ◌<◌};
ghost use Rattle.diagram.specs.Questions.{Sized};
ghost use Rattle.diagram.specs.Diagram.{width};
ghost use Rattle.rules.specs.Blocks.{cut, entry_at, level_entry, node_entry};
ghost use Rattle.rules.specs.Blocks as blocks;
ghost use Rattle.gates.specs.Inner.Written.{free_line, Grown, RoomFor};
ghost use Rattle.products.specs.Inner.Cells.{Stored, RowStored};

use diagram::Diagram;
use gates::Gates;
use products::Rows;
use rules::Entry;

// The entry of a node with these edges in column v of level l: always if both edges go there, the true rail if only the 1-edge
// does, the false rail if only the 0-edge does, else never.
fn rail(zero: u8, one: u8, l: usize, v: usize) -> Entry
    requires { l < 12 }
    ensures { result ≡ node_entry zero one l v }
{
    match (one as usize == v, zero as usize == v) {
        (true, true) => Entry::Always,
        (true, false) => Entry::Line((2 + 2 * l) as u16),
        (false, true) => Entry::Line((3 + 2 * l) as u16),
        (false, false) => Entry::Never,
    }
}

// The row of the matrix of level l that is of a node with these edges.
fn level_row(zero: u8, one: u8, l: usize, columns: usize, cells: &mut [Entry; 8])
    requires { (l < 12) × (columns ≤ 8) }
    ensures { RowStored cells.new (node_entry zero one l) columns }
{
    // By number: v is the node that an edge goes to.
    for v in 0..columns {
        cells[v] = rail(zero, one, l, v);
    }
}

// The matrix of one level.
fn level(d: &Diagram, l: usize, cells: &mut Rows)
    requires { Sized d.now × (l < d.now.contacts) }
    ensures { Stored cells.new (level_entry d.now l) (width d.now l) (width d.now (suc l)) }
{
    let edges = d.level(l);
    let columns = d.width(l + 1);
    // By number: u is a node and its row.
    for u in 0..d.width(l) {
        level_row(edges[2 * u], edges[2 * u + 1], l, columns, &mut cells[u]);
    }
}

// The block of count levels from level l on: the left block's gates come first, then the right's, then those of the product.
pub fn block(d: &Diagram, l: usize, count: usize, gates: &mut Gates, cells: &mut Rows)
    requires sized { Sized d.now × (1 ≤ count) × (l + count ≤ d.now.contacts) }
    requires room_for { RoomFor (blocks.block d.now (cut count) l) gates.old }
    ensures grown { Grown (blocks.block d.now (cut count) l) gates.old gates.new }
    ensures stored { Stored cells.new (entry_at (blocks.block d.now (cut count) l (free_line gates.old)).1)
        (width d.now l) (width d.now (l + count)) }
{
    if count <= 1 {
        level(d, l, cells);
        return;
    }
    let half = (count + 1) / 2;
    let rest = count - half;
    let middle = l + half;
    let mut left = [[Entry::Never; 8]; 8];
    let mut right = [[Entry::Never; 8]; 8];
    block(d, l, half, gates, &mut left);
    block(d, middle, rest, gates, &mut right);
    let rows = d.width(l);
    let columns = d.width(l + count);
    products::multiply(&left, &right, rows, d.width(middle), columns, gates, cells);
}
