// Question 16: the form of a drawing.
ghost use Rattle.std.specs.Prelude.{◌≡◌, ◌<◌, [], ◌∷◌, true, false};
ghost use Rattle.fields.specs.Fields.{fields_of};
ghost use Rattle.drawing.specs.Drawing.{node_count, level_in, edge_in, is_above, is_node, is_drawing, drawing_by, parted, form_of};

use fields::value;
use files::has_parts;

// The parts of a drawing: the count of contacts, the number at which each output starts, and three bytes for each node.
#[derive(Clone, Copy, Drop)]
pub struct Parts<'a> {
    pub contacts: usize,
    pub outputs: &'a [u8],
    pub nodes: &'a [u8],
}

impl Parts<'_> {
    // The count of nodes.
    pub fn node_count(self) -> usize
        ensures { result ≡ node_count self.entry.nodes.now }
    {
        self.nodes.len() / 3
    }

    // A node's level, its 0-edge and its 1-edge.
    pub fn node(self, i: usize) -> [u8; 3]
        requires { i < node_count self.nodes.now }
        ensures { let nodes = self.entry.nodes.now in result ≡ level_in nodes i ∷ edge_in nodes i false ∷ edge_in nodes i true ∷ [] }
    {
        [
            self.nodes[3 * i],
            self.nodes[3 * i + 1],
            self.nodes[3 * i + 2],
        ]
    }

    // Whether a number is a constant, or a listed node of a level above this one.
    fn is_above(self, level: u8, number: u8) -> bool
        ensures { result ≡ is_above self.entry.nodes.now level number }
    {
        if number < 2 {
            return true;
        }
        let i = number as usize - 2;
        i < self.node_count() && level < self.node(i)[0]
    }

    // Whether a node's level is below n, and each of its edges goes to a constant or to a listed node of a higher level.
    fn is_node(self, i: usize) -> bool
        requires { i < node_count self.nodes.now }
        ensures { result ≡ is_node self.entry.contacts self.entry.nodes.now i }
    {
        let [level, zero, one] = self.node(i);
        (level as usize) < self.contacts && self.is_above(level, zero) && self.is_above(level, one)
    }

    // Whether each node is so, and each output is a constant or a listed node.
    fn is_sound(self) -> bool
        ensures { result ≡ is_drawing (parted self.entry) }
    {
        let count = self.node_count();
        let numbers = 2 + count;
        (0..count).all(|i| self.is_node(i))
            && self
                .outputs
                .iter()
                .all(|number| (*number as usize) < numbers)
    }
}

// Question 16: does the file have whole fields of tags 1, 2, 7 in that order and no more, tag 1 as in question 2, tag 2 of 1 to 8
// outputs, tag 7 of 0 to 200 whole nodes, and is each node and each output as it should be? They are its parts.
pub fn ask_form(file: &[u8]) -> Option<Parts<'_>>
    ensures { drawing_by result ≡ form_of (fields_of file.now) }
{
    let row = files::first_four(file);
    let contacts = files::count_contacts(file, row.first?)?;
    let outputs = row.second?;
    if !has_parts(file, outputs, 2, 1, 1, 8) {
        return None;
    }
    let nodes = row.third?;
    if !has_parts(file, nodes, 7, 3, 0, 200) {
        return None;
    }
    if row.fourth.is_some() || !row.ends {
        return None;
    }
    let parts = Parts {
        contacts: contacts,
        outputs: value(file, outputs),
        nodes: value(file, nodes),
    };
    if !parts.is_sound() {
        return None;
    }
    Some(parts)
}
