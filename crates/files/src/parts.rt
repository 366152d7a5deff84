// Fields whose values are whole parts of one size: outputs, edges, gates, nodes.
ghost use Rattle.std.specs.Prelude.{◌≡◌, ◌<◌};
ghost use Rattle.fields.specs.Fields.{item_of};
ghost use Rattle.files.specs.Header.{has_parts};

use fields::Field;

// Whether a field has a tag, and a value of whole parts of a size, so many at least and at most.
pub fn has_parts(file: &[u8], field: Field, tag: u8, size: usize, least: usize, most: usize) -> bool
    requires { 0 < size }
    ensures { result ≡ has_parts tag size least most (item_of file.now field) }
{
    let len = fields::value(file, field).len();
    field.tag == tag && len % size == 0 && least <= len / size && len / size <= most
}
