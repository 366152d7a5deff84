// Numbers, bytes and fields written one after another.
ghost use Rattle.std.specs.Prelude.{◌≡◌, [], ◌∷◌, ◌+◌, ◌/◌, ◌%◌, ◌≤◌, ◌<◌, length};
ghost use Rattle.std.proofs.lemmas.List.Edits.{sets};
ghost use Rattle.fields.specs.Fields.{field_bytes};

// A number of two bytes, its high byte first.
pub fn put_number(out: &mut [u8], at: usize, x: u16)
    requires { at + 2 ≤ length out.old }
    ensures { out.new ≡ sets out.old at (x / 256 ∷ x % 256 ∷ []) }
{
    copy(out, at, &x.to_be_bytes());
}

// Copies bytes to a file, from a place on. One by one: `copy_from_slice` calls memmove, which the archive would need from outside.
pub fn copy(file: &mut [u8], at: usize, value: &[u8])
    requires { at + length value.now ≤ length file.old }
    ensures { file.new ≡ sets file.old at value.now }
{
    for (i, byte) in value.iter().enumerate() {
        file[at + i] = *byte;
    }
}

// Writes a field, from a place on: its tag, its length (high byte first), its value.
pub fn put_field(file: &mut [u8], at: usize, tag: u8, value: &[u8])
    requires { (length value.now < 65536) × (at + 3 + length value.now ≤ length file.old) }
    ensures { file.new
        ≡ sets file.old at (field_bytes (record { tag = tag; value = value.now })) }
{
    file[at] = tag;
    put_number(file, at + 1, value.len() as u16);
    copy(file, at + 3, value);
}
