// The file of a netlist.
ghost use Rattle.std.specs.Prelude.{◌≡◌, ◌+◌, ◌≤◌, ◌<◌, length};
ghost use Rattle.std.proofs.lemmas.List.Edits.{sets};
ghost use Rattle.fields.specs.Fields.{encoded};
ghost use Rattle.files.specs.Room.{over};
ghost use Rattle.netlist.specs.Netlist.{lamp_field, file_with};
ghost use Rattle.netlist.specs.Inner.Lengths.{lamp_length};

// The length of the field of a lamp's bytes, so many; none without a lamp.
fn lamp_length(bytes: usize) -> usize
    requires { bytes < 65536 }
    ensures { result ≡ lamp_length bytes }
{
    if bytes == 0 { 0 } else { 3 + bytes }
}

// The length of a netlist's file, given those of the bytes of its gates, its pairs and its lamp.
pub fn length_of(gates: usize, pairs: usize, lamp: usize) -> usize
    requires { (gates < 65536) × (pairs < 65536) × (lamp < 65536) }
    ensures { result ≡ 10 + gates + pairs + lamp_length lamp }
{
    10 + gates + pairs + lamp_length(lamp)
}

// Writes the field of a lamp's bytes, from a place on; nothing without a lamp.
fn put_lamp(file: &mut [u8], at: usize, lamp: &[u8])
    requires { (length lamp.now < 65536) × (at + lamp_length (length lamp.now) ≤ length file.old) }
    ensures { file.new ≡ sets file.old at (encoded (lamp_field lamp.now)) }
{
    if lamp.is_empty() {
        return;
    }
    files::put_field(file, at, 6, lamp);
}

// Writes the file of a netlist of n contacts, given the bytes of its gates, of its pairs and of its lamp, from the start of a buffer.
pub fn put_file(file: &mut [u8], n: usize, gates: &[u8], pairs: &[u8], lamp: &[u8])
    requires n_bound { (n < 256) × (length gates.now < 65536) × (length pairs.now < 65536) × (length lamp.now < 65536) }
    requires lamp_in_bounds { 10 + length gates.now + length pairs.now + lamp_length (length lamp.now) ≤ length file.old }
    ensures { file.new
        ≡ over (file_with n gates.now pairs.now lamp.now) file.old }
{
    let contacts = [n as u8];
    files::put_field(file, 0, 1, &contacts);
    files::put_field(file, 4, 4, gates);
    files::put_field(file, 7 + gates.len(), 5, pairs);
    put_lamp(file, 10 + gates.len() + pairs.len(), lamp);
}
