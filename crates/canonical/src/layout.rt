// The table file of the functions that truth tables give. The outputs are by the places where their truth tables begin.
ghost use Rattle.std.specs.Prelude.{◌≡◌, suc, ◌+◌, ◌*◌, ◌≤◌, ◌<◌, length, is_some, IfSome};
ghost use Rattle.std.proofs.lemmas.List.Edits.{sets};
ghost use Rattle.files.specs.Room.{written};
ghost use Rattle.table.specs.Encode.{bytes_of};
ghost use Rattle.functions.specs.Functions.{level_of, canonical};
ghost use Rattle.canonical.specs.Inner.Blocks.{mention_at, is_few, blocks_at, next_of, head_bytes, level_bytes, Blocks, Put};
ghost use Rattle.canonical.specs.Service.{laid_of, tabling_of};

use crate::blocks::Truths;
use crate::levels::halve;
use few::Few;
use files::{Refusal, Room};

// Writes the fields before the levels' and lists the functions of the outputs; none if they are more than eight.
fn put_outputs(
    truths: Truths<'_>,
    outputs: &[usize],
    file: &mut [u8],
    level: &mut Few<usize>,
) -> Option<()>
    requires { (length outputs.now ≤ 8) × Blocks truths.words.now truths.left outputs.now
        × (7 + length outputs.now ≤ length file.old) }
    ensures value { let f = mention_at truths.entry.words.now truths.entry.left outputs.now in
        is_some result ≡ is_few truths.entry.left (level_of f (length outputs.now) 0) }
    ensures put { let f = mention_at truths.entry.words.now truths.entry.left outputs.now in
        IfSome result (λ u. Put truths.entry.words.now truths.entry.left (level_of f (length outputs.now) 0) 0
        (head_bytes truths.entry.left (length outputs.now) f) file.old file.new level.new) }
{
    let m = outputs.len();
    let mut numbers = [0u8; 8];
    truths.enter(outputs, &mut numbers[..m], level)?;
    files::put_field(file, 0, 1, &[truths.left as u8]);
    files::put_field(file, 4, 2, &numbers[..m]);
    Some(())
}

// Writes the field of a level and lists the functions of the next in its place, halves of its own; none if they are more than eight.
fn put_level(truths: Truths<'_>, level: &mut Few<usize>, file: &mut [u8], at: usize) -> Option<()>
    requires { (truths.left ≤ 11) × Blocks truths.words.now (suc truths.left) level.old
        × (length truths.words.now ≤ 512) × (at + 3 + 2 * length level.old ≤ length file.old) }
    ensures value { let fs = blocks_at truths.entry.words.now (suc truths.entry.left) level.old in
        is_some result ≡ is_few truths.entry.left (next_of fs) }
    ensures put { let fs = blocks_at truths.entry.words.now (suc truths.entry.left) level.old in
        IfSome result (λ u. Put truths.entry.words.now truths.entry.left (next_of fs) at (level_bytes fs) file.old file.new level.new) }
{
    let mut halves = [0usize; 16];
    let starts = level.as_slice();
    halve(starts, truths.left, &mut halves);
    let count = 2 * starts.len();
    let mut numbers = [0u8; 16];
    truths.enter(&halves[..count], &mut numbers[..count], level)?;
    files::put_field(file, at, 3, &numbers[..count]);
    Some(())
}

// Lays the table's file out from the start of a buffer, level by level, and gives its length; none if a level has more than eight
// functions.
fn lay(words: &[u64], n: usize, outputs: &[usize], file: &mut [u8]) -> Option<usize>
    requires { (1 ≤ n) × (n ≤ 12) × (1 ≤ length outputs.now) × (length outputs.now ≤ 8) × Blocks words.now n outputs.now
        × (length words.now ≤ 512) × (length file.old ≡ 243) }
    ensures value { result ≡ laid_of n (length outputs.now) (mention_at words.now n outputs.now) }
    ensures written { let f = mention_at words.now n outputs.now in
        IfSome result (λ bytes. (bytes ≤ 243) × (file.new ≡ sets file.old 0 (bytes_of (canonical n (length outputs.now) f)))) }
{
    let mut level = Few::new(0);
    put_outputs(Truths { words, left: n }, outputs, file, &mut level)?;
    let mut at = 7 + outputs.len();
    // By number: l is the level.
    for l in 0..n {
        let truths = Truths {
            words,
            left: n - 1 - l,
        };
        let width = level.as_slice().len();
        put_level(truths, &mut level, file, at)?;
        at += 3 + 2 * width;
    }
    Some(at)
}

// Writes the table's file from the start of the lent buffer and returns its length; a refusal leaves the buffer as it came.
pub fn write(words: &[u64], n: usize, outputs: &[usize], table: &mut [u8]) -> Result<u32, Refusal>
    requires { (1 ≤ n) × (n ≤ 12) × (1 ≤ length outputs.now) × (length outputs.now ≤ 8) × Blocks words.now n outputs.now
        × (length words.now ≤ 512) }
    ensures { written result table.new ≡ tabling_of n (length outputs.now) (mention_at words.now n outputs.now) table.old }
{
    let mut file = [0u8; 243];
    let Some(length) = lay(words, n, outputs, &mut file) else {
        return Err(Refusal::Width);
    };
    let Room::Enough = files::ask_room(length, table.len()) else {
        return Err(Refusal::Room);
    };
    files::copy(table, 0, &file[..length]);
    Ok(length as u32)
}
