// The parts of a case. Bytes are spelt with one sign each: 0 to 9, a to z for 10 to 35, A to Z and the six signs behind Z for 36
// to 67, the three signs behind z for 127 to 129, @ for 255. Numbers are written with digits. Signs below 0, the space among them,
// stand for nothing, but a stroke ends a part.
ghost use Rattle.std.specs.Prelude.{◌+◌, ◌≤◌, ◌<◌, length, ◌≡◌, IfOk};
ghost use Rattle.text.specs.Spelling.{sign_of};

use std::io;
use std::io::Write;

// The place of the next sign of a kind from a place on, or the text's end, where callers cut it either way.
pub fn find(text: &[u8], from: usize, sign: u8) -> usize
    requires { from ≤ length text.now }
    ensures { (from ≤ result) × (result ≤ length text.now) }
{
    match text[from..].iter().position(|next| *next == sign) {
        Some(past) => from + past,
        None => text.len(),
    }
}

// The parts that a text spells behind its first sign, as fields. None where there is no sign, where a sign spells nothing, or where
// the parts are too long.
pub fn spell(text: &[u8]) -> Option<[u8; 1024]> {
    let (_, signs) = text.split_first()?;
    let mut case = [0u8; 1024];
    let mut start = 0;
    let mut end = 3;
    for sign in signs {
        if 1020 < end {
            return None;
        }
        match *sign {
            b'/' => {
                put_length(&mut case, start, end);
                start = end;
                end += 3;
            }
            0..b'0' => {}
            _ => {
                case[end] = byte_of(*sign)?;
                end += 1;
            }
        }
    }
    put_length(&mut case, start, end);
    Some(case)
}

// The byte that a sign from 0 up stands for, if any.
fn byte_of(sign: u8) -> Option<u8> {
    match sign {
        b'0'..=b'9' => Some(sign - b'0'),
        b'@' => Some(255),
        b'A'..=b'`' => Some(sign - b'A' + 36),
        b'a'..=b'z' => Some(sign - b'a' + 10),
        b'{'..=b'}' => Some(sign - b'{' + 127),
        _ => None,
    }
}

// The sign that stands for a byte, or a question mark if none does.
pub fn sign_of(byte: u8) -> u8
    ensures { result ≡ sign_of byte }
{
    match byte {
        0..=9 => b'0' + byte,
        10..=35 => b'a' + (byte - 10),
        36..=67 => b'A' + (byte - 36),
        127..=129 => b'{' + (byte - 127),
        255 => b'@',
        _ => b'?',
    }
}

// Writes the length of a field that starts and ends at a place.
fn put_length(case: &mut [u8; 1024], start: usize, end: usize)
    requires { (start + 3 ≤ end) × (end ≤ 1024) }
{
    files::put_number(case, start + 1, (end - start - 3) as u16);
}

// The number that the digits of a case's part are, which is to be below a bound; where it is too large, `out` says so, and the
// number is 0, with which the program goes on. An error is that of the writing.
pub fn number<W: Write>(out: &mut W, case: &[u8], part: usize, bound: usize) -> io::Result<usize>
    requires { 0 < bound }
    ensures { IfOk result (λ n. n < bound) }
{
    let n = digits(reader::nth(case, part));
    if n < bound {
        return Ok(n);
    }
    write!(out, ": too large")?;
    Ok(0)
}

// The number that digits are, the last eighteen of them.
fn digits(part: &[u8]) -> usize {
    part.iter().fold(
        0,
        |n, digit| n % 100_000_000_000_000_000 * 10 + usize::from(*digit),
    )
}
