// What services return, and bytes, as a program shows them.
ghost use Rattle.std.specs.Prelude.{◌≡◌, ◌==◌, length, filter};
ghost use Rattle.files.specs.Refusals.{number_in};

use crate::spelling;
use files::Refusal;
use std::fmt;

// The number of what a service returned, 0 where it did not refuse.
pub fn refusal<T>(returned: &Result<T, Refusal>) -> u32
    ensures { result ≡ number_in returned.now }
{
    match returned {
        Ok(_) => 0,
        Err(refusal) => refusal.number(),
    }
}

// The number of what a service returned, and the value under a name, 0 where there is none.
#[derive(Clone, Copy, Drop)]
pub struct Outcome<'a>(pub Result<u32, Refusal>, pub &'a str);

impl<'a> fmt::Display for Outcome<'a> {
    ghost use Rattle.std.specs.Prelude.{Some};
    ghost use Rattle.text.specs.Shown.{outcome_text};

    ghost output = { λ s. Some (outcome_text s.0 s.1.now) };

    fn fmt<W: fmt::Write>(&self, f: &mut fmt::Formatter<W>) -> fmt::Result {
        let number = refusal(&self.0);
        let name = self.1;
        let value = self.0.unwrap_or(0);
        write!(f, ": {number}, {name} {value}")
    }
}

// Bytes in hexadecimal, each after a space: the first sixteen, and `..` where there are more.
#[derive(Clone, Copy, Drop)]
pub struct Bytes<'a>(pub &'a [u8]);

impl<'a> fmt::Display for Bytes<'a> {
    ghost use Rattle.std.specs.Prelude.{Some};
    ghost use Rattle.text.specs.Shown.{bytes_text};

    ghost output = { λ s. Some (bytes_text s.0.now) };

    fn fmt<W: fmt::Write>(&self, f: &mut fmt::Formatter<W>) -> fmt::Result {
        let bytes = self.0;
        for byte in &bytes[..bytes.len().min(16)] {
            write!(f, " {byte:02x}")?;
        }
        if 16 < bytes.len() {
            write!(f, " ..")?;
        }
        Ok(())
    }
}

// Bytes as a case spells them.
#[derive(Clone, Copy, Drop)]
pub struct Spelt<'a>(pub &'a [u8]);

impl<'a> fmt::Display for Spelt<'a> {
    ghost use Rattle.std.specs.Prelude.{Some};
    ghost use Rattle.text.specs.Shown.{spelt_text};

    ghost output = { λ s. Some (spelt_text s.0.now) };

    fn fmt<W: fmt::Write>(&self, f: &mut fmt::Formatter<W>) -> fmt::Result {
        let bytes = self.0;
        if bytes.is_empty() {
            return write!(f, "none");
        }
        for byte in bytes {
            write!(f, "{}", char::from(spelling::sign_of(*byte)))?;
        }
        Ok(())
    }
}

// What is left of lent bytes: a number for a byte that was written, a point for one that was not.
#[derive(Clone, Copy, Drop)]
pub struct Signs<'a>(pub &'a [u8]);

impl<'a> fmt::Display for Signs<'a> {
    ghost use Rattle.std.specs.Prelude.{Some};
    ghost use Rattle.text.specs.Shown.{signs_text};

    ghost output = { λ s. Some (signs_text s.0.now) };

    fn fmt<W: fmt::Write>(&self, f: &mut fmt::Formatter<W>) -> fmt::Result {
        let lent = self.0;
        if lent.is_empty() {
            return write!(f, "none");
        }
        for byte in lent {
            match byte {
                b'.' => write!(f, ".")?,
                _ => write!(f, "{byte}")?,
            }
        }
        Ok(())
    }
}

// How many lent bytes keep the value that they were lent with.
pub fn kept(lent: &[u8]) -> usize
    ensures { result ≡ length (filter (λ b. b == 46) lent.now) }
{
    lent.iter().filter(|byte| **byte == b'.').count()
}
