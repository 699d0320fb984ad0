//! Sums that bind files to one another.
ghost use Rattle.std.specs.Prelude.{◌≡◌, ◌++◌, IfSome, IsTrue, Some, false};
ghost use Rattle.std.specs.Io.KnownBytes.{IsAtEnd};
ghost use Rattle.hex.specs.Hex.{encode_lower};
ghost use Rattle.sha2.specs.Hashers.{Holds256};
ghost use Rattle.sha2.specs.Sha256.{sha256};
ghost use Rattle.th_program.specs.Sums.{Takes, bound_by};

use sha2::{Digest, Sha256};
use std::fmt;
use std::io::{ErrorKind, Read};

/// A SHA-256: of the sum of the files before it, if there are any, and of a file's bytes.
#[derive(Clone, Copy, Debug, Drop, PartialEq, Eq)]
pub struct Sum(pub [u8; 32]);

impl fmt::Display for Sum {
    fn fmt<W: fmt::Write>(&self, f: &mut fmt::Formatter<W>) -> fmt::Result {
        for byte in &self.0 {
            write!(f, "{byte:02x}")?;
        }
        Ok(())
    }
}

// The sum in 64 lower-case hexadecimal digits.
pub(crate) fn digits_of(sum: Sum) -> [u8; 64]
    ensures { result ≡ encode_lower sum.0 }
{
    let mut digits = [0u8; 64];
    let _ = hex::encode_to_slice(&sum.0, &mut digits);
    digits
}

// Adds what one read gives, and says whether it was not the end; `None` where it failed.
fn add_piece<R: Read>(reader: &mut R, hasher: &mut Sha256) -> Option<bool>
    ensures takes { IfSome result (λ _. Takes (R.remaining reader.old) (R.remaining reader.new)
        hasher.old hasher.new) }
    ensures end { result ≡ Some false → IsAtEnd (R.remaining reader.new) }
{
    let mut buffer = [0u8; 4096];
    match reader.read(&mut buffer) {
        Ok(0) => Some(false),
        Ok(n) => {
            hasher.update(&buffer[..n]);
            Some(true)
        }
        Err(e) if e.kind() == ErrorKind::Interrupted => Some(true),
        Err(_) => None,
    }
}

// Adds all that is left, and says whether that was so.
fn add_all<R: Read>(reader: &mut R, hasher: &mut Sha256) -> bool
    ensures takes { IsTrue result → Takes (R.remaining reader.old) (R.remaining reader.new)
        hasher.old hasher.new }
    ensures end { IsTrue result → IsAtEnd (R.remaining reader.new) }
{
    for _ in 0..u64::MAX {
        match add_piece(reader, hasher) {
            Some(true) => {}
            Some(false) => return true,
            None => return false,
        }
    }
    false
}

// A hasher of what comes before the bytes of a file: the sum of those before it, if there are any.
fn hasher_behind(before: Option<Sum>) -> Sha256
    ensures { Holds256 result (bound_by before) }
{
    match before {
        Some(sum) => Sha256::new_with_prefix(&sum.0),
        None => Sha256::new(),
    }
}

/// The sum of a file whose bytes are those that the reader has left, behind files that have the sum `before`, if there are
/// any; `None` where it cannot be read to its end.
pub fn sum_of<R: Read>(before: Option<Sum>, reader: &mut R) -> Option<Sum>
    ensures { IfSome result (λ sum. IfSome (R.remaining reader.old)
        (λ bytes. sum.0 ≡ sha256 (bound_by before ++ bytes))) }
{
    let mut hasher = hasher_behind(before);
    if add_all(reader, &mut hasher) {
        Some(Sum(hasher.finalize()))
    } else {
        None
    }
}
