ghost use Rattle.std.specs.Prelude.{◌≡◌, ◌*◌, ℕ, List, length};
ghost use Rattle.hex.specs.Hex.{decode_of, decode_pairs, hex_digit_value};
ghost use Rattle.vch_text.specs.declared.digits.HexFault.TheVariants as faults;
ghost use Rattle.vch_text.specs.Digits.{bytes_of, from_decoded, Decodes, Fills, IsDigitOf};

use crate::words::is_word;
use std::alloc::Global;
use vch_base::{Bytes, NoMemory};

/// Why there are no bytes of a word.
#[derive(Debug, Drop, PartialEq, Eq)]
pub enum HexFault {
    /// It is no even number of hexadecimal digits, at least two, and no dash.
    Malformed,
    NoMemory { cause: NoMemory },
}

impl From<NoMemory> for HexFault {
    ghost from_gives = { λ cause e. e ≡ faults.NoMemory cause };

    fn from(cause: NoMemory) -> Self {
        HexFault::NoMemory { cause }
    }
}

/// The value of each hexadecimal digit, of either case, at its own place, and 255 at every other place.
static DIGITS: [u8; 256] = *b"\
    \xff\xff\xff\xff\xff\xff\xff\xff\xff\xff\xff\xff\xff\xff\xff\xff\
    \xff\xff\xff\xff\xff\xff\xff\xff\xff\xff\xff\xff\xff\xff\xff\xff\
    \xff\xff\xff\xff\xff\xff\xff\xff\xff\xff\xff\xff\xff\xff\xff\xff\
    \x00\x01\x02\x03\x04\x05\x06\x07\x08\x09\xff\xff\xff\xff\xff\xff\
    \xff\x0a\x0b\x0c\x0d\x0e\x0f\xff\xff\xff\xff\xff\xff\xff\xff\xff\
    \xff\xff\xff\xff\xff\xff\xff\xff\xff\xff\xff\xff\xff\xff\xff\xff\
    \xff\x0a\x0b\x0c\x0d\x0e\x0f\xff\xff\xff\xff\xff\xff\xff\xff\xff\
    \xff\xff\xff\xff\xff\xff\xff\xff\xff\xff\xff\xff\xff\xff\xff\xff\
    \xff\xff\xff\xff\xff\xff\xff\xff\xff\xff\xff\xff\xff\xff\xff\xff\
    \xff\xff\xff\xff\xff\xff\xff\xff\xff\xff\xff\xff\xff\xff\xff\xff\
    \xff\xff\xff\xff\xff\xff\xff\xff\xff\xff\xff\xff\xff\xff\xff\xff\
    \xff\xff\xff\xff\xff\xff\xff\xff\xff\xff\xff\xff\xff\xff\xff\xff\
    \xff\xff\xff\xff\xff\xff\xff\xff\xff\xff\xff\xff\xff\xff\xff\xff\
    \xff\xff\xff\xff\xff\xff\xff\xff\xff\xff\xff\xff\xff\xff\xff\xff\
    \xff\xff\xff\xff\xff\xff\xff\xff\xff\xff\xff\xff\xff\xff\xff\xff\
    \xff\xff\xff\xff\xff\xff\xff\xff\xff\xff\xff\xff\xff\xff\xff\xff";

/// The value of a hexadecimal digit of either case, or a number above 15 where it is none.
fn digit(c: u8) -> u8
    ensures { IsDigitOf result (hex_digit_value c) }
{
    DIGITS[c as usize]
}

/// Writes the bytes that pairs of digits spell, and tells whether all of them are digits.
fn fill(digits: &[u8], bytes: &mut [u8]) -> bool
    requires { length digits.now ≡ 2 * length bytes.old }
    ensures { Fills result bytes.new (from_decoded (decode_pairs 0 digits.now)) }
{
    'pairs: for i in 0..bytes.len() {
        let high = digit(digits[2 * i]);
        let low = digit(digits[2 * i + 1]);
        if high > 15 || low > 15 {
            return false;
        }
        bytes[i] = high * 16 + low;
    }
    true
}

/// The bytes of digits. They are written into room that is taken here, so that the want of it has the allocator's own error.
fn decoded(alloc: Global, digits: &[u8]) -> Result<Bytes, HexFault>
    ensures { Decodes result (from_decoded (decode_of digits.now)) }
{
    if digits.len() % 2 != 0 {
        return Err(HexFault::Malformed);
    }
    let mut bytes = vec![in alloc; 0u8; digits.len() / 2].map_err(NoMemory::from)?;
    if fill(digits, bytes.as_mut_slice()) {
        Ok(Bytes::from_vec(bytes))
    } else {
        Err(HexFault::Malformed)
    }
}

/// The bytes that a word spells: two hexadecimal digits of either case for each, or a dash for no
/// bytes.
#[tactic(auto, unfolding(crate::specs::Digits::bytes_of))]
pub fn hex_bytes(alloc: Global, word: &[u8]) -> Result<Bytes, HexFault>
    ensures { Decodes result (bytes_of word.now) }
{
    if is_word(word, b"") {
        return Err(HexFault::Malformed);
    }
    if is_word(word, b"-") {
        return Ok(Bytes::of(alloc, b"")?);
    }
    decoded(alloc, word)
}
