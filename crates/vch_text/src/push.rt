ghost use Rattle.std.specs.Prelude.{◌≡◌, ◌<◌, ◌*◌, ◌∷◌, ◌++◌, length, slice_index, OnOk, OnErr};
ghost use Rattle.hex.specs.Hex.{encode_lower, lower_digits};
ghost use Rattle.vch_model.specs.Text.{hex_of};

use itoa::{Buffer, Integer};
use vch_base::NoMemory;

/// Appends bytes. Where it is out of memory, the one error here and below, nothing is appended.
pub fn push_text(out: &mut Vec<u8>, text: &[u8]) -> Result<(), NoMemory>
    ensures ok { OnOk result (out.new.items ≡ out.old.items ++ text.now) }
    ensures err { OnErr result (out.new.items ≡ out.old.items) }
{
    out.extend_from_slice(text)?;
    Ok(())
}

/// Appends a number in decimal: of an integer of any width, and with its sign where it is below 0.
/// Its digits are made in place.
pub fn push_number<I: Integer>(out: &mut Vec<u8>, n: I) -> Result<(), NoMemory>
    ensures ok { OnOk result (out.new.items ≡ out.old.items ++ I.text n) }
    ensures err { OnErr result (out.new.items ≡ out.old.items) }
{
    let mut buffer = Buffer::new();
    let digits = buffer.format(n);
    push_text(out, digits.as_bytes())
}

/// Appends a space and a number in decimal.
pub fn push_spaced<I: Integer>(out: &mut Vec<u8>, n: I) -> Result<(), NoMemory>
    ensures ok { OnOk result (out.new.items ≡ out.old.items ++ (32 ∷ I.text n)) }
    ensures err { OnErr result (out.new.items ≡ out.old.items) }
{
    let mut buffer = Buffer::new();
    let digits = buffer.format(n).as_bytes();
    out.reserve(1 + digits.len())?;
    out.extend_from_slice(b" ").unwrap();
    out.extend_from_slice(digits).unwrap();
    Ok(())
}

/// The digit of a number below 16.
#[inline(always)]
fn digit_of(n: u8) -> u8
    requires { n < 16 }
    ensures { result ≡ slice_index lower_digits n }
{
    if n < 10 { b'0' + n } else { b'a' - 10 + n }
}

/// Writes the digits of bytes.
fn fill_digits(digits: &mut [u8], bytes: &[u8])
    requires { length digits.old ≡ 2 * length bytes.now }
    ensures { digits.new ≡ encode_lower bytes.now }
{
    'bytes: for i in 0..bytes.len() {
        let byte = bytes[i];
        digits[2 * i] = digit_of(byte / 16);
        digits[2 * i + 1] = digit_of(byte % 16);
    }
}

/// Appends bytes in lower-case hexadecimal, or a dash for none. The digits are made in place.
pub fn push_hex(out: &mut Vec<u8>, bytes: &[u8]) -> Result<(), NoMemory>
    ensures ok { OnOk result (out.new.items ≡ out.old.items ++ hex_of bytes.now) }
    ensures err { OnErr result (out.new.items ≡ out.old.items) }
{
    if bytes.is_empty() {
        return push_text(out, b"-");
    }
    let at = out.len();
    out.reserve(2 * bytes.len())?;
    out.resize(at + 2 * bytes.len(), 0)?;
    fill_digits(out.slice_mut(at..), bytes);
    Ok(())
}
