ghost use Rattle.std.specs.Prelude.{◌≡◌, ◌<◌, ◌↔◌, ℕ, length, IfOk, Ok};
ghost use Rattle.vch_header.specs.Fields.{Fields, spelling};
ghost use Rattle.vch_header.specs.Headers.{IsHeader, StartsWithHeader, HasUnknown, decoded, fields_in, fields_of};

use crate::fault::HeaderFault;
use crate::header::Header;
use byteorder::{ByteOrder, LittleEndian};

/// How many bytes a header has. It is the kernel release's.
pub const HEADER_BYTES: usize = 24;

/// How many numbers a header has.
const NUMBERS: usize = 6;

/// The six numbers in 24 bytes.
fn numbers(bytes: &[u8]) -> [u32; NUMBERS]
    requires { length bytes.now ≡ 24 }
    ensures { fields_of result ≡ fields_in bytes.now }
{
    let mut numbers = [0; NUMBERS];
    LittleEndian::read_u32_into(bytes, &mut numbers);
    numbers
}

/// `decode`, by what the first bytes are as numbers.
#[tactic(auto, unfolding(crate::specs::Headers::decoded))]
fn decode_first(bytes: &[u8]) -> Result<Header, HeaderFault>
    ensures { result ≡ decoded bytes.now }
{
    if bytes.len() < HEADER_BYTES {
        return Err(HeaderFault::Short { have: bytes.len() });
    }
    let [bits, size, remote, local, voucher, id] = numbers(&bytes[..HEADER_BYTES]);
    Header::of(bits, size, remote, local, voucher, id)
}

/// The header that the first 24 bytes spell; what follows them is not looked at.
///
/// `Short` comes exactly where there are fewer bytes, and has their number. `Disposition` comes after it, exactly where the
/// bytes spell a disposition of the voucher port that is none of 0, 17 and 19, and has that number. It takes no memory.
pub fn decode(bytes: &[u8]) -> Result<Header, HeaderFault>
    // The header that is answered is spelled by the bytes, and one that they spell is answered.
    ensures found { IfOk result (λ h. IsHeader h × StartsWithHeader bytes.now h) }
    ensures only { (h : Fields) → IsHeader h → StartsWithHeader bytes.now h → result ≡ Ok h }

    ensures short { (have : ℕ) → (result ≡ Err (HeaderFault.Short have)) ↔
        ((length bytes.now < 24) × (have ≡ length bytes.now)) }
    ensures disposition { (number : ℕ) → (result ≡ Err (HeaderFault.Disposition number)) ↔
        HasUnknown bytes.now number }
{
    decode_first(bytes)
}

/// The 24 bytes of a header. It takes no memory.
pub fn encode(header: &Header) -> [u8; HEADER_BYTES]
    ensures { result ≡ spelling header.now }
{
    let numbers = [
        header.bits(),
        header.size(),
        header.remote(),
        header.local(),
        header.voucher(),
        header.id(),
    ];
    let mut bytes = [0; HEADER_BYTES];
    LittleEndian::write_u32_into(&numbers, &mut bytes);
    bytes
}
