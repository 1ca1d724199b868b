ghost use Rattle.std.specs.Prelude.{◌≡◌};
ghost use Rattle.vch_header.specs.Carrying.{carried_by, header_of};

use crate::bytes::HEADER_BYTES;
use crate::disposition::Disposition;
use crate::header::Header;

/// The first number of a header that moves the voucher: disposition 17. The lowest byte says that the remote port is copied.
const BITS_MOVING: u32 = 0x0011_0013;

/// The first number of a header that copies the voucher: disposition 19.
const BITS_COPYING: u32 = 0x0013_0013;

/// What a `send` is said by: the task that it goes to, whether the sender's name of the voucher is moved, that name, and the
/// message's id.
#[derive(Clone, Copy, Debug, PartialEq, Eq)]
pub struct Carried {
    pub to: u32,
    pub moving: bool,
    /// 0 where no voucher is carried.
    pub name: u32,
    pub id: u32,
}

/// The `send` that a header is. At disposition 0 the voucher's number is not looked at; the size and the local port never
/// are. It takes no memory.
pub fn sending(header: &Header) -> Carried
    ensures { result ≡ carried_by header.now }
{
    let (moving, name) = match header.disposition() {
        Disposition::Absent => (false, 0),
        Disposition::MoveSend => (true, header.voucher()),
        Disposition::CopySend => (false, header.voucher()),
    };
    Carried {
        to: header.remote(),
        moving,
        name,
        id: header.id(),
    }
}

/// The header of a `send`: no body, no reply port, and a voucher that is moved or copied. It takes no memory.
pub fn of_send(carried: &Carried) -> Header
    ensures { result ≡ header_of carried.now }
{
    let bits = if carried.moving {
        BITS_MOVING
    } else {
        BITS_COPYING
    };
    match Header::of(
        bits,
        HEADER_BYTES as u32,
        carried.to,
        0,
        carried.name,
        carried.id,
    ) {
        Ok(header) => header,
        Err(_) => unreachable!(),
    }
}
