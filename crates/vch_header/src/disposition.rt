ghost use Rattle.std.specs.Prelude.{◌≡◌};
ghost use Rattle.vch_header.specs.Dispositions as dispositions;

/// Bits 16 to 20 of a header's first number. The mask and the two numbers are the kernel release's.
pub const MACH_MSGH_BITS_VOUCHER_MASK: u32 = 0x001F_0000;

/// The sender's name of the voucher is moved to the receiver.
pub const MACH_MSG_TYPE_MOVE_SEND: u32 = 17;

/// The sender keeps its name of the voucher.
pub const MACH_MSG_TYPE_COPY_SEND: u32 = 19;

/// What becomes of the voucher port's name.
#[derive(Clone, Copy, Debug, PartialEq, Eq)]
pub enum Disposition {
    /// The message carries no voucher: 0.
    Absent,
    /// 17.
    MoveSend,
    /// 19.
    CopySend,
}

impl Disposition {
    /// The disposition with a number; none exactly where it is none of 0, 17 and 19.
    pub fn of(number: u32) -> Option<Disposition>
        ensures { result ≡ dispositions.disposition_of number }
    {
        match number {
            0 => Some(Disposition::Absent),
            MACH_MSG_TYPE_MOVE_SEND => Some(Disposition::MoveSend),
            MACH_MSG_TYPE_COPY_SEND => Some(Disposition::CopySend),
            _ => None,
        }
    }
}

/// The number in the bits of the voucher's disposition.
pub fn voucher_bits(bits: u32) -> u32
    ensures { result ≡ dispositions.voucher_bits bits }
{
    (bits & MACH_MSGH_BITS_VOUCHER_MASK) >> 16
}
