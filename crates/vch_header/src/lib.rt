//! The message header of 24 bytes, and the voucher that it carries.
//!
//! A header is six numbers of 32 bits, the lowest byte of each first: bits, size, remote port, local port, voucher port and
//! id. Bits 16 to 20 of the first number are the disposition of the voucher port: 0 where the message carries no voucher, 17
//! where the sender's name is moved, 19 where it is copied. The layout, the mask and the dispositions are the kernel
//! release's; the order of the bytes is this project's own. All other bits are kept and not looked at.
//!
//! The one invariant is that a [`Header`] has one of the three dispositions, so [`sending`] has no fault. The hazard is
//! hostile bytes, too few or with another disposition: [`decode`] tells which it is, with the number. None of the calls on
//! headers takes memory.
//!
//! ```text
//! match decode(bytes) {
//!     Ok(header) => send(sending(&header)),                 // the first 24 bytes are spelled by the header
//!     Err(HeaderFault::Short { have }) => wait_for(24 - have),  // so many bytes of a header are there
//!     Err(HeaderFault::Disposition { number }) => refuse(number), // bits 16 to 20: none of 0, 17 and 19
//! }
//! ```
//!
//! `header_in` of this crate is such a caller, and proved: it decodes the digits of one line. [`translate`] makes the `send`
//! lines of a scenario from the headers that its `message` lines spell.
#![tactic(auto)]

mod bytes;
mod carried;
mod disposition;
mod fault;
mod header;
mod laws;
mod message;
#[cfg(test)]
mod tests;
mod translation;

pub use bytes::{HEADER_BYTES, decode, encode};
pub use carried::{Carried, of_send, sending};
pub use disposition::{
    Disposition, MACH_MSG_TYPE_COPY_SEND, MACH_MSG_TYPE_MOVE_SEND, MACH_MSGH_BITS_VOUCHER_MASK,
};
pub use fault::{HeaderFault, MessageFault, TranslationFault};
pub use header::Header;
pub use laws::{one_header, one_translation, sent_again, spellings};
pub use translation::translate;
