//! A message line: its words, its header, and the `send` in its place.
ghost use Rattle.std.specs.Prelude.{◌≡◌, ◌++◌, ℕ, List, IfOk, IfErr, IfSome, IfNone, OnOk};
ghost use Rattle.vch_text.specs.Reading.{Finds};
ghost use Rattle.vch_header.specs.Messages.{IsMessage, IsOther, SpellsHeader, HasFault, send_text, manner};
ghost use Rattle.vch_header.specs.Translating as translating;

use crate::bytes::{HEADER_BYTES, decode};
use crate::carried::Carried;
use crate::fault::MessageFault;
use crate::header::Header;
use hex::FromHex;
use vch_base::NoMemory;
use vch_text::{end, front, is_word, push_spaced, push_text, word};

/// Whether these three words are those of a message line.
fn is_message(task: &[u8], verb: &[u8], digits: &[u8]) -> bool
    ensures { result ≡ translating.is_message task.now verb.now digits.now }
{
    let open = match task {
        [] | [b'#', ..] => false,
        _ => true,
    };
    open && is_word(verb, b"message") && !is_word(digits, b"")
}

/// `message`, by the words of the line.
#[tactic(auto, unfolding(crate::specs::Translating::message_of))]
fn message_words(line: &[u8]) -> Option<(&[u8], &[u8])>
    ensures { Finds (λ m. (m.0.now, m.1.now)) result (translating.message_of line.now) }
{
    let (task, rest) = front(b' ', line);
    let (verb, rest) = word(rest)?;
    let (digits, rest) = word(rest)?;
    end(rest)?;
    if is_message(task, verb, digits) {
        Some((task, digits))
    } else {
        None
    }
}

/// The first and the third word of a message line; none exactly where the line is none.
pub fn message(line: &[u8]) -> Option<(&[u8], &[u8])>
    ensures found { IfSome result (λ m. IsMessage line.now m.0.now m.1.now) }
    ensures none { IfNone result (IsOther line.now) }
{
    message_words(line)
}

/// The header whose bytes these digits spell, or why there is none. It takes no memory.
pub fn header_in(digits: &[u8]) -> Result<Header, MessageFault>
    ensures found { IfOk result (λ h. SpellsHeader digits.now h) }
    ensures refused { IfErr result (λ why. HasFault digits.now why) }
{
    let Ok(bytes) = <[u8; HEADER_BYTES] as FromHex>::from_hex(digits) else {
        return Err(MessageFault::Form);
    };
    match decode(&bytes) {
        Ok(header) => Ok(header),
        Err(_) => Err(MessageFault::Disposition),
    }
}

/// Whether the voucher is moved, as a word.
fn manner_text(moving: bool) -> &'static [u8]
    ensures { result.now ≡ manner moving }
{
    if moving { b" move" } else { b" copy" }
}

/// Appends the `send` of a task.
pub fn push_send(out: &mut Vec<u8>, task: &[u8], carried: Carried) -> Result<(), NoMemory>
    ensures { OnOk result (out.new.items ≡ out.old.items ++ send_text task.now carried) }
{
    push_text(out, task)?;
    push_text(out, b" send")?;
    push_spaced(out, carried.to)?;
    push_text(out, manner_text(carried.moving))?;
    push_spaced(out, carried.name)?;
    push_spaced(out, carried.id)
}
