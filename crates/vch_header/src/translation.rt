ghost use Rattle.std.specs.Prelude.{◌≡◌, ℕ, List, IfOk, IfErr, OnOk};
ghost use Rattle.vch_header.specs.Messages.{IsTranslation, IsRefusedAt};
ghost use Rattle.vch_header.specs.Translating.{Placed, Appended, StopsAt, Translates, GivesText, GivesFault};
ghost use Rattle.vch_header.specs.declared.fault.MessageFault.{MessageFault};

use crate::carried::sending;
use crate::fault::TranslationFault;
use crate::message::{header_in, message, push_send};
use std::alloc::Global;
use vch_text::{next_line, push_text};

/// Appends what stands in the place of the line with this number, without its line feed.
fn push_place(out: &mut Vec<u8>, number: usize, line: &[u8]) -> Result<(), TranslationFault>
    ensures done { OnOk result (Placed line.now out.old.items out.new.items) }
    ensures refused { IfErr result (λ fault. StopsAt number line.now fault) }
{
    match message(line) {
        None => Ok(push_text(out, line)?),
        Some((task, digits)) => match header_in(digits) {
            Ok(header) => Ok(push_send(out, task, sending(&header))?),
            Err(why) => Err(TranslationFault::At { line: number, why }),
        },
    }
}

/// Appends the line that stands in the place of the one with this number.
fn push_line(out: &mut Vec<u8>, number: usize, line: &[u8]) -> Result<(), TranslationFault>
    ensures done { OnOk result (Appended line.now out.old.items out.new.items) }
    ensures refused { IfErr result (λ fault. StopsAt number line.now fault) }
{
    push_place(out, number, line)?;
    push_text(out, b"\n")?;
    Ok(())
}

/// `translate`, by the lines that were gone over.
fn translate_lines(alloc: Global, text: &[u8]) -> Result<Vec<u8>, TranslationFault>
    ensures { Translates text.now result }
{
    let mut out = Vec::new(alloc);
    let mut rest = text;
    let mut number = 1;
    while let Some((line, more)) = next_line(rest) {
        push_line(&mut out, number, line)?;
        rest = more;
        number += 1;
    }
    push_text(&mut out, rest)?;
    Ok(out)
}

/// The text with a `send` in the place of each message line; or the first message line, counted from 1, whose third word is
/// not 48 hexadecimal digits (`Form`) or spells a disposition that is none of 0, 17 and 19 (`Disposition`).
///
/// A message line is three words with one space between two of them, no comment sign at its front, and `message` for its
/// second word. All other lines, and the bytes behind the last line feed, stay byte for byte; whether the text is a scenario
/// is not asked. The form is this project's own.
///
/// The text is gone over once. That it is out of memory for the new text is the one answer that the old one doesn't decide.
pub fn translate(alloc: Global, text: &[u8]) -> Result<Vec<u8>, TranslationFault>
    // The text that is answered is the translation, and one that there is is answered.
    ensures found { IfOk result (λ out. IsTranslation text.now out.items) }
    ensures only { (out : List ℕ) → IsTranslation text.now out → GivesText out result }

    // The fault that is told is the first, and one that there is is told.
    ensures fault { (line : ℕ) (why : MessageFault) →
        result ≡ Err (TranslationFault.At line why) → IsRefusedAt text.now line why }
    ensures fault_only { (line : ℕ) (why : MessageFault) →
        IsRefusedAt text.now line why → GivesFault line why result }
{
    translate_lines(alloc, text)
}
