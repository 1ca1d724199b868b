ghost use Rattle.std.specs.Prelude.{◌≡◌, IfOk};
ghost use Rattle.vch_replay.specs.Lines as lines;
ghost use Rattle.vch_replay.specs.Run.{Comes};
ghost use Rattle.vch_replay.specs.declared.command.Command.TheVariants as commands;

use crate::outcome::Outcome;
use std::alloc::Global;
use vch_base::NoMemory;
use vch_header::{MessageFault, TranslationFault, translate};
use vch_text::{push_spaced, push_text};

fn message_why(why: MessageFault) -> &'static [u8]
    ensures { result.now ≡ lines.message_why why }
{
    match why {
        MessageFault::Form => b"form",
        MessageFault::Disposition => b"disposition",
    }
}

/// The line of the first message line that can't be translated.
fn message_line(alloc: Global, line: usize, why: MessageFault) -> Result<Vec<u8>, NoMemory>
    ensures { IfOk result (λ text. text.items ≡ lines.message_fault line why) }
{
    let mut out = Vec::new(alloc);
    push_text(&mut out, b"fault line")?;
    push_spaced(&mut out, line)?;
    push_text(&mut out, b" why ")?;
    push_text(&mut out, message_why(why))?;
    push_text(&mut out, b"\n")?;
    Ok(out)
}

/// The input with a `send` in the place of each message line, or its first message line that can't be translated.
pub fn answer(alloc: Global, input: &[u8]) -> Result<Outcome, NoMemory>
    ensures { IfOk result (λ outcome. Comes commands.Header input.now outcome) }
{
    match translate(alloc, input) {
        Ok(text) => Ok(Outcome::Answered { text }),
        Err(TranslationFault::At { line, why }) => {
            let line = message_line(alloc, line, why)?;
            Ok(Outcome::Refused { line })
        }
        Err(TranslationFault::NoMemory { cause }) => Err(cause),
    }
}
