ghost use Rattle.std.specs.Prelude.{◌≡◌, ◌≤◌, Some, IsTrue};
ghost use Rattle.vch_base.specs.declared.kind.Kind.TheVariants as kinds;
ghost use Rattle.vch_model.specs.Lines.{is_task};
ghost use Rattle.vch_frame.specs.Releases.{noted_release, less_room};
ghost use Rattle.vch_parts.specs.Framed.{frame_of};
ghost use Rattle.vch_parts.specs.Nexts.{value_kind};
ghost use Rattle.vch_parts.specs.Reached.{Reached, Follows};

use crate::Parts;
use crate::tally::count_question;
use std::mem;
use vch_frame::Claiming;
use vch_model::{Entry, History};

/// Appends the entry of a value that was given back, where the manager agreed. `made` is the number of its Made entry.
fn note_release(history: &mut History, agreed: bool, made: u32)
    requires { 1 ≤ history.old.spare }
    ensures entries { history.new.entries ≡ noted_release agreed made history.old.entries }
    ensures spare { history.new.spare ≡ less_room agreed history.old.spare }
{
    if agreed {
        history.push(Entry::Released { made });
    }
}

/// Ask: the manager is asked about the claim of the frame. Where it agrees, the value is given back, what is due on it is
/// credited to its holder, and the history says so. Other tasks may go on before it and after it.
pub fn ask(parts: &mut Parts, task: u32)
    requires reached { Reached parts.old }
    requires task { IsTrue (is_task parts.old.scenario task) }
    requires next { value_kind (frame_of parts.old.frames task) ≡ Some kinds.Ask }
    ensures { Follows kinds.Ask task parts.old parts.new }
{
    let Some(mut frame) = parts.frames.take(task) else {
        return;
    };
    let Claiming::Claimed { key, claim } = mem::replace(&mut frame.claim, Claiming::Nothing) else {
        return;
    };
    let handle = parts.values.handle(key, claim.index());
    let made = parts.values.number(key, handle);
    let asked = parts.values.ask(key, claim);
    count_question(&mut parts.tally);
    note_release(&mut parts.history, asked.agreed(), made);
    frame.claim = Claiming::Answered { key, asked };
    parts.frames.put(task, Some(frame));
}
