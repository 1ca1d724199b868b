ghost use Rattle.std.specs.Prelude.{◌≡◌, ◌≤◌, None, Some, IsTrue};
ghost use Rattle.vch_base.specs.declared.codes.TheConstants.{KERN_RESOURCE_SHORTAGE};
ghost use Rattle.vch_model.specs.Lines.{is_task};
ghost use Rattle.vch_parts.specs.Framed.{frame_of};
ghost use Rattle.vch_parts.specs.Nexts.{value_kind};
ghost use Rattle.vch_parts.specs.Reached.{Reached};
ghost use Rattle.vch_making.specs.Refused.{IsOther, IsRefused};

use crate::ending::{end_frame, word_of};
use vch_base::codes::KERN_RESOURCE_SHORTAGE;
use vch_base::{Code, NoMemory};
use vch_model::{Entry, Reply};
use vch_parts::Parts;

/// The call that a task has under way ends with a code: what it formed is to be let go of, and the history has the answer.
fn end_with(parts: &mut Parts, task: u32, code: Code)
    requires reached { Reached parts.old }
    requires task { IsTrue (is_task parts.old.scenario task) }
    requires idle { value_kind (frame_of parts.old.frames task) ≡ None }
    requires room { 1 ≤ parts.old.history.spare }
    ensures { IsRefused task code.number parts.old parts.new }
{
    let number = parts.frames.at(task).begun;
    let Some(mut frame) = parts.frames.take(task) else {
        return;
    };
    let Some(call) = parts.scenario.call(task, number) else {
        return;
    };
    let word = word_of(call);
    end_frame(&mut frame);
    parts.frames.put(task, frame.closed());
    parts.history.push(Entry::Call {
        task,
        number,
        word,
        reply: Reply::Refused { code },
    });
}

/// The call that a task has under way is refused with a code. It takes constant time and no memory.
pub fn refuse(parts: &mut Parts, task: u32, code: Code)
    requires other { IsOther code }
    requires reached { Reached parts.old }
    requires task { IsTrue (is_task parts.old.scenario task) }
    requires idle { value_kind (frame_of parts.old.frames task) ≡ None }
    requires room { 1 ≤ parts.old.history.spare }
    ensures { IsRefused task code.number parts.old parts.new }
{
    end_with(parts, task, code)
}

/// The call that a task has under way ends because it is out of memory, as [`refuse`] ends it for another reason.
pub fn out_of_memory(parts: &mut Parts, task: u32, _cause: NoMemory)
    requires reached { Reached parts.old }
    requires task { IsTrue (is_task parts.old.scenario task) }
    requires idle { value_kind (frame_of parts.old.frames task) ≡ None }
    requires room { 1 ≤ parts.old.history.spare }
    ensures { IsRefused task KERN_RESOURCE_SHORTAGE parts.old parts.new }
{
    end_with(
        parts,
        task,
        Code {
            number: KERN_RESOURCE_SHORTAGE,
        },
    )
}
