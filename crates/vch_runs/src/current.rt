ghost use Rattle.std.specs.Prelude.{◌≡◌, ◌+◌, None, Some, IsSome, IsTrue, nat_lt, true};
ghost use Rattle.vch_base.specs.declared.kind.Kind.TheVariants as kinds;
ghost use Rattle.vch_model.specs.Lines.{is_task, lines_until};
ghost use Rattle.vch_parts.specs.Framed.{begun_of, frame_of};
ghost use Rattle.vch_parts.specs.Nexts.{value_kind};
ghost use Rattle.vch_parts.specs.Reached.{IsNext, Reached};
ghost use Rattle.vch_runs.specs.Called as called;
ghost use Rattle.vch_runs.specs.Called.{HasNext};
ghost use Rattle.vch_runs.specs.Said.{Says, word_said};
ghost use Rattle.vch_machine.specs.Next.{nth_call};

use crate::said::{Said, read_call};
use vch_making::word_of;
use vch_model::Word;
use vch_parts::Parts;

/// The number of the call that a task has under way, or else of its next one.
fn own_number(parts: &Parts, task: u32) -> u32
    requires reached { Reached parts.now }
    requires task { IsTrue (is_task parts.now.scenario task) }
    ensures { result ≡ called.own_number parts.now task }
{
    let working = parts.frames.at(task);
    match &working.frame {
        Some(_frame) => working.begun,
        None => working.begun + 1,
    }
}

/// The word of the call that a task has under way, or else of its next one. Nothing else of the call is looked at.
pub fn own_word(parts: &Parts, task: u32) -> Word
    requires reached { Reached parts.now }
    requires task { IsTrue (is_task parts.now.scenario task) }
    requires idle { value_kind (frame_of parts.now.frames task) ≡ None }
    requires next { HasNext parts.now task }
    ensures { called.own_word parts.now task ≡ Some result }
{
    match parts.scenario.call(task, own_number(parts, task)) {
        Some(call) => word_of(call),
        None => unreachable!(),
    }
}

/// What the call that a task begins says.
pub fn begun_call(parts: &Parts, task: u32) -> Said
    requires reached { Reached parts.now }
    requires task { IsTrue (is_task parts.now.scenario task) }
    requires next { IsNext parts.now task (Some kinds.Begin) }
    ensures free { frame_of parts.now.frames task ≡ None }
    ensures waits { nat_lt (begun_of parts.now.frames task) (lines_until parts.now.scenario (parts.now.phase + 1) task) ≡ true }
    ensures says { Says result (nth_call parts.now.scenario task (begun_of parts.now.frames task + 1)) }
    ensures word { called.own_word parts.now task ≡ Some (word_said result) }
{
    let number = parts.frames.at(task).begun + 1;
    match parts.scenario.call(task, number) {
        Some(call) => read_call(call),
        None => unreachable!(),
    }
}

/// What the call that a task has under way says.
pub fn open_call(parts: &Parts, task: u32) -> Said
    requires reached { Reached parts.now }
    requires task { IsTrue (is_task parts.now.scenario task) }
    requires under_way { IsSome (frame_of parts.now.frames task) }
    requires idle { value_kind (frame_of parts.now.frames task) ≡ None }
    requires next { HasNext parts.now task }
    ensures says { Says result (nth_call parts.now.scenario task (begun_of parts.now.frames task)) }
    ensures word { called.own_word parts.now task ≡ Some (word_said result) }
{
    let number = parts.frames.at(task).begun;
    match parts.scenario.call(task, number) {
        Some(call) => read_call(call),
        None => unreachable!(),
    }
}
