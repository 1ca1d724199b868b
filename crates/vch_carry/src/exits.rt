ghost use Rattle.std.specs.Prelude.{◌≡◌, ◌+◌, None, Some, IsTrue, IsSome, slice_get};
ghost use Rattle.vch_base.specs.declared.kind.Kind.TheVariants as kinds;
ghost use Rattle.vch_model.specs.declared.call.Call.TheVariants as calls;
ghost use Rattle.vch_model.specs.Lines.{is_task};
ghost use Rattle.vch_machine.specs.Next.{nth_call};
ghost use Rattle.vch_vouchers.specs.Desks.{desk, lowest};
ghost use Rattle.vch_parts.specs.Framed.{frame_of, begun_of};
ghost use Rattle.vch_parts.specs.Reached.{Reached, IsNext, MayFollow};
ghost use Rattle.vch_moves.specs.Steps as steps;

use crate::lets::push_voucher;
use vch_frame::{Claiming, Lets};
use vch_model::{Entry, Reply, Word};
use vch_parts::{Frame, Keys, Parts};

/// The frame of an exit, which forms no voucher.
fn exiting_frame() -> Frame
    ensures { result ≡ steps.exiting_frame }
{
    Frame {
        forming: None,
        answered: false,
        at: 0,
        keys: Keys::none(),
        receipt: None,
        lets: Lets::new(),
        claim: Claiming::Nothing,
    }
}

/// Begin of an `exit`: the task gets a frame that forms no voucher. Constant time.
pub fn begin_exit(parts: &mut Parts, task: u32)
    requires reached { Reached parts.old }
    requires task { IsTrue (is_task parts.old.scenario task) }
    requires next { IsNext parts.old task (Some kinds.Begin) }
    requires free { frame_of parts.old.frames task ≡ None }
    requires call { nth_call parts.old.scenario task (begun_of parts.old.frames task + 1) ≡ Some calls.Exit }
    ensures { MayFollow kinds.Begin task parts.old parts.new }
{
    parts.frames.begin(task);
    parts.frames.put(task, Some(exiting_frame()));
}

/// Gives a name up with all its user references. The indices of its voucher are let go of where no one has it any more.
fn give_up_name(parts: &mut Parts, task: u32, name: u32)
    requires reached { Reached parts.old }
    requires task { IsTrue (is_task parts.old.scenario task) }
    requires next { IsNext parts.old task (Some kinds.Work) }
    requires call { nth_call parts.old.scenario task (begun_of parts.old.frames task) ≡ Some calls.Exit }
    requires name { lowest (desk parts.old.vouchers task).names ≡ Some name }
    ensures { MayFollow kinds.Work task parts.old parts.new }
{
    parts.values.know();
    let Some(mut frame) = parts.frames.take(task) else {
        return;
    };
    let orphan = parts.vouchers.remove_name(task, name);
    push_voucher(&mut frame.lets, &orphan);
    parts.history.push(Entry::Gone { task, name });
    parts.frames.put(task, Some(frame));
}

/// Throws the first message away. The indices of its voucher are let go of where no one has it any more.
fn give_up_message(parts: &mut Parts, task: u32)
    requires reached { Reached parts.old }
    requires task { IsTrue (is_task parts.old.scenario task) }
    requires next { IsNext parts.old task (Some kinds.Work) }
    requires call { nth_call parts.old.scenario task (begun_of parts.old.frames task) ≡ Some calls.Exit }
    requires nameless { lowest (desk parts.old.vouchers task).names ≡ None }
    requires message { IsSome (slice_get (desk parts.old.vouchers task).queue 0) }
    ensures { MayFollow kinds.Work task parts.old parts.new }
{
    parts.values.know();
    let Some(mut frame) = parts.frames.take(task) else {
        return;
    };
    let Some(taken) = parts.vouchers.take_first(task) else {
        return;
    };
    push_voucher(&mut frame.lets, &taken.orphan);
    parts.history.push(Entry::Lost { task });
    parts.frames.put(task, Some(frame));
}

/// Answers an exit that has given everything up.
fn leave(parts: &mut Parts, task: u32)
    requires reached { Reached parts.old }
    requires task { IsTrue (is_task parts.old.scenario task) }
    requires next { IsNext parts.old task (Some kinds.Work) }
    requires call { nth_call parts.old.scenario task (begun_of parts.old.frames task) ≡ Some calls.Exit }
    requires nameless { lowest (desk parts.old.vouchers task).names ≡ None }
    requires empty { slice_get (desk parts.old.vouchers task).queue 0 ≡ None }
    ensures { MayFollow kinds.Work task parts.old parts.new }
{
    let number = parts.frames.at(task).begun;
    let Some(mut frame) = parts.frames.take(task) else {
        return;
    };
    frame.answered = true;
    parts.history.push(Entry::Call {
        task,
        number,
        word: Word::Exit,
        reply: Reply::Done,
    });
    parts.frames.put(task, frame.closed());
}

/// Work of an `exit`: the lowest name of the task is given up, and with no name left the first message; with neither left, the
/// call is answered. It takes no memory. The time is linear in the names of the task.
pub fn exit(parts: &mut Parts, task: u32)
    requires reached { Reached parts.old }
    requires task { IsTrue (is_task parts.old.scenario task) }
    requires next { IsNext parts.old task (Some kinds.Work) }
    requires call { nth_call parts.old.scenario task (begun_of parts.old.frames task) ≡ Some calls.Exit }
    ensures { MayFollow kinds.Work task parts.old parts.new }
{
    if let Some(name) = parts.vouchers.first_name(task) {
        give_up_name(parts, task, name);
    } else if parts.vouchers.first(task).is_some() {
        give_up_message(parts, task);
    } else {
        leave(parts, task);
    }
}
