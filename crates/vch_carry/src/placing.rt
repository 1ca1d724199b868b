ghost use Rattle.std.specs.Prelude.{◌≡◌, ◌≤◌, ◌<◌, None, Some, Option, IsTrue, OnOk, OnErr, length, nat_lt, not, true, false};
ghost use Rattle.vch_base.specs.declared.codes.TheConstants.{KERN_RESOURCE_SHORTAGE, MACH_SEND_TIMED_OUT};
ghost use Rattle.vch_base.specs.declared.kind.Kind.TheVariants as kinds;
ghost use Rattle.vch_model.specs.declared.call.Call.TheVariants as calls;
ghost use Rattle.vch_model.specs.Lines.{is_task};
ghost use Rattle.vch_machine.specs.Next.{nth_call};
ghost use Rattle.vch_vouchers.specs.Desks.{desk};
ghost use Rattle.vch_parts.specs.Framed.{begun_of, frame_of};
ghost use Rattle.vch_parts.specs.Reached.{Reached, IsNext, MayFollow};
ghost use Rattle.vch_carry.specs.Carried.{forming_in};

use crate::ending::end_placed;
use vch_base::NoMemory;
use vch_making::out_of_memory;
use vch_model::{Entry, Reply, Word};
use vch_parts::{Frames, Parts};
use vch_table::Indices;

/// The voucher that a task's call forms, if there is one.
pub(crate) fn forming(frames: &Frames, task: u32) -> Option<Indices>
    requires task { (0 < task) × (task ≤ length frames.now) }
    ensures { result ≡ forming_in (frame_of frames.now task) }
{
    let frame = frames.at(task).frame.as_ref()?;
    let voucher = frame.forming.as_ref()?;
    Some(voucher.copy())
}

/// The first message of a task is taken, and the voucher gets a name of the task. The one error is out of memory; all is as
/// it was then.
fn receive(parts: &mut Parts, task: u32, voucher: &Indices) -> Result<(), NoMemory>
    requires reached { Reached parts.old }
    requires task { IsTrue (is_task parts.old.scenario task) }
    requires next { IsNext parts.old task (Some kinds.Place) }
    requires call { nth_call parts.old.scenario task (begun_of parts.old.frames task) ≡ Some calls.Recv }
    requires forming { forming_in (frame_of parts.old.frames task) ≡ Some voucher.now }
    ensures ok { OnOk result (MayFollow kinds.Place task parts.old parts.new) }
    ensures err { OnErr result (parts.new ≡ parts.old) }
{
    parts.values.know();
    let given = parts.vouchers.name(task, voucher)?;
    let number = parts.frames.at(task).begun;
    let Some(taken) = parts.vouchers.take_first(task) else {
        return Ok(());
    };
    let Some(mut frame) = parts.frames.take(task) else {
        return Ok(());
    };
    end_placed(&mut frame, given.was_known, voucher, &taken.orphan);
    parts.history.push(Entry::Call {
        task,
        number,
        word: Word::Recv,
        reply: Reply::Received {
            sender: taken.sender,
            id: taken.id,
            name: given.name,
        },
    });
    parts.frames.put(task, frame.closed());
    Ok(())
}

/// Refuses a receive that is out of memory.
fn refuse_recv(parts: &mut Parts, task: u32, cause: NoMemory)
    requires reached { Reached parts.old }
    requires task { IsTrue (is_task parts.old.scenario task) }
    requires next { IsNext parts.old task (Some kinds.Place) }
    requires call { nth_call parts.old.scenario task (begun_of parts.old.frames task) ≡ Some calls.Recv }
    ensures { MayFollow kinds.Place task parts.old parts.new }
{
    out_of_memory(parts, task, cause)
}

/// Place of a `recv`: the voucher that it forms gets a name of the task, the first message is taken, and the call is answered.
/// The time is linear in the names of the task, and that of one look-up in the table. Out of memory, the call is refused.
pub fn place_recv(parts: &mut Parts, task: u32)
    requires reached { Reached parts.old }
    requires task { IsTrue (is_task parts.old.scenario task) }
    requires next { IsNext parts.old task (Some kinds.Place) }
    requires call { nth_call parts.old.scenario task (begun_of parts.old.frames task) ≡ Some calls.Recv }
    ensures { MayFollow kinds.Place task parts.old parts.new }
{
    let Some(voucher) = forming(&parts.frames, task) else {
        return;
    };
    match receive(parts, task, &voucher) {
        Ok(()) => (),
        Err(cause) => refuse_recv(parts, task, cause),
    }
}
