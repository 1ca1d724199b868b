ghost use Rattle.std.specs.Prelude.{◌≡◌, ◌≢◌, ◌≤◌, None, Some, IsTrue, OnOk, OnErr, if◌then◌else◌, length};
ghost use Rattle.vch_base.specs.Tasks.{set_task};
ghost use Rattle.vch_base.specs.declared.kind.Kind.TheVariants as kinds;
ghost use Rattle.vch_model.specs.declared.call.Call.TheVariants as calls;
ghost use Rattle.vch_model.specs.Lines.{is_task};
ghost use Rattle.vch_machine.specs.Next.{nth_call};
ghost use Rattle.vch_vouchers.specs.Desks.{desk, one_less, orphaned, voucher_of};
ghost use Rattle.vch_parts.specs.Framed.{begun_of, frame_of};
ghost use Rattle.vch_parts.specs.Reached.{Reached, IsNext, MayFollow};
ghost use Rattle.vch_carry.specs.Carried.{forming_in};

use crate::Sending;
use crate::ending::end_placed;
use crate::placing::forming;
use vch_base::codes::MACH_SEND_TIMED_OUT;
use vch_base::{Code, NoMemory};
use vch_making::{out_of_memory, refuse};
use vch_model::{Entry, Reply, Word};
use vch_parts::Parts;
use vch_table::Indices;
use vch_vouchers::Vouchers;

/// A name that moves loses a user reference. It returns the voucher where no name and no message has it any more.
fn move_name(vouchers: &mut Vouchers, moving: bool, task: u32, name: u32) -> Option<Indices>
    requires task { (1 ≤ task) × (task ≤ length vouchers.old) }
    ensures names { vouchers.new ≡ (if moving then set_task vouchers.old task (record (desk vouchers.old task) { names = one_less (desk vouchers.old task).names name }) else vouchers.old) }
    ensures orphan { result ≡ (if moving then orphaned vouchers.new (voucher_of (desk vouchers.old task).names name) else None) }
{
    if moving {
        vouchers.drop_name(task, name)
    } else {
        None
    }
}

/// Queues the voucher, and takes a user reference from a name that moves. The one error is out of memory; all is as it was
/// then.
fn deliver(
    parts: &mut Parts,
    task: u32,
    sending: Sending,
    voucher: &Indices,
) -> Result<(), NoMemory>
    requires reached { Reached parts.old }
    requires task { IsTrue (is_task parts.old.scenario task) }
    requires next { IsNext parts.old task (Some kinds.Place) }
    requires call { nth_call parts.old.scenario task (begun_of parts.old.frames task) ≡ Some (calls.Send sending.to sending.moving sending.name sending.id) }
    requires forming { forming_in (frame_of parts.old.frames task) ≡ Some voucher.now }
    requires room { length (desk parts.old.vouchers sending.to).queue ≢ (desk parts.old.vouchers sending.to).limit }
    ensures ok { OnOk result (MayFollow kinds.Place task parts.old parts.new) }
    ensures err { OnErr result (parts.new ≡ parts.old) }
{
    parts.values.know();
    parts.vouchers.know();
    let known = parts.vouchers.send(sending.to, task, sending.id, voucher)?;
    let orphan = move_name(&mut parts.vouchers, sending.moving, task, sending.name);
    let number = parts.frames.at(task).begun;
    let Some(mut frame) = parts.frames.take(task) else {
        return Ok(());
    };
    end_placed(&mut frame, known, voucher, &orphan);
    parts.history.push(Entry::Call {
        task,
        number,
        word: Word::Send,
        reply: Reply::Done,
    });
    parts.frames.put(task, frame.closed());
    Ok(())
}

/// Refuses a send to a full queue.
fn refuse_full(parts: &mut Parts, task: u32, sending: Sending)
    requires reached { Reached parts.old }
    requires task { IsTrue (is_task parts.old.scenario task) }
    requires next { IsNext parts.old task (Some kinds.Place) }
    requires call { nth_call parts.old.scenario task (begun_of parts.old.frames task) ≡ Some (calls.Send sending.to sending.moving sending.name sending.id) }
    requires full { length (desk parts.old.vouchers sending.to).queue ≡ (desk parts.old.vouchers sending.to).limit }
    ensures { MayFollow kinds.Place task parts.old parts.new }
{
    let _ = sending;
    refuse(parts, task, Code::of(MACH_SEND_TIMED_OUT))
}

/// Refuses a send that is out of memory.
fn refuse_send(parts: &mut Parts, task: u32, sending: Sending, cause: NoMemory)
    requires reached { Reached parts.old }
    requires task { IsTrue (is_task parts.old.scenario task) }
    requires next { IsNext parts.old task (Some kinds.Place) }
    requires call { nth_call parts.old.scenario task (begun_of parts.old.frames task) ≡ Some (calls.Send sending.to sending.moving sending.name sending.id) }
    requires room { length (desk parts.old.vouchers sending.to).queue ≢ (desk parts.old.vouchers sending.to).limit }
    ensures { MayFollow kinds.Place task parts.old parts.new }
{
    let _ = sending;
    parts.vouchers.know();
    out_of_memory(parts, task, cause)
}

/// Place of a `send`: the voucher that it forms is queued, and a name that moves loses a user reference. The time is that of
/// one look-up in the table, and linear in the names of the task where the name moves.
///
/// A full queue is looked at before memory is asked for, and the call is refused. It is also refused out of memory.
pub fn place_send(parts: &mut Parts, task: u32, sending: Sending)
    requires reached { Reached parts.old }
    requires task { IsTrue (is_task parts.old.scenario task) }
    requires next { IsNext parts.old task (Some kinds.Place) }
    requires call { nth_call parts.old.scenario task (begun_of parts.old.frames task) ≡ Some (calls.Send sending.to sending.moving sending.name sending.id) }
    ensures { MayFollow kinds.Place task parts.old parts.new }
{
    if parts.vouchers.is_full(sending.to) {
        return refuse_full(parts, task, sending);
    }
    let Some(voucher) = forming(&parts.frames, task) else {
        return;
    };
    match deliver(parts, task, sending, &voucher) {
        Ok(()) => (),
        Err(cause) => refuse_send(parts, task, sending, cause),
    }
}
