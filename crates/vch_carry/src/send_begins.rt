ghost use Rattle.std.specs.Prelude.{◌≡◌, ◌≢◌, ◌+◌, None, Some, IsTrue};
ghost use Rattle.vch_base.specs.declared.kind.Kind.TheVariants as kinds;
ghost use Rattle.vch_model.specs.declared.call.Call.TheVariants as calls;
ghost use Rattle.vch_model.specs.Lines.{is_task};
ghost use Rattle.vch_machine.specs.Next.{nth_call};
ghost use Rattle.vch_vouchers.specs.Desks.{desk, voucher_of};
ghost use Rattle.vch_parts.specs.Framed.{frame_of, begun_of};
ghost use Rattle.vch_parts.specs.Reached.{Reached, IsNext, MayFollow, plain_of};
ghost use Rattle.vch_replies.specs.Replied.{is_full};
ghost use Rattle.vch_carry.specs.Carried.{send_refusal};

use crate::Sending;
use crate::answering::answer;
use crate::copying::begin_copy;
use vch_base::codes::{MACH_SEND_INVALID_DEST, MACH_SEND_INVALID_VOUCHER, MACH_SEND_TIMED_OUT};
use vch_base::{Code, Key};
use vch_model::{Reply, Word};
use vch_parts::{Keys, Parts};
use vch_table::Indices;

/// Whether there is a task of this number.
fn is_there(parts: &Parts, task: u32) -> bool
    ensures { result ≡ is_task parts.now.scenario task }
{
    task > 0 && task as usize <= parts.scenario.scenario().flags.len()
}

/// Whether the queue of a task is full.
fn is_full_queue(parts: &Parts, to: u32) -> bool
    requires reached { Reached parts.now }
    requires task { IsTrue (is_task parts.now.scenario to) }
    ensures { result ≡ is_full (plain_of parts.now) to }
{
    parts.vouchers.know();
    parts.vouchers.is_full(to)
}

/// The code with which a send is refused as it begins, if it is.
fn refusal(parts: &Parts, task: u32, to: u32, name: u32) -> Option<Code>
    requires reached { Reached parts.now }
    requires task { IsTrue (is_task parts.now.scenario task) }
    ensures { result ≡ send_refusal parts.now.scenario (plain_of parts.now) task to name }
{
    if !is_there(parts, to) {
        return Some(Code::of(MACH_SEND_INVALID_DEST));
    }
    if name == 0 {
        return is_full_queue(parts, to).then_some(Code::of(MACH_SEND_TIMED_OUT));
    }
    if parts.vouchers.voucher(task, name).is_some() {
        return None;
    }
    Some(Code::of(MACH_SEND_INVALID_VOUCHER))
}

/// Answers a send with the code that it is refused with.
fn refuse_begin(parts: &mut Parts, task: u32, sending: Sending, code: Code)
    requires reached { Reached parts.old }
    requires task { IsTrue (is_task parts.old.scenario task) }
    requires next { IsNext parts.old task (Some kinds.Begin) }
    requires free { frame_of parts.old.frames task ≡ None }
    requires call { nth_call parts.old.scenario task (begun_of parts.old.frames task + 1) ≡ Some (calls.Send sending.to sending.moving sending.name sending.id) }
    requires code { send_refusal parts.old.scenario (plain_of parts.old) task sending.to sending.name ≡ Some code }
    ensures { MayFollow kinds.Begin task parts.old parts.new }
{
    let _ = sending;
    answer(parts, task, Word::Send, Reply::Refused { code });
}

/// Queues a message without a voucher, and answers the call.
fn send_nothing(parts: &mut Parts, task: u32, sending: Sending)
    requires reached { Reached parts.old }
    requires task { IsTrue (is_task parts.old.scenario task) }
    requires next { IsNext parts.old task (Some kinds.Begin) }
    requires free { frame_of parts.old.frames task ≡ None }
    requires call { nth_call parts.old.scenario task (begun_of parts.old.frames task + 1) ≡ Some (calls.Send sending.to sending.moving sending.name sending.id) }
    requires nothing { sending.name ≡ 0 }
    requires accepted { send_refusal parts.old.scenario (plain_of parts.old) task sending.to sending.name ≡ None }
    ensures { MayFollow kinds.Begin task parts.old parts.new }
{
    parts.vouchers.know();
    parts.vouchers.send_bare(sending.to, task, sending.id);
    answer(parts, task, Word::Send, Reply::Done);
}

/// Copies the named voucher; its bank value is to be asked for, where it has one.
fn copy_named(parts: &mut Parts, task: u32, sending: Sending, voucher: Indices)
    requires reached { Reached parts.old }
    requires task { IsTrue (is_task parts.old.scenario task) }
    requires next { IsNext parts.old task (Some kinds.Begin) }
    requires free { frame_of parts.old.frames task ≡ None }
    requires call { nth_call parts.old.scenario task (begun_of parts.old.frames task + 1) ≡ Some (calls.Send sending.to sending.moving sending.name sending.id) }
    requires something { sending.name ≢ 0 }
    requires accepted { send_refusal parts.old.scenario (plain_of parts.old) task sending.to sending.name ≡ None }
    requires named { voucher_of (desk parts.old.vouchers task).names sending.name ≡ Some voucher }
    ensures { MayFollow kinds.Begin task parts.old parts.new }
{
    let _ = sending;
    parts.values.know();
    let bank = voucher.get(Key::Bank.number()).is_some();
    begin_copy(parts, task, voucher, Keys::of(false, bank));
}

/// Begin of a `send`: it is refused where it is to no task or of a name that is not there, and queues a message without a
/// voucher at once. Any other gets a frame that forms a copy of the named voucher. It takes no memory; linear in the names of
/// the task.
pub fn begin_send(parts: &mut Parts, task: u32, sending: Sending)
    requires reached { Reached parts.old }
    requires task { IsTrue (is_task parts.old.scenario task) }
    requires next { IsNext parts.old task (Some kinds.Begin) }
    requires free { frame_of parts.old.frames task ≡ None }
    requires call { nth_call parts.old.scenario task (begun_of parts.old.frames task + 1) ≡ Some (calls.Send sending.to sending.moving sending.name sending.id) }
    ensures { MayFollow kinds.Begin task parts.old parts.new }
{
    if let Some(code) = refusal(parts, task, sending.to, sending.name) {
        return refuse_begin(parts, task, sending, code);
    }
    if sending.name == 0 {
        return send_nothing(parts, task, sending);
    }
    if let Some(voucher) = parts.vouchers.voucher(task, sending.name) {
        copy_named(parts, task, sending, voucher);
    }
}
