ghost use Rattle.std.specs.Prelude.{◌≡◌, ◌+◌, None, Some, IsTrue, slice_get};
ghost use Rattle.vch_base.specs.declared.kind.Kind.TheVariants as kinds;
ghost use Rattle.vch_model.specs.declared.call.Call.TheVariants as calls;
ghost use Rattle.vch_model.specs.Lines.{is_task};
ghost use Rattle.vch_machine.specs.Next.{nth_call};
ghost use Rattle.vch_vouchers.specs.Desks.{desk};
ghost use Rattle.vch_parts.specs.Framed.{frame_of, begun_of};
ghost use Rattle.vch_parts.specs.Reached.{Reached, IsNext, MayFollow};

use crate::answering::answer;
use crate::copying::begin_copy;
use vch_base::codes::MACH_RCV_TIMED_OUT;
use vch_base::{Code, Key};
use vch_model::{Reply, Word};
use vch_parts::{Keys, Parts};
use vch_table::Indices;
use vch_vouchers::Message;

/// Refuses a receive where there is no message.
fn refuse_empty(parts: &mut Parts, task: u32)
    requires reached { Reached parts.old }
    requires task { IsTrue (is_task parts.old.scenario task) }
    requires next { IsNext parts.old task (Some kinds.Begin) }
    requires free { frame_of parts.old.frames task ≡ None }
    requires call { nth_call parts.old.scenario task (begun_of parts.old.frames task + 1) ≡ Some calls.Recv }
    requires empty { slice_get (desk parts.old.vouchers task).queue 0 ≡ None }
    ensures { MayFollow kinds.Begin task parts.old parts.new }
{
    let code = Code::of(MACH_RCV_TIMED_OUT);
    answer(parts, task, Word::Recv, Reply::Refused { code });
}

/// Takes the first message, which has no voucher, and answers the call.
fn take_bare(parts: &mut Parts, task: u32, sender: u32, id: u32)
    requires reached { Reached parts.old }
    requires task { IsTrue (is_task parts.old.scenario task) }
    requires next { IsNext parts.old task (Some kinds.Begin) }
    requires free { frame_of parts.old.frames task ≡ None }
    requires call { nth_call parts.old.scenario task (begun_of parts.old.frames task + 1) ≡ Some calls.Recv }
    requires first { slice_get (desk parts.old.vouchers task).queue 0 ≡ Some (record { sender = sender; id = id; voucher = None }) }
    ensures { MayFollow kinds.Begin task parts.old parts.new }
{
    let _ = parts.vouchers.take_first(task);
    answer(
        parts,
        task,
        Word::Recv,
        Reply::Received {
            sender,
            id,
            name: 0,
        },
    );
}

/// Copies the voucher of the first message; its values of importance and of the bank are to be asked for, where it has them.
fn copy_first(parts: &mut Parts, task: u32, sender: u32, id: u32, voucher: Indices)
    requires reached { Reached parts.old }
    requires task { IsTrue (is_task parts.old.scenario task) }
    requires next { IsNext parts.old task (Some kinds.Begin) }
    requires free { frame_of parts.old.frames task ≡ None }
    requires call { nth_call parts.old.scenario task (begun_of parts.old.frames task + 1) ≡ Some calls.Recv }
    requires first { slice_get (desk parts.old.vouchers task).queue 0 ≡ Some (record { sender = sender; id = id; voucher = Some voucher }) }
    ensures { MayFollow kinds.Begin task parts.old parts.new }
{
    let _ = (sender, id);
    parts.values.know();
    let importance = voucher.get(Key::Importance.number()).is_some();
    let bank = voucher.get(Key::Bank.number()).is_some();
    begin_copy(parts, task, voucher, Keys::of(importance, bank));
}

/// Begin of a `recv`: it is refused where there is no message, and takes a first message without a voucher at once. Any other
/// gets a frame that forms a copy of the first message's voucher. It takes no memory and constant time.
pub fn begin_recv(parts: &mut Parts, task: u32)
    requires reached { Reached parts.old }
    requires task { IsTrue (is_task parts.old.scenario task) }
    requires next { IsNext parts.old task (Some kinds.Begin) }
    requires free { frame_of parts.old.frames task ≡ None }
    requires call { nth_call parts.old.scenario task (begun_of parts.old.frames task + 1) ≡ Some calls.Recv }
    ensures { MayFollow kinds.Begin task parts.old parts.new }
{
    let Some(message) = parts.vouchers.first(task) else {
        return refuse_empty(parts, task);
    };
    let Message {
        sender,
        id,
        voucher,
    } = message;
    match voucher {
        Some(voucher) => copy_first(parts, task, sender, id, voucher),
        None => take_bare(parts, task, sender, id),
    }
}
