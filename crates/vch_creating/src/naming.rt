ghost use Rattle.std.specs.Prelude.{◌≡◌, ◌≤◌, ◌<◌, ◌++◌, [], Some, IsTrue, OnOk, OnErr, if◌then◌else◌, length};
ghost use Rattle.vch_base.specs.declared.kind.Kind.TheVariants as kinds;
ghost use Rattle.vch_model.specs.Lines.{is_task};
ghost use Rattle.vch_machine.specs.Next.{nth_call};
ghost use Rattle.vch_parts.specs.Framed.{begun_of, frame_of};
ghost use Rattle.vch_parts.specs.Reached.{Reached, IsNext, MayFollow};
ghost use Rattle.vch_moves.specs.Desks.{items};
ghost use Rattle.vch_moves.specs.Steps as steps;
ghost use Rattle.vch_creating.specs.Beginnings.{IsCreating, forming_in};

use vch_base::NoMemory;
use vch_making::{let_all_go, out_of_memory};
use vch_model::{Entry, Reply, Word};
use vch_parts::{Frame, Frames, Keys, Parts};
use vch_table::Indices;

/// The voucher that a task's call forms, if there is one.
fn forming(frames: &Frames, task: u32) -> Option<Indices>
    requires task { (0 < task) × (task ≤ length frames.now) }
    ensures { result ≡ forming_in (frame_of frames.now task) }
{
    let frame = frames.at(task).frame.as_ref()?;
    let voucher = frame.forming.as_ref()?;
    Some(voucher.copy())
}

/// Appends the indices of a voucher that was known before.
fn let_known_go(frame: &mut Frame, known: bool, voucher: &Indices)
    requires { length frame.old.lets ≤ 8 }
    ensures { frame.new ≡ record frame.old { lets = frame.old.lets ++ (if known then items voucher.now else []) } }
{
    if known {
        let_all_go(&mut frame.lets, voucher);
    }
}

/// Ends a create that got its name: the frame lets go of the voucher where it was known before.
fn end_create(frame: &mut Frame, known: bool, voucher: &Indices)
    requires { length frame.old.lets ≤ 8 }
    ensures { frame.new ≡ steps.ended frame.old (if known then items voucher.now else []) }
{
    let_known_go(frame, known, voucher);
    frame.forming = None;
    frame.answered = true;
    frame.keys = Keys::none();
}

/// The voucher gets a name of the task. The one error is out of memory; all is as it was then.
fn give_name(parts: &mut Parts, task: u32, voucher: &Indices) -> Result<(), NoMemory>
    requires reached { Reached parts.old }
    requires task { IsTrue (is_task parts.old.scenario task) }
    requires next { IsNext parts.old task (Some kinds.Place) }
    requires call { IsCreating (nth_call parts.old.scenario task (begun_of parts.old.frames task)) }
    requires forming { forming_in (frame_of parts.old.frames task) ≡ Some voucher.now }
    ensures ok { OnOk result (MayFollow kinds.Place task parts.old parts.new) }
    ensures err { OnErr result (parts.new ≡ parts.old) }
{
    parts.values.know();
    let given = parts.vouchers.name(task, voucher)?;
    let number = parts.frames.at(task).begun;
    let Some(mut frame) = parts.frames.take(task) else {
        return Ok(());
    };
    end_create(&mut frame, given.was_known, voucher);
    parts.history.push(Entry::Call {
        task,
        number,
        word: Word::Create,
        reply: Reply::Created { name: given.name },
    });
    parts.frames.put(task, frame.closed());
    Ok(())
}

/// Refuses a create that is out of memory.
fn refuse_create(parts: &mut Parts, task: u32, cause: NoMemory)
    requires reached { Reached parts.old }
    requires task { IsTrue (is_task parts.old.scenario task) }
    requires next { IsNext parts.old task (Some kinds.Place) }
    requires call { IsCreating (nth_call parts.old.scenario task (begun_of parts.old.frames task)) }
    ensures { MayFollow kinds.Place task parts.old parts.new }
{
    out_of_memory(parts, task, cause)
}

/// Place of a `create`: the voucher that it formed gets a name of the task, and the call is answered. Out of memory, the call is
/// refused. The time is linear in the names of the task, and that of one look-up in the table.
pub fn place_create(parts: &mut Parts, task: u32)
    requires reached { Reached parts.old }
    requires task { IsTrue (is_task parts.old.scenario task) }
    requires next { IsNext parts.old task (Some kinds.Place) }
    requires call { IsCreating (nth_call parts.old.scenario task (begun_of parts.old.frames task)) }
    ensures { MayFollow kinds.Place task parts.old parts.new }
{
    let Some(voucher) = forming(&parts.frames, task) else {
        return;
    };
    match give_name(parts, task, &voucher) {
        Ok(()) => (),
        Err(cause) => refuse_create(parts, task, cause),
    }
}
