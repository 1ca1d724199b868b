ghost use Rattle.std.specs.Prelude.{◌≡◌, ◌⊎◌, ◌≤◌, None, Some, Ok, Err, IfErr, IsTrue, length};
ghost use Rattle.vch_base.specs.declared.kind.Kind.TheVariants as kinds;
ghost use Rattle.vch_machine.specs.Next.{nth_call};
ghost use Rattle.vch_making.specs.Refused.{IsOther};
ghost use Rattle.vch_model.specs.Lines.{is_task};
ghost use Rattle.vch_moves.specs.Works.{ChangesEach};
ghost use Rattle.vch_parts.specs.Framed.{begun_of, frame_of};
ghost use Rattle.vch_parts.specs.Reached.{IsNext, MayFollow, Reached};
ghost use Rattle.vch_frame.specs.Indices.{IsKeyed};
ghost use Rattle.vch_creating.specs.Carried.{IsCreate, MayChange, ReadsNext, becoming, keys_of};

use crate::change::{Change, change_keys};
use crate::record::{INVALID, Record, read_record};
use vch_base::Code;
use vch_frame::Lets;
use vch_making::refuse;
use vch_model::Call;
use vch_parts::Parts;
use vch_table::Indices;
use vch_values::Values;

/// The record at the place of the task's `create`, or the code with which the call is refused.
fn read(parts: &Parts, task: u32) -> Result<Record, Code>
    requires reached { Reached parts.now }
    requires task { IsTrue (is_task parts.now.scenario task) }
    requires next { IsNext parts.now task (Some kinds.Work) }
    requires call { IsCreate (nth_call parts.now.scenario task (begun_of parts.now.frames task)) }
    ensures reads { ReadsNext parts.now task result }
    ensures other { IfErr result (λ code. IsOther code) }
{
    let working = parts.frames.at(task);
    let Some(frame) = &working.frame else {
        return Err(INVALID);
    };
    let Some(Call::Create { bytes }) = parts.scenario.call(task, working.begun) else {
        return Err(INVALID);
    };
    read_record(parts, task, bytes.as_slice(), frame.at)
}

/// Carries a change of a voucher out, if there is one.
fn change_map(
    values: &mut Values,
    map: &mut Indices,
    lets: &mut Lets,
    version: u32,
    change: &Option<Change>,
)
    requires version { (version ≡ 1) ⊎ (version ≡ 2) }
    requires shares { MayChange values.old change.now }
    requires keyed { IsKeyed map.old }
    requires room { length lets.old ≤ 8 }
    ensures { ChangesEach (becoming change.now) (keys_of version change.now) (record { keyed = values.old; map = map.old; lets = lets.old }) (record { keyed = values.new; map = map.new; lets = lets.new }) }
{
    if let Some(change) = change {
        change_keys(values, map, lets, version, change.keys, &change.deed);
    }
}

/// Carries a record out that was read.
fn carry_out(parts: &mut Parts, task: u32, deed: Record)
    requires reached { Reached parts.old }
    requires task { IsTrue (is_task parts.old.scenario task) }
    requires next { IsNext parts.old task (Some kinds.Work) }
    requires call { IsCreate (nth_call parts.old.scenario task (begun_of parts.old.frames task)) }
    requires read { ReadsNext parts.old task (Ok deed) }
    ensures { MayFollow kinds.Work task parts.old parts.new }
{
    parts.values.know();
    let Some(mut frame) = parts.frames.take(task) else {
        return;
    };
    let Some(mut map) = frame.forming.take() else {
        return;
    };
    change_map(
        &mut parts.values,
        &mut map,
        &mut frame.lets,
        parts.scenario.version(),
        &deed.change,
    );
    frame.forming = Some(map);
    frame.at = deed.next;
    parts.frames.put(task, Some(frame));
}

/// Work of a `create`: one record that asks no manager is carried out on the voucher that the call forms, or the call is refused.
/// It takes the time of a look at the task's names and no memory.
pub fn work(parts: &mut Parts, task: u32)
    requires reached { Reached parts.old }
    requires task { IsTrue (is_task parts.old.scenario task) }
    requires next { IsNext parts.old task (Some kinds.Work) }
    requires call { IsCreate (nth_call parts.old.scenario task (begun_of parts.old.frames task)) }
    ensures { MayFollow kinds.Work task parts.old parts.new }
{
    match read(parts, task) {
        Ok(record) => carry_out(parts, task, record),
        Err(code) => refuse(parts, task, code),
    }
}
