ghost use Rattle.std.specs.Prelude.{◌≡◌, Some, IsTrue};
ghost use Rattle.vch_base.specs.declared.kind.Kind.TheVariants as kinds;
ghost use Rattle.vch_model.specs.Lines.{is_task};
ghost use Rattle.vch_parts.specs.Framed.{frame_of};
ghost use Rattle.vch_parts.specs.Nexts.{value_kind};
ghost use Rattle.vch_parts.specs.Reached.{Reached, Follows};

use crate::Parts;
use crate::forming::put_index;
use crate::tally::count_refer;

/// Refer: the receipt that the frame has becomes a reference. Its index stands at the receipt's key of the voucher that the
/// frame forms; what stood there is to be let go of, also where it is the same. The call is at its next key then, or at its
/// next record.
pub fn refer(parts: &mut Parts, task: u32)
    requires reached { Reached parts.old }
    requires task { IsTrue (is_task parts.old.scenario task) }
    requires next { value_kind (frame_of parts.old.frames task) ≡ Some kinds.Refer }
    ensures { Follows kinds.Refer task parts.old parts.new }
{
    parts.values.know();
    let begun = parts.frames.at(task).begun;
    let Some(mut frame) = parts.frames.take(task) else {
        return;
    };
    let Some(taken) = frame.receipt.take() else {
        return;
    };
    let Some(call) = parts.scenario.call(task, begun) else {
        return;
    };
    let index = parts.values.refer(taken.key, taken.receipt);
    count_refer(&mut parts.tally);
    put_index(&mut frame, taken.key, Some(index));
    frame.move_on(parts.scenario.version(), call);
    parts.frames.put(task, Some(frame));
}
