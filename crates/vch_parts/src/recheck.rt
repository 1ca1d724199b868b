ghost use Rattle.std.specs.Prelude.{◌≡◌, Some, IsTrue};
ghost use Rattle.vch_base.specs.declared.kind.Kind.TheVariants as kinds;
ghost use Rattle.vch_model.specs.Lines.{is_task};
ghost use Rattle.vch_parts.specs.Framed.{frame_of};
ghost use Rattle.vch_parts.specs.Nexts.{value_kind};
ghost use Rattle.vch_parts.specs.Reached.{Reached, Follows};

use crate::Parts;
use crate::let_go::claiming;
use std::mem;
use vch_frame::Claiming;

/// Recheck: the manager's answer is looked at. Where the value was made and let go of again since the claim was taken, the
/// frame has a new claim then; else it has none.
pub fn recheck(parts: &mut Parts, task: u32)
    requires reached { Reached parts.old }
    requires task { IsTrue (is_task parts.old.scenario task) }
    requires next { value_kind (frame_of parts.old.frames task) ≡ Some kinds.Recheck }
    ensures { Follows kinds.Recheck task parts.old parts.new }
{
    parts.values.know();
    let Some(mut frame) = parts.frames.take(task) else {
        return;
    };
    let Claiming::Answered { key, asked } = mem::replace(&mut frame.claim, Claiming::Nothing) else {
        return;
    };
    let claim = parts.values.recheck(key, asked);
    frame.claim = claiming(key, claim);
    parts.frames.put(task, frame.closed());
}
