ghost use Rattle.std.specs.Prelude.{◌≡◌, Some, IsTrue};
ghost use Rattle.vch_base.specs.declared.kind.Kind.TheVariants as kinds;
ghost use Rattle.vch_model.specs.Lines.{is_task};
ghost use Rattle.vch_frame.specs.Claims as claims;
ghost use Rattle.vch_parts.specs.Framed.{frame_of};
ghost use Rattle.vch_parts.specs.Nexts.{value_kind};
ghost use Rattle.vch_parts.specs.Reached.{Reached, Follows};

use crate::Parts;
use crate::tally::count_claim;
use vch_base::Key;
use vch_frame::Claiming;
use vch_value::Claim;

/// A claim that was taken, or nothing.
pub fn claiming(key: Key, claim: Option<Claim>) -> Claiming
    ensures { result ≡ claims.claiming key claim }
{
    match claim {
        Some(claim) => Claiming::Claimed { key, claim },
        None => Claiming::Nothing,
    }
}

/// LetGo: the first reference that the frame has to let go of goes. Where it was the last of its value, the frame has a
/// claim on the value then.
pub fn let_go(parts: &mut Parts, task: u32)
    requires reached { Reached parts.old }
    requires task { IsTrue (is_task parts.old.scenario task) }
    requires next { value_kind (frame_of parts.old.frames task) ≡ Some kinds.LetGo }
    ensures { Follows kinds.LetGo task parts.old parts.new }
{
    parts.values.know();
    let Some(mut frame) = parts.frames.take(task) else {
        return;
    };
    let Some(first) = frame.lets.take_first() else {
        return;
    };
    let claim = parts.values.let_go(first.key, first.index);
    count_claim(&mut parts.tally, &claim);
    frame.claim = claiming(first.key, claim);
    parts.frames.put(task, frame.closed());
}
