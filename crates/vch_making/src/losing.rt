ghost use Rattle.std.specs.Prelude.{◌≡◌, Some, IsTrue};
ghost use Rattle.vch_base.specs.declared.kind.Kind.TheVariants as kinds;
ghost use Rattle.vch_model.specs.Lines.{is_task};
ghost use Rattle.vch_parts.specs.Reached.{Reached, IsNext};
ghost use Rattle.vch_making.specs.Answers.{question_of, IsLoss};

use crate::question::Question;
use vch_parts::{Parts, put_index};

/// The manager gave no value: the voucher that the call forms loses the key, what stood there is to be let go of, and the call is
/// at its next key or record.
pub fn lose(parts: &mut Parts, task: u32, question: Question)
    requires reached { Reached parts.old }
    requires task { IsTrue (is_task parts.old.scenario task) }
    requires next { IsNext parts.old task (Some kinds.Make) }
    requires asked { question_of parts.old task ≡ Some question }
    ensures { IsLoss task question.key parts.old parts.new }
{
    let begun = parts.frames.at(task).begun;
    let Some(mut frame) = parts.frames.take(task) else {
        return;
    };
    let Some(call) = parts.scenario.call(task, begun) else {
        return;
    };
    put_index(&mut frame, question.key, None);
    frame.move_on(parts.scenario.version(), call);
    parts.frames.put(task, Some(frame));
}
