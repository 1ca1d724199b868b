ghost use Rattle.std.specs.Prelude.{◌≡◌, IsTrue, if◌then◌else◌};
ghost use Rattle.vch_base.specs.declared.codes.TheConstants.{KERN_INVALID_NAME};
ghost use Rattle.vch_base.specs.declared.kind.Kind.TheVariants as kinds;
ghost use Rattle.vch_model.specs.Lines.{is_task};
ghost use Rattle.vch_model.specs.Replies.{refused};
ghost use Rattle.vch_model.specs.declared.call.Call.TheVariants as calls;
ghost use Rattle.vch_parts.specs.Plain as plain;
ghost use Rattle.vch_parts.specs.Reached.{Reached, MayFollow};
ghost use Rattle.vch_moves.specs.Desks.{option_items};
ghost use Rattle.vch_moves.specs.Steps as steps;
ghost use Rattle.vch_answers.specs.Answered.{Begins};

use vch_base::Code;
use vch_base::codes::KERN_INVALID_NAME;
use vch_frame::{Claiming, Lets};
use vch_making::let_all_go;
use vch_model::{Entry, Reply, Word};
use vch_parts::{Frame, Keys, Parts};
use vch_table::Indices;

/// The answer to a drop.
fn drop_answer(known: bool) -> Reply
    ensures { result ≡ (if known then Reply.Done else refused KERN_INVALID_NAME) }
{
    if known {
        return Reply::Done;
    }
    Reply::Refused {
        code: Code::of(KERN_INVALID_NAME),
    }
}

/// The frame of a drop, which lets go of a voucher that no name and no message has any more; no frame where there is none.
fn leaving(orphan: &Option<Indices>) -> Option<Frame>
    ensures { result ≡ plain.closed (steps.leaving_frame (option_items orphan.now)) }
{
    let mut lets = Lets::new();
    if let Some(voucher) = orphan {
        let_all_go(&mut lets, voucher);
    }
    let frame = Frame {
        forming: None,
        answered: true,
        at: 0,
        keys: Keys::none(),
        receipt: None,
        lets,
        claim: Claiming::Nothing,
    };
    frame.closed()
}

/// Begin of a `drop`, which is answered at once. With the last user reference of a name whose voucher no one else has, a frame
/// lets go of the voucher. It takes no memory; linear in the names of the task.
pub fn begin_drop(parts: &mut Parts, task: u32, name: u32)
    requires reached { Reached parts.old }
    requires task { IsTrue (is_task parts.old.scenario task) }
    requires begins { Begins parts.old task (calls.GiveUp name) }
    ensures { MayFollow kinds.Begin task parts.old parts.new }
{
    parts.values.know();
    let known = parts.vouchers.voucher(task, name).is_some();
    let number = parts.frames.begin(task);
    let orphan = parts.vouchers.drop_name(task, name);
    parts.frames.put(task, leaving(&orphan));
    parts.history.push(Entry::Call {
        task,
        number,
        word: Word::GiveUp,
        reply: drop_answer(known),
    });
}
