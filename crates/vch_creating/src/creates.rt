ghost use Rattle.std.specs.Prelude.{◌≡◌, [], IsTrue, false};
ghost use Rattle.vch_base.specs.declared.kind.Kind.TheVariants as kinds;
ghost use Rattle.vch_model.specs.Lines.{is_task};
ghost use Rattle.vch_parts.specs.Reached.{Reached, MayFollow};
ghost use Rattle.vch_moves.specs.Steps as steps;
ghost use Rattle.vch_creating.specs.Beginnings.{BeginsCreate, is_answered, create_answer};

use vch_answers::answer;
use vch_base::Code;
use vch_base::codes::MIG_ARRAY_TOO_LARGE;
use vch_base::limits::ARRAY_BYTES;
use vch_frame::{Claiming, Lets};
use vch_model::{Reply, Word};
use vch_parts::{Frame, Keys, Parts};
use vch_table::Indices;

/// The answer to a create that needs no frame.
fn create_answer(size: usize) -> Reply
    ensures { result ≡ create_answer size }
{
    if size > ARRAY_BYTES {
        return Reply::Refused {
            code: Code::of(MIG_ARRAY_TOO_LARGE),
        };
    }
    Reply::Created { name: 0 }
}

/// The frame of a create that has the empty voucher and is at its first record.
fn fresh_frame() -> Frame
    ensures { result ≡ steps.fresh_frame [] [] }
{
    Frame {
        forming: Some(Indices::new()),
        answered: false,
        at: 0,
        keys: Keys::none(),
        receipt: None,
        lets: Lets::new(),
        claim: Claiming::Nothing,
    }
}

/// A create of no bytes, or of too many, is answered at once.
fn answer_create(parts: &mut Parts, task: u32, size: usize)
    requires reached { Reached parts.old }
    requires task { IsTrue (is_task parts.old.scenario task) }
    requires begins { BeginsCreate size parts.old task }
    requires size { IsTrue (is_answered size) }
    ensures { MayFollow kinds.Begin task parts.old parts.new }
{
    answer(parts, task, Word::Create, create_answer(size));
}

/// Any other create has a frame.
fn form_create(parts: &mut Parts, task: u32, size: usize)
    requires reached { Reached parts.old }
    requires task { IsTrue (is_task parts.old.scenario task) }
    requires begins { BeginsCreate size parts.old task }
    requires size { is_answered size ≡ false }
    ensures { MayFollow kinds.Begin task parts.old parts.new }
{
    let _ = size;
    parts.frames.begin(task);
    parts.frames.put(task, Some(fresh_frame()));
}

/// Begin of a `create` of so many bytes: with a frame, or without one where it is answered at once. Constant time.
pub fn begin_create(parts: &mut Parts, task: u32, size: usize)
    requires reached { Reached parts.old }
    requires task { IsTrue (is_task parts.old.scenario task) }
    requires begins { BeginsCreate size parts.old task }
    ensures { MayFollow kinds.Begin task parts.old parts.new }
{
    if size == 0 || size > ARRAY_BYTES {
        answer_create(parts, task, size);
    } else {
        form_create(parts, task, size);
    }
}
