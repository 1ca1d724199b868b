ghost use Rattle.std.specs.Prelude.{◌≡◌, ◌≤◌, ◌<◌, ℕ, List, None, Some, IfSome, IsSome, IsTrue, length};
ghost use Rattle.vch_base.specs.Keyed.{of_key};
ghost use Rattle.vch_base.specs.Managers.{live_at, value_at};
ghost use Rattle.vch_base.specs.declared.kind.Kind.TheVariants as kinds;
ghost use Rattle.vch_base.specs.declared.value.Value.TheVariants as values;
ghost use Rattle.vch_model.specs.Lines.{is_task};
ghost use Rattle.vch_values.specs.Parts.{HasBytes};
ghost use Rattle.vch_parts.specs.Framed.{frame_of, with_frame_of};
ghost use Rattle.vch_parts.specs.Reached.{Reached, IsNext, MayFollow};
ghost use Rattle.vch_making.specs.Given.{receiving};
ghost use Rattle.vch_making.specs.Answers.{question_of, HasRoom, IsPrepared, NotesMade};

use crate::asking::{ask, prepare, read_question};
use crate::losing::lose;
use crate::question::Question;
use crate::refusing::{out_of_memory, refuse};
use vch_base::{Chain, GetFault, Key, Value};
use vch_frame::KeyReceipt;
use vch_model::Entry;
use vch_parts::Parts;
use vch_value::{Made, Receipt};

/// A list of tasks that is the same. At most eight steps.
fn copy_chain(list: &Chain) -> Chain
    requires { 1 ≤ length list.now }
    ensures { result ≡ list.now }
{
    let mut made = Chain::one(list.first());
    for i in 1..list.len() {
        made = made.with(list.at(i));
    }
    made
}

/// The value at a live handle, for its Made entry: a copy, or the one that was prepared where the values of the key are bytes.
fn made_value(parts: &Parts, key: Key, handle: u32, prepared: Value) -> Value
    requires live { IsSome (live_at (of_key key parts.now.values).kept.slots handle) }
    requires listed { (list : List ℕ) → value_at (of_key key parts.now.values).kept.slots handle ≡ Some (values.Chain list) → 1 ≤ length list }
    requires prepared { HasBytes key → value_at (of_key key parts.now.values).kept.slots handle ≡ Some prepared }
    ensures { value_at (of_key key parts.now.values).kept.slots handle ≡ Some result }
{
    match key {
        Key::Importance => Value::Chain {
            list: copy_chain(parts.values.chain(handle)),
        },
        Key::Bank => parts.values.bank_value(handle),
        Key::User | Key::Test => prepared,
    }
}

/// The history says that a fresh value was made, and the number of its entry is kept by its handle.
fn note_made(parts: &mut Parts, key: Key, handle: u32, value: Value)
    requires room { 1 ≤ parts.old.history.spare }
    requires few { length parts.old.history.entries < 4294967295 }
    requires numbers { handle < length (of_key key parts.old.values).numbers }
    ensures { NotesMade key handle value parts.old parts.new }
{
    parts.history.push(Entry::Made {
        key: key.number(),
        value,
    });
    parts
        .values
        .set_number(key, handle, parts.history.len() as u32);
}

/// The task's frame has a receipt of a key then.
fn give_receipt(parts: &mut Parts, task: u32, key: Key, receipt: Receipt)
    requires { (0 < task) × (task ≤ length parts.old.frames) }
    ensures { IfSome (frame_of parts.old.frames task) (λ f. parts.new ≡ record parts.old { frames = with_frame_of (with_frame_of parts.old.frames task None) task (Some (receiving f key receipt)) }) }
{
    let Some(mut frame) = parts.frames.take(task) else {
        return;
    };
    frame.receipt = Some(KeyReceipt { key, receipt });
    parts.frames.put(task, Some(frame));
}

/// The manager is asked, and the call goes on with its answer. `prepared` is the value of a Made entry where the values of the key
/// are bytes.
fn go_on(parts: &mut Parts, task: u32, question: Question, prepared: Value)
    requires reached { Reached parts.old }
    requires task { IsTrue (is_task parts.old.scenario task) }
    requires next { IsNext parts.old task (Some kinds.Make) }
    requires asked { question_of parts.old task ≡ Some question }
    requires room { HasRoom question.key parts.old }
    requires prepared { IsPrepared parts.old task question.key prepared }
    ensures { MayFollow kinds.Make task parts.old parts.new }
{
    match ask(parts, task, question) {
        Ok(Made::Nothing) => lose(parts, task, question),
        Ok(
            Made::Receipt {
                receipt,
                fresh: true,
            },
        ) => {
            let value = made_value(parts, question.key, receipt.handle(), prepared);
            note_made(parts, question.key, receipt.handle(), value);
            give_receipt(parts, task, question.key, receipt);
        }
        Ok(
            Made::Receipt {
                receipt,
                fresh: false,
            },
        ) => give_receipt(parts, task, question.key, receipt),
        Err(GetFault::Refused { code }) => refuse(parts, task, code),
        Err(GetFault::NoMemory { cause }) => out_of_memory(parts, task, cause),
    }
}

/// Make: the manager of a key is asked what the task's call wants next. A refusal answers the call; without a value the voucher
/// that is formed loses the key; a value gives a receipt, and a Made entry where it is fresh. Out of memory refuses the call with
/// code 6.
///
/// It takes the time of the manager's answer, and of a look at the task's names, all frames and the number of calls of each phase.
pub fn make(parts: &mut Parts, task: u32)
    requires reached { Reached parts.old }
    requires task { IsTrue (is_task parts.old.scenario task) }
    requires next { IsNext parts.old task (Some kinds.Make) }
    ensures { MayFollow kinds.Make task parts.old parts.new }
{
    let Some(question) = read_question(parts, task) else {
        unreachable!();
    };
    match prepare(parts, task, question.key) {
        Ok(prepared) => go_on(parts, task, question, prepared),
        Err(cause) => out_of_memory(parts, task, cause),
    }
}
