ghost use Rattle.std.specs.Prelude.{◌≡◌, ◌↔◌, true, IfOk, IsTrue};
ghost use Rattle.vch_model.specs.Legal.{IsWanting};
ghost use Rattle.vch_model.specs.Lines.{is_task};
ghost use Rattle.vch_model.specs.Words as words;
ghost use Rattle.vch_model.specs.declared.call.Call.TheVariants as calls;
ghost use Rattle.vch_books.specs.Audits.{store_at, past_at};
ghost use Rattle.vch_judge.specs.Effects.{IsJudged};

use crate::effect::{Effect, where_right};
use crate::own::own;
use crate::replies::{is_done, is_refused};
use crate::want::may_want;
use std::alloc::Global;
use vch_base::NoMemory;
use vch_base::codes::KERN_RESOURCE_SHORTAGE;
use vch_books::Books;
use vch_model::{Call, Reply, Word};

/// What a reply to an exit does: its task has nothing left.
fn leaving(books: &Books, task: u32, reply: &Reply) -> Option<Effect>
    ensures { IsJudged books.now task calls.Exit reply.now result }
{
    let right = is_done(reply) && !books.has_name(task) && !books.has_message(task);
    where_right(right, Effect::Stay)
}

/// Whether a reply is that of a call which is out of memory where it may be.
fn is_wanting(
    books: &Books,
    alloc: Global,
    task: u32,
    call: &Call,
    reply: &Reply,
) -> Result<bool, NoMemory>
    ensures { IfOk result (λ right. IsTrue right ↔ IsWanting books.now.scenario (past_at books.now) (store_at books.now) task call.now reply.now) }
{
    if !is_refused(reply, KERN_RESOURCE_SHORTAGE) {
        return Ok(false);
    }
    may_want(books, alloc, task, call)
}

/// What any reply does; nothing where the call may not be answered so.
pub fn judge_call(
    books: &Books,
    alloc: Global,
    task: u32,
    call: &Call,
    reply: &Reply,
) -> Result<Option<Effect>, NoMemory>
    requires { is_task books.now.scenario task ≡ true }
    ensures { IfOk result (λ effect. IsJudged books.now task call.now reply.now effect) }
{
    if let Call::Exit = call {
        return Ok(leaving(books, task, reply));
    }
    if let Some(effect) = own(books, alloc, task, call, reply)? {
        return Ok(Some(effect));
    }
    let wanting = is_wanting(books, alloc, task, call, reply)?;
    Ok(where_right(wanting, Effect::Stay))
}

/// The word of a call.
pub fn word_of(call: &Call) -> Word
    ensures { result ≡ words.word_of call.now }
{
    match call {
        Call::Create { .. } => Word::Create,
        Call::GiveUp { .. } => Word::GiveUp,
        Call::Extract { .. } => Word::Extract,
        Call::Recipes { .. } => Word::Recipes,
        Call::Send { .. } => Word::Send,
        Call::Recv => Word::Recv,
        Call::Extern { .. } => Word::Extern,
        Call::Charge { .. } => Word::Charge,
        Call::Ledger => Word::Ledger,
        Call::Assertions => Word::Assertions,
        Call::Live => Word::Live,
        Call::Exit => Word::Exit,
    }
}
