ghost use Rattle.std.specs.Prelude.{◌≡◌, ◌↔◌, IfOk, IsTrue, Some};
ghost use Rattle.vch_base.specs.Values as base;
ghost use Rattle.vch_model.specs.Legal.{all_tasks};
ghost use Rattle.vch_model.specs.Lines.{current_call};
ghost use Rattle.vch_model.specs.declared.call.Call.TheVariants as calls;
ghost use Rattle.vch_model.specs.declared.entry.Entry.TheVariants as entries;
ghost use Rattle.vch_books.specs.Audits.{past_at};
ghost use Rattle.vch_judge.specs.Follows.{MayFollow, IsAnswered};

use crate::answer::{judge_call, word_of};
use crate::effect::Effect;
use crate::given::is_task_of;
use std::alloc::Global;
use vch_base::limits::CHAIN_TASKS;
use vch_base::{Chain, Key, NoMemory, Value};
use vch_books::Books;
use vch_model::{Call, Reply, Word};

/// Whether a value belongs to a key.
fn belongs(key: Key, value: &Value) -> bool
    ensures { IsTrue result ↔ base.Belongs key value.now }
{
    match (key, value) {
        (Key::Importance, Value::Chain { list }) => list.len() >= 1 && list.len() <= CHAIN_TASKS,
        (Key::Bank, Value::Default | Value::Task { .. } | Value::Account { .. }) => true,
        (Key::User | Key::Test, Value::User { .. }) => true,
        _ => false,
    }
}

/// Whether each number of a list is that of a task.
#[tactic(auto, using(crate::proofs::Tasks::next_passes, crate::proofs::Tasks::next_fails, crate::proofs::Tasks::none_left))]
fn are_tasks(books: &Books, list: &Chain) -> bool
    ensures { result ≡ all_tasks books.now.scenario list.now }
{
    for i in 0..list.len() {
        if !is_task_of(books, list.at(i)) {
            return false;
        }
    }
    true
}

/// Whether a value names tasks alone.
fn has_tasks(books: &Books, value: &Value) -> bool
    ensures { result ≡ all_tasks books.now.scenario (base.task_numbers value.now) }
{
    match value {
        Value::User { .. } | Value::Default => true,
        Value::Chain { list } => are_tasks(books, list),
        Value::Task { task } => is_task_of(books, *task),
        Value::Account { holder, merchant } => {
            is_task_of(books, *holder) && is_task_of(books, *merchant)
        }
    }
}

/// Whether a value may be made next.
pub fn may_make(books: &Books, key: u32, value: &Value) -> bool
    ensures { IsTrue result ↔ MayFollow books.now (entries.Made key value.now) }
{
    books.know();
    let Some(found) = Key::of(key, books.scenario().version) else {
        return false;
    };
    belongs(found, value) && has_tasks(books, value) && books.find(found, value).is_none()
}

/// Whether the value of a Made entry may be released next.
pub fn may_release(books: &Books, made: u32) -> bool
    ensures { IsTrue result ↔ MayFollow books.now (entries.Released made) }
{
    books.is_unheld(made)
}

/// Whether a task is at its exit.
fn is_leaving(books: &Books, task: u32) -> bool
    ensures { IsTrue result ↔ (current_call books.now.scenario (past_at books.now) task ≡ Some calls.Exit) }
{
    match books.current(task) {
        Some(Call::Exit) => true,
        _ => false,
    }
}

/// Whether a task may give up a name next.
pub fn may_go(books: &Books, task: u32, name: u32) -> bool
    ensures { IsTrue result ↔ MayFollow books.now (entries.Gone task name) }
{
    is_leaving(books, task) && books.lowest_name(task) == Some(name)
}

/// Whether a task may give up a message next.
pub fn may_lose(books: &Books, task: u32) -> bool
    ensures { IsTrue result ↔ MayFollow books.now (entries.Lost task) }
{
    is_leaving(books, task) && !books.has_name(task) && books.has_message(task)
}

/// Whether a phase may end next.
pub fn may_end(books: &Books) -> bool
    ensures { IsTrue result ↔ MayFollow books.now entries.Phase }
{
    (books.phases() as usize) < books.scenario().phases.len()
        && books.all_held()
        && books.phase_is_done()
}

/// What a call does that may come next, or nothing where it may not.
pub fn answered(
    books: &Books,
    alloc: Global,
    task: u32,
    number: u32,
    word: Word,
    reply: &Reply,
) -> Result<Option<Effect>, NoMemory>
    ensures { IfOk result (λ effect. IsAnswered books.now task number word reply.now effect) }
{
    let Some(call) = books.current(task) else {
        return Ok(None);
    };
    if number == 0 || books.calls(task) != number - 1 || word != word_of(call) {
        return Ok(None);
    }
    judge_call(books, alloc, task, call, reply)
}
