ghost use Rattle.std.specs.Prelude.{◌≡◌, ◌<◌, IfOk, Some, length, slice_get};
ghost use Rattle.vch_model.specs.Scenarios.{IsLimited};
ghost use Rattle.vch_model.specs.declared.entry.Entry.TheVariants as entries;
ghost use Rattle.vch_judge.specs.Follows.{IsFollowed};
ghost use Rattle.vch_judge.specs.Judged.{IsStep, IsHistory};

use crate::carry::carry_out;
use crate::follow::{answered, may_end, may_go, may_lose, may_make, may_release};
use std::alloc::Global;
use vch_base::{NoMemory, Value};
use vch_books::Books;
use vch_model::{Entry, History, Reply, Scenario, Word};

/// The books with a call, or nothing where it may not come next.
fn follow_call<'a>(
    books: Books<'a>,
    alloc: Global,
    task: u32,
    number: u32,
    word: Word,
    reply: &Reply,
) -> Result<Option<Books<'a>>, NoMemory>
    requires here { slice_get books.history books.taken ≡ Some (entries.Call task number word reply.now) }
    ensures { IfOk result (λ made. IsFollowed books.entry (entries.Call task number word reply.now) made) }
{
    match answered(&books, alloc, task, number, word, reply)? {
        Some(effect) => Ok(Some(carry_out(books, task, effect)?)),
        None => Ok(None),
    }
}

/// The books with a value that is made, or nothing where it may not be.
fn follow_made<'a>(books: Books<'a>, key: u32, value: &Value) -> Result<Option<Books<'a>>, NoMemory>
    requires here { slice_get books.history books.taken ≡ Some (entries.Made key value.now) }
    ensures { IfOk result (λ made. IsFollowed books.entry (entries.Made key value.now) made) }
{
    if may_make(&books, key, value) {
        Ok(Some(books.made(key, value)?))
    } else {
        Ok(None)
    }
}

/// The books with a value released, or nothing where it may not be.
fn follow_released<'a>(books: Books<'a>, made: u32) -> Result<Option<Books<'a>>, NoMemory>
    requires here { slice_get books.history books.taken ≡ Some (entries.Released made) }
    ensures { IfOk result (λ then. IsFollowed books.entry (entries.Released made) then) }
{
    if may_release(&books, made) {
        Ok(Some(books.released(made)?))
    } else {
        Ok(None)
    }
}

/// The books with a name given up, or nothing where it may not be.
fn follow_gone<'a>(books: Books<'a>, task: u32, name: u32) -> Option<Books<'a>>
    requires here { slice_get books.history books.taken ≡ Some (entries.Gone task name) }
    ensures { IsFollowed books.entry (entries.Gone task name) result }
{
    if may_go(&books, task, name) {
        Some(books.gone(task, name))
    } else {
        None
    }
}

/// The books with a message given up, or nothing where it may not be.
fn follow_lost<'a>(books: Books<'a>, task: u32) -> Option<Books<'a>>
    requires here { slice_get books.history books.taken ≡ Some (entries.Lost task) }
    ensures { IsFollowed books.entry (entries.Lost task) result }
{
    if may_lose(&books, task) {
        Some(books.lost(task))
    } else {
        None
    }
}

/// The books with the end of a phase, or nothing where it may not end.
fn follow_phase<'a>(books: Books<'a>) -> Option<Books<'a>>
    requires here { slice_get books.history books.taken ≡ Some entries.Phase }
    ensures { IsFollowed books.entry entries.Phase result }
{
    if may_end(&books) {
        Some(books.phase())
    } else {
        None
    }
}

/// The books with the next entry, or nothing where it may not come next.
fn follow<'a>(books: Books<'a>, alloc: Global, entry: &Entry) -> Result<Option<Books<'a>>, NoMemory>
    requires here { slice_get books.history books.taken ≡ Some entry.now }
    ensures { IfOk result (λ made. IsFollowed books.entry entry.now made) }
{
    match entry {
        Entry::Call {
            task,
            number,
            word,
            reply,
        } => follow_call(books, alloc, *task, *number, *word, reply),
        Entry::Made { key, value } => follow_made(books, *key, value),
        Entry::Released { made } => follow_released(books, *made),
        Entry::Gone { task, name } => Ok(follow_gone(books, *task, *name)),
        Entry::Lost { task } => Ok(follow_lost(books, *task)),
        Entry::Phase => Ok(follow_phase(books)),
    }
}

/// What a check of a history came to.
#[derive(Drop)]
pub enum Judged<'a> {
    /// The history is legal: the books of all of it.
    Legal { books: Books<'a> },
    /// It is not: with this entry, counted from 1, it no longer is.
    Not { number: u32 },
}

/// How a check goes on.
#[derive(Drop)]
enum Step<'a> {
    On { books: Books<'a> },
    Over { judged: Judged<'a> },
}

/// The next entry of a history, or its end.
fn take_next<'a>(books: Books<'a>, alloc: Global) -> Result<Step<'a>, NoMemory>
    ensures { IfOk result (λ next. IsStep books.entry next) }
{
    books.know();
    let number = books.taken() as u32;
    let Some(entry) = books.next() else {
        return Ok(Step::Over {
            judged: Judged::Legal { books },
        });
    };
    match follow(books, alloc, entry)? {
        Some(books) => Ok(Step::On { books }),
        None => Ok(Step::Over {
            judged: Judged::Not { number: number + 1 },
        }),
    }
}

/// Whether a history of a scenario is legal: the books of all of it, or the number of the first entry with which it is not.
/// The one error is out of memory.
pub fn judge_history<'a>(
    alloc: Global,
    scenario: &'a Scenario,
    history: &'a History,
) -> Result<Judged<'a>, NoMemory>
    requires limited { IsLimited scenario.now }
    requires short { length history.now.entries < 4294967296 }
    ensures { IfOk result (λ judged. IsHistory scenario.now history.now.entries judged) }
{
    let mut books = Books::open(alloc, scenario, history)?;
    loop {
        match take_next(books, alloc)? {
            Step::On { books: more } => books = more,
            Step::Over { judged } => return Ok(judged),
        }
    }
}
