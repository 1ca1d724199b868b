ghost use Rattle.std.specs.Prelude.{◌≡◌, IfOk};
ghost use Rattle.vch_model.specs.Legal as legal;
ghost use Rattle.vch_model.specs.declared.call.Call.TheVariants as calls;
ghost use Rattle.vch_books.specs.Audits.{store_at, past_at};

use crate::create::evaluate_all;
use crate::given::is_task_of;
use std::alloc::Global;
use vch_base::limits::ARRAY_BYTES;
use vch_base::{Key, NoMemory};
use vch_books::Books;
use vch_model::Call;

/// Whether a create may be out of memory: where it reaches its end, or a record that asks a manager.
fn may_want_create(books: &Books, alloc: Global, task: u32, bytes: &[u8]) -> Result<bool, NoMemory>
    ensures { IfOk result (λ may. may ≡ legal.may_want books.now.scenario (past_at books.now) (store_at books.now) task (calls.Create bytes.now)) }
{
    if bytes.is_empty() || bytes.len() > ARRAY_BYTES {
        return Ok(false);
    }
    let evaluation = evaluate_all(books, alloc, task, bytes)?;
    Ok(evaluation.asked || evaluation.outcome.is_ok())
}

/// Whether an extract may be out of memory.
fn may_want_extract(books: &Books, task: u32, name: u32, key: u32) -> bool
    ensures { result ≡ legal.may_want books.now.scenario (past_at books.now) (store_at books.now) task (calls.Extract name key) }
{
    books.know();
    books.named(task, name).is_some() && Key::of(key, books.scenario().version).is_some()
}

/// Whether a recipes may be out of memory.
fn may_want_recipes(books: &Books, task: u32, name: u32) -> bool
    ensures { result ≡ legal.may_want books.now.scenario (past_at books.now) (store_at books.now) task (calls.Recipes name) }
{
    books.named(task, name).is_some()
}

/// Whether a send may be out of memory: where the voucher has a value of the bank, or the queue has a place.
fn may_want_send(books: &Books, task: u32, to: u32, moving: bool, name: u32, id: u32) -> bool
    ensures { result ≡ legal.may_want books.now.scenario (past_at books.now) (store_at books.now) task (calls.Send to moving name id) }
{
    if !is_task_of(books, to) || name == 0 {
        return false;
    }
    let Some(voucher) = books.named(task, name) else {
        return false;
    };
    voucher.bank.is_some() || !books.is_full(to)
}

/// Whether a recv may be out of memory: where the first message has a voucher.
fn may_want_recv(books: &Books, task: u32) -> bool
    ensures { result ≡ legal.may_want books.now.scenario (past_at books.now) (store_at books.now) task calls.Recv }
{
    match books.first_message(task) {
        Some(message) => message.voucher.is_some(),
        None => false,
    }
}

/// Whether a call may be out of memory.
pub fn may_want(books: &Books, alloc: Global, task: u32, call: &Call) -> Result<bool, NoMemory>
    ensures { IfOk result (λ may. may ≡ legal.may_want books.now.scenario (past_at books.now) (store_at books.now) task call.now) }
{
    match call {
        Call::Create { bytes } => may_want_create(books, alloc, task, bytes.as_slice()),
        Call::Extract { name, key } => Ok(may_want_extract(books, task, *name, *key)),
        Call::Recipes { name } => Ok(may_want_recipes(books, task, *name)),
        Call::Send {
            to,
            moving,
            name,
            id,
        } => Ok(may_want_send(books, task, *to, *moving, *name, *id)),
        Call::Recv => Ok(may_want_recv(books, task)),
        _ => Ok(false),
    }
}
