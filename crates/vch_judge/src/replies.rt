ghost use Rattle.std.specs.Prelude.{◌≡◌, ◌↔◌, IsTrue, IfOk, true};
ghost use Rattle.vch_base.specs.Contents.{content_of};
ghost use Rattle.vch_model.specs.Lines.{is_task};
ghost use Rattle.vch_model.specs.Replies.{refused, reply_to};
ghost use Rattle.vch_books.specs.Audits.{store_at, past_at};
ghost use Rattle.vch_books.specs.Numbered.{numbered_option};
ghost use Rattle.vch_model.specs.declared.call.Call.TheVariants as calls;

use crate::counts::{counting, may_charge};
use crate::recipe::is_recipe;
use std::alloc::Global;
use vch_base::codes::{KERN_INVALID_ARGUMENT, KERN_INVALID_CAPABILITY, KERN_INVALID_NAME};
use vch_base::{Key, NoMemory};
use vch_books::Books;
use vch_model::Reply;

/// Whether a reply is a refusal with this code.
pub fn is_refused(reply: &Reply, code: i32) -> bool
    ensures { IsTrue result ↔ (reply.now ≡ refused code) }
{
    match reply {
        Reply::Refused { code: told } => told.number == code,
        _ => false,
    }
}

/// Whether a reply is that of success alone.
pub fn is_done(reply: &Reply) -> bool
    ensures { IsTrue result ↔ (reply.now ≡ Reply.Done) }
{
    matches!(reply, Reply::Done)
}

/// Whether a reply is that of a create which got this name.
pub fn is_created(reply: &Reply, name: u32) -> bool
    ensures { IsTrue result ↔ (reply.now ≡ Reply.Created name) }
{
    match reply {
        Reply::Created { name: told } => *told == name,
        _ => false,
    }
}

/// Whether a reply has the content of a value, or of none.
fn is_content(
    books: &Books,
    alloc: Global,
    number: Option<u32>,
    reply: &Reply,
) -> Result<bool, NoMemory>
    ensures { IfOk result (λ right. IsTrue right ↔ (reply.now ≡ Reply.Content (content_of (numbered_option books.now.history number)))) }
{
    let Reply::Content { bytes } = reply else {
        return Ok(false);
    };
    let Some(number) = number else {
        return Ok(bytes.as_slice().is_empty());
    };
    let Some(value) = books.value(number) else {
        return Ok(bytes.as_slice().is_empty());
    };
    let mut out = Vec::new(alloc);
    value.append(&mut out)?;
    Ok(out.as_slice() == bytes.as_slice())
}

/// Whether the reply to a drop is right.
pub fn gives_up(books: &Books, task: u32, name: u32, reply: &Reply) -> bool
    ensures { IsTrue result ↔ (reply.now ≡ reply_to books.now.scenario (past_at books.now) (store_at books.now) task (calls.GiveUp name)) }
{
    match books.named(task, name) {
        Some(_) => is_done(reply),
        None => is_refused(reply, KERN_INVALID_NAME),
    }
}

/// Whether the reply to an extract is right.
pub fn extracts(
    books: &Books,
    alloc: Global,
    task: u32,
    name: u32,
    key: u32,
    reply: &Reply,
) -> Result<bool, NoMemory>
    ensures { IfOk result (λ right. IsTrue right ↔ (reply.now ≡ reply_to books.now.scenario (past_at books.now) (store_at books.now) task (calls.Extract name key))) }
{
    let Some(voucher) = books.named(task, name) else {
        return Ok(is_refused(reply, KERN_INVALID_CAPABILITY));
    };
    books.know();
    let Some(key) = Key::of(key, books.scenario().version) else {
        return Ok(is_refused(reply, KERN_INVALID_ARGUMENT));
    };
    is_content(books, alloc, voucher.at(key), reply)
}

/// Whether the reply to a recipes is right.
pub fn tells_recipe(
    books: &Books,
    alloc: Global,
    task: u32,
    name: u32,
    reply: &Reply,
) -> Result<bool, NoMemory>
    ensures { IfOk result (λ right. IsTrue right ↔ (reply.now ≡ reply_to books.now.scenario (past_at books.now) (store_at books.now) task (calls.Recipes name))) }
{
    let Some(voucher) = books.named(task, name) else {
        return Ok(is_refused(reply, KERN_INVALID_CAPABILITY));
    };
    match reply {
        Reply::Recipe { whole, bytes } => is_recipe(books, alloc, task, &voucher, *whole, bytes),
        _ => Ok(false),
    }
}

/// Whether the reply to an extern is right.
pub fn counts(books: &Books, task: u32, name: u32, adding: bool, n: u32, reply: &Reply) -> bool
    ensures { IsTrue result ↔ (reply.now ≡ reply_to books.now.scenario (past_at books.now) (store_at books.now) task (calls.Extern name adding n)) }
{
    let Some(voucher) = books.named(task, name) else {
        return is_refused(reply, KERN_INVALID_CAPABILITY);
    };
    match counting(books, task, voucher.importance, adding, n) {
        Ok(()) => is_done(reply),
        Err(code) => is_refused(reply, code.number),
    }
}

/// Whether the reply to a charge is right.
pub fn charges(books: &Books, task: u32, name: u32, n: u32, reply: &Reply) -> bool
    ensures { IsTrue result ↔ (reply.now ≡ reply_to books.now.scenario (past_at books.now) (store_at books.now) task (calls.Charge name n)) }
{
    let Some(voucher) = books.named(task, name) else {
        return is_refused(reply, KERN_INVALID_CAPABILITY);
    };
    if may_charge(books, task, voucher.bank) {
        is_done(reply)
    } else {
        is_refused(reply, KERN_INVALID_ARGUMENT)
    }
}

/// Whether the reply to a ledger is right.
pub fn tells_ledger(books: &Books, task: u32, reply: &Reply) -> bool
    requires { is_task books.now.scenario task ≡ true }
    ensures { IsTrue result ↔ (reply.now ≡ reply_to books.now.scenario (past_at books.now) (store_at books.now) task calls.Ledger) }
{
    match reply {
        Reply::Ledger { amount } => *amount == u128::from(books.ledger(task)),
        _ => false,
    }
}

/// Whether the reply to an assertions is right.
pub fn tells_assertions(books: &Books, task: u32, reply: &Reply) -> bool
    requires { is_task books.now.scenario task ≡ true }
    ensures { IsTrue result ↔ (reply.now ≡ reply_to books.now.scenario (past_at books.now) (store_at books.now) task calls.Assertions) }
{
    match reply {
        Reply::Assertions { held, out } => {
            *held == u128::from(books.held(task)) && *out == u128::from(books.out(task))
        }
        _ => false,
    }
}

/// Whether the reply to a live is right.
pub fn tells_live(books: &Books, task: u32, reply: &Reply) -> bool
    ensures { IsTrue result ↔ (reply.now ≡ reply_to books.now.scenario (past_at books.now) (store_at books.now) task calls.Live) }
{
    match reply {
        Reply::Live { vouchers, values } => {
            *vouchers == books.vouchers() && *values == books.values()
        }
        _ => false,
    }
}
