ghost use Rattle.std.specs.Prelude.{◌≡◌, ◌≤◌, ◌<◌, ◌==◌, ◌↔◌, Some, true, false, IfOk, IsTrue, length};
ghost use Rattle.vch_base.specs.declared.limits.TheConstants.{ARRAY_BYTES};
ghost use Rattle.vch_model.specs.Lines.{is_task};
ghost use Rattle.vch_model.specs.Store as store;
ghost use Rattle.vch_model.specs.Store.{member};
ghost use Rattle.vch_model.specs.Totals.{named_voucher};
ghost use Rattle.vch_model.specs.declared.call.Call.TheVariants as calls;
ghost use Rattle.vch_books.specs.Audits.{IsGood, store_at, meant, first_of};
ghost use Rattle.vch_judge.specs.Effects.{IsOwn};

use crate::create::created;
use crate::effect::{Effect, where_right};
use crate::replies::{is_created, is_done, is_refused};
use crate::transfer::{received, sent};
use std::alloc::Global;
use vch_base::NoMemory;
use vch_base::codes::{
    MACH_RCV_TIMED_OUT, MACH_SEND_INVALID_DEST, MACH_SEND_INVALID_VOUCHER, MACH_SEND_TIMED_OUT,
    MIG_ARRAY_TOO_LARGE,
};
use vch_base::limits::ARRAY_BYTES;
use vch_books::{Books, Message, Numbers};
use vch_model::Reply;

/// What a right reply to a create of some bytes does, not too many.
fn own_bytes(
    books: &Books,
    alloc: Global,
    task: u32,
    bytes: &[u8],
    reply: &Reply,
) -> Result<Option<Effect>, NoMemory>
    requires task { is_task books.now.scenario task ≡ true }
    requires some { 0 < length bytes.now }
    requires few { length bytes.now ≤ ARRAY_BYTES }
    ensures { IfOk result (λ effect. IsOwn books.now task (calls.Create bytes.now) reply.now effect) }
{
    books.know();
    match created(books, alloc, task, bytes)? {
        Ok(Some(voucher)) => {
            let right = is_created(reply, books.name_for(task, &voucher));
            Ok(where_right(right, Effect::Give { voucher }))
        }
        Ok(None) => Ok(None),
        Err(code) => Ok(where_right(is_refused(reply, code.number), Effect::Stay)),
    }
}

/// What a right reply to a create does.
pub fn own_create(
    books: &Books,
    alloc: Global,
    task: u32,
    bytes: &[u8],
    reply: &Reply,
) -> Result<Option<Effect>, NoMemory>
    requires { is_task books.now.scenario task ≡ true }
    ensures { IfOk result (λ effect. IsOwn books.now task (calls.Create bytes.now) reply.now effect) }
{
    if bytes.len() > ARRAY_BYTES {
        let right = is_refused(reply, MIG_ARRAY_TOO_LARGE);
        return Ok(where_right(right, Effect::Stay));
    }
    if bytes.is_empty() {
        return Ok(where_right(is_created(reply, 0), Effect::Stay));
    }
    own_bytes(books, alloc, task, bytes, reply)
}

/// Whether a number is that of a task.
pub fn is_task_of(books: &Books, task: u32) -> bool
    ensures { result ≡ is_task books.now.scenario task }
{
    task != 0 && task as usize <= books.scenario().flags.len()
}

/// What a right reply to a send without a voucher does.
fn own_bare(
    books: &Books,
    task: u32,
    to: u32,
    moving: bool,
    id: u32,
    reply: &Reply,
) -> Option<Effect>
    requires to { is_task books.now.scenario to ≡ true }
    ensures { IsOwn books.now task (calls.Send to moving 0 id) reply.now result }
{
    if books.is_full(to) {
        return where_right(is_refused(reply, MACH_SEND_TIMED_OUT), Effect::Stay);
    }
    let message = Message {
        sender: task,
        id,
        voucher: None,
    };
    where_right(is_done(reply), Effect::Send { to, message })
}

/// What a right reply does to a send of a voucher to a queue with a place.
fn own_placed(
    books: &Books,
    task: u32,
    to: u32,
    moving: bool,
    name: u32,
    id: u32,
    voucher: Numbers,
    reply: &Reply,
) -> Option<Effect>
    requires to { is_task books.now.scenario to ≡ true }
    requires room { store.is_full books.now.scenario (store_at books.now) to ≡ false }
    requires some { (name == 0) ≡ false }
    requires good { IsGood books.now voucher }
    requires named { named_voucher (store_at books.now) task name ≡ Some (meant books.now voucher) }
    ensures { IsOwn books.now task (calls.Send to moving name id) reply.now result }
{
    books.know();
    let Some(voucher) = sent(books, task, &voucher) else {
        return None;
    };
    let message = Message {
        sender: task,
        id,
        voucher: Some(voucher),
    };
    if moving {
        where_right(is_done(reply), Effect::SendMoved { to, message, name })
    } else {
        where_right(is_done(reply), Effect::Send { to, message })
    }
}

/// What a right reply to a send of a name does.
fn own_named(
    books: &Books,
    task: u32,
    to: u32,
    moving: bool,
    name: u32,
    id: u32,
    reply: &Reply,
) -> Option<Effect>
    requires to { is_task books.now.scenario to ≡ true }
    requires some { (name == 0) ≡ false }
    ensures { IsOwn books.now task (calls.Send to moving name id) reply.now result }
{
    let Some(voucher) = books.named(task, name) else {
        return where_right(is_refused(reply, MACH_SEND_INVALID_VOUCHER), Effect::Stay);
    };
    if books.is_full(to) {
        return where_right(is_refused(reply, MACH_SEND_TIMED_OUT), Effect::Stay);
    }
    own_placed(books, task, to, moving, name, id, voucher, reply)
}

/// What a right reply to a send does.
pub fn own_send(
    books: &Books,
    task: u32,
    to: u32,
    moving: bool,
    name: u32,
    id: u32,
    reply: &Reply,
) -> Option<Effect>
    ensures { IsOwn books.now task (calls.Send to moving name id) reply.now result }
{
    if !is_task_of(books, to) {
        return where_right(is_refused(reply, MACH_SEND_INVALID_DEST), Effect::Stay);
    }
    if name == 0 {
        return own_bare(books, task, to, moving, id, reply);
    }
    own_named(books, task, to, moving, name, id, reply)
}

/// Whether a reply is that of a recv which got this message and this name.
fn is_received(reply: &Reply, sender: u32, id: u32, name: u32) -> bool
    ensures { IsTrue result ↔ (reply.now ≡ Reply.Received sender id name) }
{
    match reply {
        Reply::Received {
            sender: from,
            id: told,
            name: given,
        } => *from == sender && *told == id && *given == name,
        _ => false,
    }
}

/// What a right reply does to a recv of a message with a voucher.
fn own_message(
    books: &Books,
    task: u32,
    message: Message,
    voucher: Numbers,
    reply: &Reply,
) -> Option<Effect>
    requires task { is_task books.now.scenario task ≡ true }
    requires good { IsGood books.now voucher }
    requires first { Some (record { sender = message.sender; id = message.id; voucher = Some (meant books.now voucher) }) ≡ first_of (member (store_at books.now) task).queue }
    ensures { IsOwn books.now task calls.Recv reply.now result }
{
    books.know();
    let Some(voucher) = received(books, task, &voucher) else {
        return None;
    };
    let name = books.name_for(task, &voucher);
    let right = is_received(reply, message.sender, message.id, name);
    where_right(right, Effect::ReceiveVoucher { voucher })
}

/// What a right reply to a recv does.
pub fn own_recv(books: &Books, task: u32, reply: &Reply) -> Option<Effect>
    requires { is_task books.now.scenario task ≡ true }
    ensures { IsOwn books.now task calls.Recv reply.now result }
{
    let Some(message) = books.first_message(task) else {
        return where_right(is_refused(reply, MACH_RCV_TIMED_OUT), Effect::Stay);
    };
    let Some(voucher) = message.voucher else {
        let right = is_received(reply, message.sender, message.id, 0);
        return where_right(right, Effect::Receive);
    };
    own_message(books, task, message, voucher, reply)
}
