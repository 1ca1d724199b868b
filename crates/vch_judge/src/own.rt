ghost use Rattle.std.specs.Prelude.{◌≡◌, true, IfOk};
ghost use Rattle.vch_model.specs.Lines.{is_task};
ghost use Rattle.vch_model.specs.declared.call.Call.TheVariants as calls;
ghost use Rattle.vch_model.specs.Totals.{named_voucher};
ghost use Rattle.vch_model.specs.Voucher.{value_in};
ghost use Rattle.vch_books.specs.Audits.{store_at};
ghost use Rattle.vch_books.specs.Numbered.{StandsAt, numbered_option};
ghost use Rattle.vch_judge.specs.Effects.{IsOwn};

use crate::effect::{Effect, where_right};
use crate::given::{own_create, own_recv, own_send};
use crate::replies::{
    charges, counts, extracts, gives_up, is_done, tells_assertions, tells_ledger, tells_live,
    tells_recipe,
};
use std::alloc::Global;
use vch_base::{Key, NoMemory};
use vch_books::Books;
use vch_model::{Call, Reply};

/// What a right reply to a drop does.
fn own_give_up(books: &Books, task: u32, name: u32, reply: &Reply) -> Option<Effect>
    ensures { IsOwn books.now task (calls.GiveUp name) reply.now result }
{
    where_right(gives_up(books, task, name, reply), Effect::LetGo { name })
}

/// What a right reply to an extract does.
fn own_extract(
    books: &Books,
    alloc: Global,
    task: u32,
    name: u32,
    key: u32,
    reply: &Reply,
) -> Result<Option<Effect>, NoMemory>
    ensures { IfOk result (λ effect. IsOwn books.now task (calls.Extract name key) reply.now effect) }
{
    let right = extracts(books, alloc, task, name, key, reply)?;
    Ok(where_right(right, Effect::Stay))
}

/// What a right reply to a recipes does.
fn own_recipes(
    books: &Books,
    alloc: Global,
    task: u32,
    name: u32,
    reply: &Reply,
) -> Result<Option<Effect>, NoMemory>
    ensures { IfOk result (λ effect. IsOwn books.now task (calls.Recipes name) reply.now effect) }
{
    let right = tells_recipe(books, alloc, task, name, reply)?;
    Ok(where_right(right, Effect::Stay))
}

/// The number of what the voucher of a name has at a key, or none.
fn number_at(books: &Books, task: u32, name: u32, key: Key) -> Option<u32>
    ensures value { value_in key (named_voucher (store_at books.now) task name) ≡ numbered_option books.now.history result }
    ensures stands { StandsAt books.now.history (store_at books.now).live key result }
{
    let Some(voucher) = books.named(task, name) else {
        return None;
    };
    voucher.at(key)
}

/// What a right reply to an extern does.
fn own_extern(
    books: &Books,
    task: u32,
    name: u32,
    adding: bool,
    n: u32,
    reply: &Reply,
) -> Option<Effect>
    ensures { IsOwn books.now task (calls.Extern name adding n) reply.now result }
{
    let right = counts(books, task, name, adding, n, reply);
    if !is_done(reply) {
        return where_right(right, Effect::Stay);
    }
    let Some(number) = number_at(books, task, name, Key::Importance) else {
        return None;
    };
    let effect = Effect::Count {
        name,
        number,
        adding,
        n,
    };
    where_right(right, effect)
}

/// What a right reply to a charge does.
fn own_charge(books: &Books, task: u32, name: u32, n: u32, reply: &Reply) -> Option<Effect>
    ensures { IsOwn books.now task (calls.Charge name n) reply.now result }
{
    let right = charges(books, task, name, n, reply);
    if !is_done(reply) {
        return where_right(right, Effect::Stay);
    }
    let Some(number) = number_at(books, task, name, Key::Bank) else {
        return None;
    };
    where_right(right, Effect::Charge { name, number, n })
}

/// What a right reply to a ledger does.
fn own_ledger(books: &Books, task: u32, reply: &Reply) -> Option<Effect>
    requires { is_task books.now.scenario task ≡ true }
    ensures { IsOwn books.now task calls.Ledger reply.now result }
{
    where_right(tells_ledger(books, task, reply), Effect::Stay)
}

/// What a right reply to an assertions does.
fn own_assertions(books: &Books, task: u32, reply: &Reply) -> Option<Effect>
    requires { is_task books.now.scenario task ≡ true }
    ensures { IsOwn books.now task calls.Assertions reply.now result }
{
    where_right(tells_assertions(books, task, reply), Effect::Stay)
}

/// What a right reply to a live does.
fn own_live(books: &Books, task: u32, reply: &Reply) -> Option<Effect>
    ensures { IsOwn books.now task calls.Live reply.now result }
{
    where_right(tells_live(books, task, reply), Effect::Stay)
}

/// What a reply does that is the store's own; nothing where it isn't. An exit has none.
pub fn own(
    books: &Books,
    alloc: Global,
    task: u32,
    call: &Call,
    reply: &Reply,
) -> Result<Option<Effect>, NoMemory>
    requires { is_task books.now.scenario task ≡ true }
    ensures { IfOk result (λ effect. IsOwn books.now task call.now reply.now effect) }
{
    match call {
        Call::Create { bytes } => own_create(books, alloc, task, bytes.as_slice(), reply),
        Call::GiveUp { name } => Ok(own_give_up(books, task, *name, reply)),
        Call::Extract { name, key } => own_extract(books, alloc, task, *name, *key, reply),
        Call::Recipes { name } => own_recipes(books, alloc, task, *name, reply),
        Call::Send {
            to,
            moving,
            name,
            id,
        } => Ok(own_send(books, task, *to, *moving, *name, *id, reply)),
        Call::Recv => Ok(own_recv(books, task, reply)),
        Call::Extern { name, adding, n } => Ok(own_extern(books, task, *name, *adding, *n, reply)),
        Call::Charge { name, n } => Ok(own_charge(books, task, *name, *n, reply)),
        Call::Ledger => Ok(own_ledger(books, task, reply)),
        Call::Assertions => Ok(own_assertions(books, task, reply)),
        Call::Live => Ok(own_live(books, task, reply)),
        Call::Exit => Ok(None),
    }
}
