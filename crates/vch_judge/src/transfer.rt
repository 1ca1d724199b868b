ghost use Rattle.std.specs.Prelude.{◌≡◌, Some, true};
ghost use Rattle.vch_base.specs.Managers as managers;
ghost use Rattle.vch_base.specs.declared.value.Value.TheVariants as values;
ghost use Rattle.vch_model.specs.Lines.{is_task};
ghost use Rattle.vch_model.specs.Transfer.{before, after, flags_of};
ghost use Rattle.vch_books.specs.Audits.{IsGood, store_at, meant};
ghost use Rattle.vch_books.specs.Numbered.{StandsAt, numbered_value, numbered_option};
ghost use Rattle.vch_judge.specs.Formed.{IsSlot, IsFormed, IsVoucher};

use crate::formed::{Formed, Slot, found, voucher_of};
use vch_base::limits::CHAIN_TASKS;
use vch_base::{Chain, Key, Value};
use vch_books::{Books, Numbers};

/// The slot of a bank value of a task.
fn owed(books: &Books, task: u32) -> Slot
    ensures { IsSlot books.now Key.Bank result (Some (values.Task task)) }
{
    found(books, Key::Bank, &Value::Task { task })
}

/// What SEND_PREPROCESS makes of a bank value.
fn preprocessed(books: &Books, sender: u32, number: u32) -> Slot
    requires { StandsAt books.now.history (store_at books.now).live Key.Bank (Some number) }
    ensures { IsSlot books.now Key.Bank result (Some (managers.preprocessed sender (numbered_value books.now.history number))) }
{
    match books.value(number) {
        None => owed(books, sender),
        Some(Value::Default) => owed(books, sender),
        Some(Value::Account { holder, .. }) => owed(books, *holder),
        Some(_) => Slot::Live { number },
    }
}

/// What SEND_PREPROCESS makes of what a voucher has of the bank.
fn sent_bank(books: &Books, sender: u32, number: Option<u32>) -> Slot
    requires { StandsAt books.now.history (store_at books.now).live Key.Bank number }
    ensures { IsSlot books.now Key.Bank result (managers.mapped (managers.preprocessed sender) (numbered_option books.now.history number)) }
{
    let Some(number) = number else {
        return Slot::Empty;
    };
    preprocessed(books, sender, number)
}

/// The voucher of a message that a task sends.
fn sent_formed(books: &Books, sender: u32, voucher: &Numbers) -> Formed
    requires { IsGood books.now voucher.now }
    ensures { IsFormed books.now result (before sender (meant books.now voucher.now)) }
{
    let bank = sent_bank(books, sender, voucher.bank);
    Formed::of(voucher).with(Key::Bank, bank)
}

/// The voucher of a message that a task sends, or nothing where one of its values is not live.
pub fn sent(books: &Books, sender: u32, voucher: &Numbers) -> Option<Numbers>
    requires { IsGood books.now voucher.now }
    ensures { IsVoucher books.now (before sender (meant books.now voucher.now)) result }
{
    voucher_of(books, sent_formed(books, sender, voucher))
}

/// Whether a task is a receiver of importance.
fn is_receiver(books: &Books, task: u32) -> bool
    requires { is_task books.now.scenario task ≡ true }
    ensures { result ≡ (flags_of books.now.scenario task).receiver }
{
    books.scenario().flags.at(task as usize - 1).receiver
}

/// What AUTO_REDEEM makes of a list.
fn lengthened(books: &Books, key: Key, receiver: bool, task: u32, list: &Chain, number: u32) -> Slot
    requires stands { StandsAt books.now.history (store_at books.now).live key (Some number) }
    requires list { numbered_value books.now.history number ≡ values.Chain list.now }
    ensures { IsSlot books.now key result (Some (managers.received receiver task (values.Chain list.now))) }
{
    if receiver && list.len() < CHAIN_TASKS && list.last() != task {
        let list = list.with(task);
        return found(books, key, &Value::Chain { list });
    }
    Slot::Live { number }
}

/// What AUTO_REDEEM makes of a value.
fn received_value(books: &Books, key: Key, receiver: bool, task: u32, number: u32) -> Slot
    requires { StandsAt books.now.history (store_at books.now).live key (Some number) }
    ensures { IsSlot books.now key result (Some (managers.received receiver task (numbered_value books.now.history number))) }
{
    match books.value(number) {
        Some(Value::Task { task: holder }) if *holder != task => {
            let value = Value::Account {
                holder: *holder,
                merchant: task,
            };
            found(books, key, &value)
        }
        Some(Value::Chain { list }) => lengthened(books, key, receiver, task, list, number),
        _ => Slot::Live { number },
    }
}

/// What AUTO_REDEEM makes of what a voucher has at a key.
fn received_at(books: &Books, key: Key, receiver: bool, task: u32, number: Option<u32>) -> Slot
    requires { StandsAt books.now.history (store_at books.now).live key number }
    ensures { IsSlot books.now key result (managers.mapped (managers.received receiver task) (numbered_option books.now.history number)) }
{
    let Some(number) = number else {
        return Slot::Empty;
    };
    received_value(books, key, receiver, task, number)
}

/// The voucher that a task receives with a message.
fn received_formed(books: &Books, task: u32, voucher: &Numbers) -> Formed
    requires task { is_task books.now.scenario task ≡ true }
    requires good { IsGood books.now voucher.now }
    ensures { IsFormed books.now result (after books.now.scenario task (meant books.now voucher.now)) }
{
    let receiver = is_receiver(books, task);
    let importance = received_at(books, Key::Importance, receiver, task, voucher.importance);
    let bank = received_at(books, Key::Bank, receiver, task, voucher.bank);
    Formed::of(voucher)
        .with(Key::Importance, importance)
        .with(Key::Bank, bank)
}

/// The voucher that a task receives with a message, or nothing where one of its values is not live.
pub fn received(books: &Books, task: u32, voucher: &Numbers) -> Option<Numbers>
    requires task { is_task books.now.scenario task ≡ true }
    requires good { IsGood books.now voucher.now }
    ensures { IsVoucher books.now (after books.now.scenario task (meant books.now voucher.now)) result }
{
    voucher_of(books, received_formed(books, task, voucher))
}
