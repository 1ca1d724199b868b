ghost use Rattle.std.specs.Prelude.{◌≡◌, ◌⊎◌, ℕ, List, true, false, IfOk, is_some};
ghost use Rattle.vch_model.specs.Eval as eval;
ghost use Rattle.vch_model.specs.Eval.{carried, previous_value, eval, is_plain_command, is_core_command};
ghost use Rattle.vch_model.specs.Legal.{asks};
ghost use Rattle.vch_model.specs.Store.{member, voucher_of};
ghost use Rattle.vch_model.specs.Voucher.{Voucher};
ghost use Rattle.vch_books.specs.Audits.{Audit, IsSound, IsGoodOption, store_at};
ghost use Rattle.vch_books.specs.Numbered.{option_voucher};
ghost use Rattle.vch_judge.specs.Formed.{IsFormed, IsResult, IsSlot};
ghost use Rattle.vch_judge.specs.Recorded.{recipe_of, redeemed_all};

use crate::ask::ask;
use crate::change::{Change, change_at, change_each};
use crate::formed::{Formed, Slot, slot_of};
use std::alloc::Global;
use vch_base::codes::{KERN_INVALID_ARGUMENT, KERN_INVALID_CAPABILITY, KERN_NO_ACCESS};
use vch_base::commands::{
    AUTO_REDEEM, COPY, NOOP, REDEEM, REMOVE, SEND_PREPROCESS, SET_VALUE_HANDLE,
};
use vch_base::{ALL_KEYS, Code, Key, NoMemory};
use vch_books::{Books, Numbers};

/// A record of a create, its content lent from the bytes.
#[derive(Clone, Copy, Debug)]
pub struct Record<'a> {
    pub key: u32,
    pub command: u32,
    pub previous: u32,
    pub content: &'a [u8],
}

/// A record that asks no manager: NOOP, COPY or REMOVE.
fn worked(
    version: u32,
    given: Record<'_>,
    previous: Option<Numbers>,
    formed: Formed,
) -> Result<Formed, Code>
    requires version { (version ≡ 1) ⊎ (version ≡ 2) }
    requires plain { is_plain_command given.command ≡ true }
    ensures { (a : Audit) (map : Voucher) (task : ℕ) → IsSound a → IsGoodOption a previous → IsFormed a formed map
        → IsResult a result (carried version task (recipe_of given.entry) (option_voucher a.history previous) map) }
{
    if !given.content.is_empty() {
        return Err(Code::of(KERN_INVALID_ARGUMENT));
    }
    match given.command {
        COPY if previous.is_some() => change_at(Change::Take, version, given.key, previous, formed),
        REMOVE => change_at(Change::Lose, version, given.key, previous, formed),
        _ => Ok(formed),
    }
}

/// A record of all keys that is given to managers, which is REDEEM alone.
fn redeemed(
    version: u32,
    given: Record<'_>,
    previous: Option<Numbers>,
    formed: Formed,
) -> Result<Formed, Code>
    ensures { (a : Audit) (map : Voucher) → IsSound a → IsGoodOption a previous → IsFormed a formed map
        → IsResult a result (redeemed_all version (recipe_of given.entry) (option_voucher a.history previous) map) }
{
    if given.command == REDEEM && given.content.is_empty() {
        return Ok(change_each(Change::Redeem, version, previous, formed));
    }
    Err(Code::of(KERN_INVALID_ARGUMENT))
}

/// What the command of a record begins with at a key.
fn begun(key: Key, previous: Option<Numbers>, formed: Formed) -> Slot
    ensures { (a : Audit) (map : Voucher) → IsGoodOption a previous → IsFormed a formed map
        → IsSlot a key result (previous_value key (option_voucher a.history previous) map) }
{
    let Some(voucher) = previous else {
        return formed.at(key);
    };
    slot_of(voucher.at(key))
}

/// A record that asks the manager of a key.
fn asked(
    books: &Books,
    alloc: Global,
    task: u32,
    key: Key,
    given: Record<'_>,
    previous: Option<Numbers>,
    formed: Formed,
) -> Result<Result<Formed, Code>, NoMemory>
    requires good { IsGoodOption books.now previous }
    requires own { is_core_command given.command ≡ false }
    ensures { (map : Voucher) → IsFormed books.now formed map
        → IfOk result (λ r. IsResult books.now r (eval.ask key task (recipe_of given.entry) (option_voucher books.now.history previous) map)) }
{
    let begun = begun(key, previous, formed);
    match ask(books, alloc, task, key, given.command, begun, given.content)? {
        Ok(slot) => Ok(Ok(formed.with(key, slot))),
        Err(code) => Ok(Err(code)),
    }
}

/// A record that is given to managers, with its previous voucher.
fn managed(
    books: &Books,
    alloc: Global,
    task: u32,
    given: Record<'_>,
    previous: Option<Numbers>,
    formed: Formed,
) -> Result<Result<Formed, Code>, NoMemory>
    requires good { IsGoodOption books.now previous }
    requires own { is_core_command given.command ≡ false }
    requires other { is_plain_command given.command ≡ false }
    ensures { (map : Voucher) → IsFormed books.now formed map
        → IfOk result (λ r. IsResult books.now r (carried books.now.scenario.version task (recipe_of given.entry) (option_voucher books.now.history previous) map)) }
{
    books.know();
    let version = books.scenario().version;
    if given.key == ALL_KEYS {
        return Ok(redeemed(version, given, previous, formed));
    }
    match Key::of(given.key, version) {
        Some(key) => asked(books, alloc, task, key, given, previous, formed),
        None => Ok(Err(Code::of(KERN_INVALID_ARGUMENT))),
    }
}

/// A record with its previous voucher, or with none.
fn carry(
    books: &Books,
    alloc: Global,
    task: u32,
    given: Record<'_>,
    previous: Option<Numbers>,
    formed: Formed,
) -> Result<Result<Formed, Code>, NoMemory>
    requires good { IsGoodOption books.now previous }
    ensures { (map : Voucher) → IsFormed books.now formed map
        → IfOk result (λ r. IsResult books.now r (carried books.now.scenario.version task (recipe_of given.entry) (option_voucher books.now.history previous) map)) }
{
    match given.command {
        SET_VALUE_HANDLE | AUTO_REDEEM | SEND_PREPROCESS => Ok(Err(Code::of(KERN_NO_ACCESS))),
        NOOP | COPY | REMOVE => {
            books.know();
            let version = books.scenario().version;
            Ok(worked(version, given, previous, formed))
        }
        _ => managed(books, alloc, task, given, previous, formed),
    }
}

/// What a record makes of a voucher that is formed, with the vouchers of the task's names.
pub fn evaluate(
    books: &Books,
    alloc: Global,
    task: u32,
    given: Record<'_>,
    formed: Formed,
) -> Result<Result<Formed, Code>, NoMemory>
    ensures { (map : Voucher) → IsFormed books.now formed map
        → IfOk result (λ r. IsResult books.now r (eval books.now.scenario.version (voucher_of (member (store_at books.now) task).names) task (recipe_of given.entry) map)) }
{
    if given.previous == 0 {
        return carry(books, alloc, task, given, None, formed);
    }
    match books.named(task, given.previous) {
        Some(voucher) => carry(books, alloc, task, given, Some(voucher), formed),
        None => Ok(Err(Code::of(KERN_INVALID_CAPABILITY))),
    }
}

/// Whether a record asks a manager.
pub fn asks_manager(books: &Books, task: u32, given: Record<'_>) -> bool
    ensures { result ≡ asks books.now.scenario.version (voucher_of (member (store_at books.now) task).names) (recipe_of given.entry) }
{
    if given.previous != 0 && books.named(task, given.previous).is_none() {
        return false;
    }
    books.know();
    let all = given.command == REDEEM && given.key == ALL_KEYS && given.content.is_empty();
    let known = Key::of(given.key, books.scenario().version).is_some();
    (given.command > 5 && known) || all
}
