ghost use Rattle.std.specs.Prelude.{◌≡◌, ◌↔◌, ◌⊎◌, IsTrue};
ghost use Rattle.vch_base.specs.Keys.{managed};
ghost use Rattle.vch_model.specs.Eval as eval;
ghost use Rattle.vch_model.specs.Eval.{each_key, changes, takes, loses};
ghost use Rattle.vch_model.specs.Voucher.{Voucher};
ghost use Rattle.vch_books.specs.Audits.{Audit, IsSound, IsGoodOption};
ghost use Rattle.vch_books.specs.Numbered.{option_voucher};
ghost use Rattle.vch_judge.specs.Changes.{change_by};
ghost use Rattle.vch_judge.specs.Formed.{IsFormed, IsResult, slot_of_number};

use crate::formed::{Formed, Slot, slot_of};
use vch_base::codes::KERN_INVALID_ARGUMENT;
use vch_base::{ALL_KEYS, Code, Key};
use vch_books::Numbers;

/// What a command that asks no manager does at a key.
#[derive(Clone, Copy, Debug)]
pub enum Change {
    /// The map takes the previous voucher's value, or none.
    Take,
    /// The map loses a value that the previous voucher has too; without a previous voucher any.
    Lose,
    /// The map takes the previous voucher's value, or none; without a previous voucher it keeps its own.
    Redeem,
}

/// Whether a slot has the value of a number, or both have none.
fn is_of(slot: Slot, number: Option<u32>) -> bool
    ensures { IsTrue result ↔ (slot ≡ slot_of_number number) }
{
    match (slot, number) {
        (Slot::Empty, None) => true,
        (Slot::Live { number: n }, Some(number)) => n == number,
        _ => false,
    }
}

/// The map takes the previous voucher's value, or none.
fn taken(key: Key, previous: Option<Numbers>, formed: Formed) -> Formed
    ensures { (a : Audit) (map : Voucher) → IsGoodOption a previous → IsFormed a formed map
        → IsFormed a result (takes key (option_voucher a.history previous) map) }
{
    let Some(voucher) = previous else {
        return formed;
    };
    formed.with(key, slot_of(voucher.at(key)))
}

/// The map loses a value.
fn lost(key: Key, previous: Option<Numbers>, formed: Formed) -> Formed
    ensures { (a : Audit) (map : Voucher) → IsSound a → IsGoodOption a previous → IsFormed a formed map
        → IsFormed a result (loses key (option_voucher a.history previous) map) }
{
    let Some(voucher) = previous else {
        return formed.with(key, Slot::Empty);
    };
    if is_of(formed.at(key), voucher.at(key)) {
        formed.with(key, Slot::Empty)
    } else {
        formed
    }
}

/// The map takes the previous voucher's value, or keeps its own.
fn redeemed(key: Key, previous: Option<Numbers>, formed: Formed) -> Formed
    ensures { (a : Audit) (map : Voucher) → IsGoodOption a previous → IsFormed a formed map
        → IsFormed a result (eval.redeemed key (option_voucher a.history previous) map) }
{
    let Some(voucher) = previous else {
        return formed;
    };
    formed.with(key, slot_of(voucher.at(key)))
}

/// A change at one key.
fn changed(kind: Change, key: Key, previous: Option<Numbers>, formed: Formed) -> Formed
    ensures { (a : Audit) (map : Voucher) → IsSound a → IsGoodOption a previous → IsFormed a formed map
        → IsFormed a result (change_by kind (option_voucher a.history previous) key map) }
{
    match kind {
        Change::Take => taken(key, previous, formed),
        Change::Lose => lost(key, previous, formed),
        Change::Redeem => redeemed(key, previous, formed),
    }
}

/// A change at each managed key of a version.
pub fn change_each(kind: Change, version: u32, previous: Option<Numbers>, formed: Formed) -> Formed
    ensures { (a : Audit) (map : Voucher) → IsSound a → IsGoodOption a previous → IsFormed a formed map
        → IsFormed a result (each_key (change_by kind (option_voucher a.history previous)) (managed version) map) }
{
    let formed = changed(kind, Key::Importance, previous, formed);
    let formed = changed(kind, Key::Bank, previous, formed);
    let formed = changed(kind, Key::User, previous, formed);
    if version == 2 {
        return changed(kind, Key::Test, previous, formed);
    }
    formed
}

/// A change at a managed key of a version, or at each.
pub fn change_at(
    kind: Change,
    version: u32,
    key: u32,
    previous: Option<Numbers>,
    formed: Formed,
) -> Result<Formed, Code>
    requires { (version ≡ 1) ⊎ (version ≡ 2) }
    ensures { (a : Audit) (map : Voucher) → IsSound a → IsGoodOption a previous → IsFormed a formed map
        → IsResult a result (changes version (change_by kind (option_voucher a.history previous)) key map) }
{
    if key == ALL_KEYS {
        return Ok(change_each(kind, version, previous, formed));
    }
    match Key::of(key, version) {
        Some(key) => Ok(changed(kind, key, previous, formed)),
        None => Err(Code::of(KERN_INVALID_ARGUMENT)),
    }
}
