ghost use Rattle.std.specs.Prelude.{◌≡◌, ◌++◌, ◌↔◌, IsTrue, is_some, IfOk, OnOk};
ghost use Rattle.std.specs.List.{flat_map, list_all};
ghost use Rattle.vch_base.specs.Keyed.{of_key};
ghost use Rattle.vch_base.specs.Keys.{every_key};
ghost use Rattle.vch_model.specs.Replies.{record_for, spelled, spelled_at, is_kept, recipe};
ghost use Rattle.vch_model.specs.Voucher.{equal_vouchers, nothing};
ghost use Rattle.vch_books.specs.Audits.{Audit, meant};
ghost use Rattle.vch_books.specs.Numbered.{numbered_option};

use std::alloc::Global;
use vch_base::commands::{BANK_CREATE, IMPORTANCE_SELF, REMOVE, USER_DATA_STORE};
use vch_base::limits::ARRAY_BYTES;
use vch_base::{ALL_KEYS, Bytes, Key, NoMemory, Value};
use vch_books::{Books, Numbers};
use vch_model::Reply;
use vch_recipe::write_recipe;

/// Appends the record of a value, and tells whether it has one. A content of 2^32 bytes or more fits no record, and no memory.
fn write_value(out: &mut Vec<u8>, task: u32, key: Key, value: &Value) -> Result<bool, NoMemory>
    ensures bytes { OnOk result (out.new.items ≡ out.old.items ++ spelled (record_for task key value.now)) }
    ensures there { IfOk result (λ there. there ≡ is_some (record_for task key value.now)) }
{
    match value {
        Value::Chain { list } if list.len() == 1 && list.first() == task => {
            write_recipe(out, key.number(), IMPORTANCE_SELF, 0, &[])?;
            Ok(true)
        }
        Value::Default => {
            write_recipe(out, key.number(), BANK_CREATE, 0, &[])?;
            Ok(true)
        }
        Value::User { bytes } => {
            let content = bytes.as_slice();
            if content.len() > u32::MAX as usize {
                return Err(NoMemory::beyond(content.len() as u64, 0, u32::MAX as u64));
            }
            write_recipe(out, key.number(), USER_DATA_STORE, 0, content)?;
            Ok(true)
        }
        _ => Ok(false),
    }
}

/// Appends the record of what a voucher has at a key, and tells whether no value is left out there.
fn write_at(
    books: &Books,
    out: &mut Vec<u8>,
    task: u32,
    key: Key,
    number: Option<u32>,
) -> Result<bool, NoMemory>
    ensures bytes { OnOk result (out.new.items ≡ out.old.items ++ spelled_at task key (numbered_option books.now.history number)) }
    ensures kept { IfOk result (λ kept. kept ≡ is_kept task key (numbered_option books.now.history number)) }
{
    let Some(number) = number else {
        return Ok(true);
    };
    match books.value(number) {
        Some(value) => write_value(out, task, key, value),
        None => write_value(out, task, key, &Value::Default),
    }
}

/// Appends the records of the values of a voucher, and tells whether no value is left out.
fn write_all(
    books: &Books,
    out: &mut Vec<u8>,
    task: u32,
    voucher: &Numbers,
) -> Result<bool, NoMemory>
    ensures bytes { OnOk result (out.new.items ≡ out.old.items ++ flat_map (λ k. spelled_at task k (of_key k (meant books.now voucher.now))) every_key) }
    ensures kept { IfOk result (λ kept. kept ≡ list_all (λ k. is_kept task k (of_key k (meant books.now voucher.now))) every_key) }
{
    let importance = write_at(books, out, task, Key::Importance, voucher.importance)?;
    let bank = write_at(books, out, task, Key::Bank, voucher.bank)?;
    let user = write_at(books, out, task, Key::User, voucher.user)?;
    let test = write_at(books, out, task, Key::Test, voucher.test)?;
    Ok(importance && bank && user && test)
}

/// Whether a voucher has no value.
fn is_nothing(voucher: &Numbers) -> bool
    ensures { (a : Audit) → result ≡ equal_vouchers (meant a voucher.now) nothing }
{
    voucher.importance.is_none()
        && voucher.bank.is_none()
        && voucher.user.is_none()
        && voucher.test.is_none()
}

/// Whether some bytes are the recipe of a voucher, and the flag tells whether it is whole.
pub fn is_recipe(
    books: &Books,
    alloc: Global,
    task: u32,
    voucher: &Numbers,
    whole: bool,
    bytes: &Bytes,
) -> Result<bool, NoMemory>
    ensures { IfOk result (λ right. IsTrue right ↔ (Reply.Recipe whole bytes.now ≡ recipe task (meant books.now voucher.now))) }
{
    let mut out = Vec::new(alloc);
    let mut kept = true;
    if is_nothing(voucher) {
        write_recipe(&mut out, ALL_KEYS, REMOVE, 0, &[])?;
    } else {
        kept = write_all(books, &mut out, task, voucher)?;
    }
    let fits = kept && out.len() <= ARRAY_BYTES;
    Ok(fits == whole && out.as_slice() == bytes.as_slice())
}
