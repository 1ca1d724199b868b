ghost use Rattle.std.specs.Prelude.{◌≡◌, ◌<◌, ◌≤◌, ◌++◌, ◌∷◌, [], ℕ, List, Bool, true, length, Some, None, IfOk, OnOk};
ghost use Rattle.std.specs.Option.{option_copied};
ghost use Rattle.vch_base.specs.declared.value.Value.TheVariants as values;
ghost use Rattle.vch_machine.specs.State as state;
ghost use Rattle.std.specs.List.{list_all, flat_map};
ghost use Rattle.vch_base.specs.Keyed.{of_key};
ghost use Rattle.vch_base.specs.Keys.{every_key, number_of};
ghost use Rattle.vch_base.specs.declared.commands.TheConstants as command_constants;
ghost use Rattle.vch_model.specs.Replies as replies;
ghost use Rattle.vch_model.specs.Voucher.{equal_options, equal_vouchers, nothing};
ghost use Rattle.vch_plain.specs.Replied.{is_own};

use crate::handles::Handles;
use crate::reply::named::refused;
use crate::values::{Living, value_at};
use std::alloc::Global;
use vch_base::codes::KERN_INVALID_CAPABILITY;
use vch_base::limits::ARRAY_BYTES;
use vch_base::{ALL_KEYS, Bytes, Chain, Key, NoMemory, Value, commands};
use vch_model::Reply;
use vch_recipe::write_recipe;

/// Whether a list has the task alone.
fn is_own(list: &Chain, task: u32) -> bool
    ensures { result ≡ is_own task list.now }
{
    list.len() == 1 && list.first() == task
}

/// Appends the record that stores bytes. More bytes than a record can tell the number of are out of memory.
fn store(out: &mut Vec<u8>, key: Key, bytes: &[u8]) -> Result<(), NoMemory>
    ensures { OnOk result (out.new.items ≡ out.old.items ++ replies.spelled (Some (record { key = number_of key; command = command_constants.USER_DATA_STORE; previous = 0; content = bytes.now }))) }
{
    if bytes.len() > u32::MAX as usize {
        return Err(NoMemory::beyond(bytes.len() as u64, 0, u32::MAX as u64));
    }
    write_recipe(out, key.number(), commands::USER_DATA_STORE, 0, bytes)
}

/// Appends the record that makes a value, where there is one that the task can give, and returns whether there is.
fn push_value(out: &mut Vec<u8>, task: u32, key: Key, value: &Value) -> Result<bool, NoMemory>
    ensures kept { IfOk result (λ kept. kept ≡ replies.is_kept task key (Some value.now)) }
    ensures bytes { OnOk result (out.new.items ≡ out.old.items ++ replies.spelled_at task key (Some value.now)) }
{
    match value {
        Value::Chain { list } if is_own(list, task) => {
            write_recipe(out, key.number(), commands::IMPORTANCE_SELF, 0, b"")?;
            Ok(true)
        }
        Value::Default => {
            write_recipe(out, key.number(), commands::BANK_CREATE, 0, b"")?;
            Ok(true)
        }
        Value::User { bytes } => {
            store(out, key, bytes.as_slice())?;
            Ok(true)
        }
        _ => Ok(false),
    }
}

/// Appends the record of the value at a key, and returns whether no value is left out there.
fn push_key(
    out: &mut Vec<u8>,
    task: u32,
    live: &[Living],
    voucher: &Handles,
    key: Key,
) -> Result<bool, NoMemory>
    ensures kept { IfOk result (λ kept. kept ≡ replies.is_kept task key (of_key key (state.valued live.now voucher.now))) }
    ensures bytes { OnOk result (out.new.items ≡ out.old.items ++ replies.spelled_at task key (of_key key (state.valued live.now voucher.now))) }
{
    match value_at(live, key, voucher.at(key)) {
        Some(value) => push_value(out, task, key, value),
        None => Ok(true),
    }
}

/// Appends the records of the values of a voucher in rising key, and returns whether no value is left out.
fn push_all(
    out: &mut Vec<u8>,
    task: u32,
    live: &[Living],
    voucher: &Handles,
) -> Result<bool, NoMemory>
    ensures kept { IfOk result (λ kept. kept ≡ list_all (λ k. replies.is_kept task k (of_key k (state.valued live.now voucher.now))) every_key) }
    ensures bytes { OnOk result (out.new.items ≡ out.old.items ++ flat_map (λ k. replies.spelled_at task k (of_key k (state.valued live.now voucher.now))) every_key) }
{
    let importance = push_key(out, task, live, voucher, Key::Importance)?;
    let bank = push_key(out, task, live, voucher, Key::Bank)?;
    let user = push_key(out, task, live, voucher, Key::User)?;
    let test = push_key(out, task, live, voucher, Key::Test)?;
    Ok(importance && bank && user && test)
}

/// Whether a voucher has no value at a key.
fn has_none(live: &[Living], voucher: &Handles, key: Key) -> bool
    ensures { result ≡ equal_options (of_key key (state.valued live.now voucher.now)) None }
{
    value_at(live, key, voucher.at(key)).is_none()
}

/// Whether a voucher has no value.
fn is_nothing(live: &[Living], voucher: &Handles) -> bool
    ensures { result ≡ equal_vouchers (state.valued live.now voucher.now) nothing }
{
    has_none(live, voucher, Key::Importance)
        && has_none(live, voucher, Key::Bank)
        && has_none(live, voucher, Key::User)
        && has_none(live, voucher, Key::Test)
}

/// The records of a voucher: those of its values, or the one that makes the empty map.
fn records(
    out: &mut Vec<u8>,
    task: u32,
    live: &[Living],
    voucher: &Handles,
) -> Result<bool, NoMemory>
    requires { out.old.items ≡ [] }
    ensures kept { IfOk result (λ kept. kept ≡ list_all (λ k. replies.is_kept task k (of_key k (state.valued live.now voucher.now))) every_key) }
    ensures bytes { OnOk result (out.new.items ≡ replies.recipe_bytes task (state.valued live.now voucher.now)) }
{
    let kept = push_all(out, task, live, voucher)?;
    if is_nothing(live, voucher) {
        out.clear();
        write_recipe(out, ALL_KEYS, commands::REMOVE, 0, b"")?;
    }
    Ok(kept)
}

/// The recipe of a voucher that is there.
fn recipe(alloc: Global, task: u32, live: &[Living], voucher: &Handles) -> Result<Reply, NoMemory>
    ensures { IfOk result (λ r. r ≡ replies.recipe task (state.valued live.now voucher.now)) }
{
    let mut out = Vec::new(alloc);
    let kept = records(&mut out, task, live, voucher)?;
    let whole = kept && out.len() <= ARRAY_BYTES;
    Ok(Reply::Recipe {
        whole,
        bytes: Bytes::from_vec(out),
    })
}

/// The reply to a request for the recipe of a voucher.
pub fn recipes_of(
    alloc: Global,
    task: u32,
    live: &[Living],
    voucher: &Option<Handles>,
) -> Result<Reply, NoMemory>
    ensures { IfOk result (λ r. r ≡ replies.recipes_of task (state.valued_option live.now voucher.now)) }
{
    match voucher {
        Some(voucher) => recipe(alloc, task, live, voucher),
        None => Ok(refused(KERN_INVALID_CAPABILITY)),
    }
}
