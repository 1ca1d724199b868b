ghost use Rattle.std.specs.Prelude.{◌≡◌, ◌++◌, [], false, IfOk, IsSome, IsTrue, None, OnErr, OnOk, Some};
ghost use Rattle.std.specs.List.{flat_map, list_all};
ghost use Rattle.vch_base.specs.declared.commands.TheConstants as command_constants;
ghost use Rattle.vch_base.specs.declared.kind.Kind.TheVariants as kinds;
ghost use Rattle.vch_base.specs.declared.value.Value.TheVariants as values;
ghost use Rattle.vch_base.specs.Keyed.{of_key};
ghost use Rattle.vch_base.specs.Keys.{every_key, number_of};
ghost use Rattle.vch_base.specs.Managers.{live_at, value_at, value_of};
ghost use Rattle.vch_model.specs.declared.call.Call.TheVariants as calls;
ghost use Rattle.vch_model.specs.Legal.{has_code};
ghost use Rattle.vch_model.specs.Lines.{is_task};
ghost use Rattle.vch_model.specs.Replies as replies;
ghost use Rattle.vch_model.specs.Voucher.{equal_options, equal_vouchers, nothing};
ghost use Rattle.vch_parts.specs.Reached.{Reached, MayFollow};
ghost use Rattle.vch_replies.specs.Told.{live_of, values_of};
ghost use Rattle.vch_answers.specs.Answered.{Begins};
ghost use Rattle.vch_creating.specs.Reciting.{is_own, recipes_told};
ghost use Rattle.vch_creating.specs.Telling.{AreLive, IsLiveAt};

use std::alloc::Global;
use vch_answers::{answer, out_of_memory};
use vch_base::codes::KERN_INVALID_CAPABILITY;
use vch_base::limits::ARRAY_BYTES;
use vch_base::{ALL_KEYS, Bytes, Chain, Code, Key, NoMemory, Value, commands};
use vch_model::{Reply, Word};
use vch_parts::Parts;
use vch_recipe::write_recipe;
use vch_table::Indices;
use vch_values::Values;

/// Whether a list has the task alone.
fn is_own(list: &Chain, task: u32) -> bool
    ensures { result ≡ is_own task list.now }
{
    list.len() == 1 && list.first() == task
}

/// Appends the record that makes a list of the task alone, and returns whether the list is one.
fn push_chain(out: &mut Vec<u8>, task: u32, key: Key, list: &Chain) -> Result<bool, NoMemory>
    ensures kept { IfOk result (λ kept. kept ≡ replies.is_kept task key (Some (values.Chain list.now))) }
    ensures bytes { OnOk result (out.new.items ≡ out.old.items ++ replies.spelled_at task key (Some (values.Chain list.now))) }
{
    if is_own(list, task) {
        write_recipe(out, key.number(), commands::IMPORTANCE_SELF, 0, b"")?;
        return Ok(true);
    }
    Ok(false)
}

/// Appends the record that stores bytes. More bytes than a record can tell the number of are out of memory.
fn push_bytes(out: &mut Vec<u8>, key: Key, bytes: &[u8]) -> Result<(), NoMemory>
    ensures { OnOk result (out.new.items ≡ out.old.items ++ replies.spelled (Some (record { key = number_of key; command = command_constants.USER_DATA_STORE; previous = 0; content = bytes.now }))) }
{
    if bytes.len() > u32::MAX as usize {
        return Err(NoMemory::beyond(bytes.len() as u64, 0, u32::MAX as u64));
    }
    write_recipe(out, key.number(), commands::USER_DATA_STORE, 0, bytes)
}

/// Appends the record that makes a value, where there is one that the task can give, and returns whether there is.
fn push_value(out: &mut Vec<u8>, task: u32, key: Key, value: &Value) -> Result<bool, NoMemory>
    ensures kept { IfOk result (λ kept. kept ≡ replies.is_kept task key (Some value.now)) }
    ensures bytes { OnOk result (out.new.items ≡ out.old.items ++ replies.spelled_at task key (Some value.now)) }
{
    match value {
        Value::Chain { list } => push_chain(out, task, key, list),
        Value::Default => {
            write_recipe(out, key.number(), commands::BANK_CREATE, 0, b"")?;
            Ok(true)
        }
        Value::User { bytes } => {
            push_bytes(out, key, bytes.as_slice())?;
            Ok(true)
        }
        _ => Ok(false),
    }
}

/// Appends the record of the value at a handle of a key, and returns whether the task can give one.
fn push_handle(
    out: &mut Vec<u8>,
    task: u32,
    values: &Values,
    key: Key,
    handle: u32,
) -> Result<bool, NoMemory>
    requires live { IsSome (live_at (of_key key values.now).kept.slots handle) }
    ensures kept { IfOk result (λ kept. kept ≡ replies.is_kept task key (value_at (of_key key values.now).kept.slots handle)) }
    ensures bytes { OnOk result (out.new.items ≡ out.old.items ++ replies.spelled_at task key (value_at (of_key key values.now).kept.slots handle)) }
{
    match key {
        Key::Importance => push_chain(out, task, key, values.chain(handle)),
        Key::Bank => push_value(out, task, key, &values.bank_value(handle)),
        Key::User | Key::Test => {
            push_bytes(out, key, values.bytes(key, handle))?;
            Ok(true)
        }
    }
}

/// Appends the record of what a voucher has at a key, and returns whether no value is left out there.
fn push_key(
    out: &mut Vec<u8>,
    task: u32,
    values: &Values,
    voucher: &Indices,
    key: Key,
) -> Result<bool, NoMemory>
    requires live { IsLiveAt values.now voucher.now key }
    ensures kept { IfOk result (λ kept. kept ≡ replies.is_kept task key (value_of (live_of values.now key voucher.now))) }
    ensures bytes { OnOk result (out.new.items ≡ out.old.items ++ replies.spelled_at task key (value_of (live_of values.now key voucher.now))) }
{
    let Some(index) = voucher.get(key.number()) else {
        return Ok(true);
    };
    let handle = values.handle(key, index);
    push_handle(out, task, values, key, handle)
}

/// Appends the records of the values of a voucher in rising key, and returns whether no value is left out.
fn push_all(
    out: &mut Vec<u8>,
    task: u32,
    values: &Values,
    voucher: &Indices,
) -> Result<bool, NoMemory>
    requires live { AreLive values.now voucher.now }
    ensures kept { IfOk result (λ kept. kept ≡ list_all (λ k. replies.is_kept task k (of_key k (values_of values.now voucher.now))) every_key) }
    ensures bytes { OnOk result (out.new.items ≡ out.old.items ++ flat_map (λ k. replies.spelled_at task k (of_key k (values_of values.now voucher.now))) every_key) }
{
    let importance = push_key(out, task, values, voucher, Key::Importance)?;
    let bank = push_key(out, task, values, voucher, Key::Bank)?;
    let user = push_key(out, task, values, voucher, Key::User)?;
    let test = push_key(out, task, values, voucher, Key::Test)?;
    Ok(importance && bank && user && test)
}

/// Whether a voucher has no value at a key.
fn has_none(values: &Values, voucher: &Indices, key: Key) -> bool
    requires live { IsLiveAt values.now voucher.now key }
    ensures { result ≡ equal_options (value_of (live_of values.now key voucher.now)) None }
{
    let _ = values;
    voucher.get(key.number()).is_none()
}

/// Whether a voucher has no value.
fn is_nothing(values: &Values, voucher: &Indices) -> bool
    requires live { AreLive values.now voucher.now }
    ensures { result ≡ equal_vouchers (values_of values.now voucher.now) nothing }
{
    has_none(values, voucher, Key::Importance)
        && has_none(values, voucher, Key::Bank)
        && has_none(values, voucher, Key::User)
        && has_none(values, voucher, Key::Test)
}

/// The records of a voucher: those of its values, or the one that makes the empty map.
fn records(
    out: &mut Vec<u8>,
    task: u32,
    values: &Values,
    voucher: &Indices,
) -> Result<bool, NoMemory>
    requires empty { out.old.items ≡ [] }
    requires live { AreLive values.now voucher.now }
    ensures kept { IfOk result (λ kept. kept ≡ list_all (λ k. replies.is_kept task k (of_key k (values_of values.now voucher.now))) every_key) }
    ensures bytes { OnOk result (out.new.items ≡ replies.recipe_bytes task (values_of values.now voucher.now)) }
{
    let kept = push_all(out, task, values, voucher)?;
    if is_nothing(values, voucher) {
        out.clear();
        write_recipe(out, ALL_KEYS, commands::REMOVE, 0, b"")?;
    }
    Ok(kept)
}

/// The recipe of a voucher. The one error is out of memory.
fn recipe(alloc: Global, task: u32, values: &Values, voucher: &Indices) -> Result<Reply, NoMemory>
    requires live { AreLive values.now voucher.now }
    ensures { IfOk result (λ reply. reply ≡ replies.recipe task (values_of values.now voucher.now)) }
{
    let mut out = Vec::new(alloc);
    let kept = records(&mut out, task, values, voucher)?;
    let whole = kept && out.len() <= ARRAY_BYTES;
    Ok(Reply::Recipe {
        whole,
        bytes: Bytes::from_vec(out),
    })
}

/// The reply to a request for the recipe of a name. The one error is out of memory, and comes only where the reply would have no
/// code.
fn recipes_of(alloc: Global, parts: &Parts, task: u32, name: u32) -> Result<Reply, NoMemory>
    requires reached { Reached parts.now }
    requires task { IsTrue (is_task parts.now.scenario task) }
    ensures told { IfOk result (λ reply. reply ≡ recipes_told parts.now task name) }
    ensures wants { OnErr result (has_code (recipes_told parts.now task name) ≡ false) }
{
    let Some(voucher) = parts.vouchers.voucher(task, name) else {
        return Ok(Reply::Refused {
            code: Code::of(KERN_INVALID_CAPABILITY),
        });
    };
    let reply = recipe(alloc, task, &parts.values, &voucher)?;
    Ok(reply)
}

/// The call is answered with its recipe, or with a refusal that has nothing to do with memory.
fn answer_recipes(parts: &mut Parts, task: u32, name: u32, reply: Reply)
    requires reached { Reached parts.old }
    requires task { IsTrue (is_task parts.old.scenario task) }
    requires begins { Begins parts.old task (calls.Recipes name) }
    requires told { reply ≡ recipes_told parts.old task name }
    ensures { MayFollow kinds.Begin task parts.old parts.new }
{
    let _ = name;
    answer(parts, task, Word::Recipes, reply);
}

/// Refuses a request for a recipe that is out of memory.
fn refuse_recipes(parts: &mut Parts, task: u32, name: u32, cause: NoMemory)
    requires reached { Reached parts.old }
    requires task { IsTrue (is_task parts.old.scenario task) }
    requires begins { Begins parts.old task (calls.Recipes name) }
    requires wants { has_code (recipes_told parts.old task name) ≡ false }
    ensures { MayFollow kinds.Begin task parts.old parts.new }
{
    let _ = name;
    out_of_memory(parts, task, Word::Recipes, cause);
}

/// Begin of a `recipes`: the call is answered with records that make the voucher of a name again, as far as the task can. Linear
/// in the names of the task and in the bytes of the records. Out of memory, the call is refused.
pub fn begin_recipes(parts: &mut Parts, alloc: Global, task: u32, name: u32)
    requires reached { Reached parts.old }
    requires task { IsTrue (is_task parts.old.scenario task) }
    requires begins { Begins parts.old task (calls.Recipes name) }
    ensures { MayFollow kinds.Begin task parts.old parts.new }
{
    match recipes_of(alloc, parts, task, name) {
        Ok(reply) => answer_recipes(parts, task, name, reply),
        Err(cause) => refuse_recipes(parts, task, name, cause),
    }
}
