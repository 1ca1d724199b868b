ghost use Rattle.std.specs.Prelude.{◌≡◌, ◌⊎◌, ◌≤◌, length, IfErr};
ghost use Rattle.vch_making.specs.Refused.{IsOther};
ghost use Rattle.vch_creating.specs.Reading as reading;
ghost use Rattle.vch_creating.specs.Reading.{Reads, keys_named, named_by};

use crate::change::{AtKeys, Change, Deed};
use vch_base::codes::{KERN_INVALID_ARGUMENT, KERN_INVALID_CAPABILITY, KERN_NO_ACCESS};
use vch_base::commands::{AUTO_REDEEM, COPY, NOOP, REMOVE, SEND_PREPROCESS, SET_VALUE_HANDLE};
use vch_base::{ALL_KEYS, Code, Key};
use vch_parts::Parts;
use vch_recipe::{Step, next_recipe};
use vch_table::Indices;

/// A record that asks no manager: what it changes of the voucher that is formed, if anything, and where the next record stands.
#[derive(Drop)]
pub struct Record {
    pub change: Option<Change>,
    pub next: usize,
}

/// The codes of what can't be read, of what a task may not ask for, and of a voucher that is not there.
pub const INVALID: Code = Code {
    number: KERN_INVALID_ARGUMENT,
};

const NO_ACCESS: Code = Code {
    number: KERN_NO_ACCESS,
};

const NO_VOUCHER: Code = Code {
    number: KERN_INVALID_CAPABILITY,
};

/// The keys that a number stands for, or nothing where it is no key of a manager.
fn keys_named(version: u32, number: u32) -> Option<AtKeys>
    requires { (version ≡ 1) ⊎ (version ≡ 2) }
    ensures { result ≡ reading.keys_named version number }
{
    if number == ALL_KEYS {
        return Some(AtKeys::All);
    }
    match Key::of(number, version) {
        Some(key) => Some(AtKeys::One { key }),
        None => None,
    }
}

/// A deed at the keys of a number.
fn change_at(version: u32, key: u32, deed: Deed) -> Result<Option<Change>, Code>
    requires { (version ≡ 1) ⊎ (version ≡ 2) }
    ensures { result ≡ reading.change_at (keys_named version key) deed }
{
    match keys_named(version, key) {
        Some(keys) => Ok(Some(Change { keys, deed })),
        None => Err(INVALID),
    }
}

/// A copy, which does nothing without a previous voucher.
fn copy_at(version: u32, key: u32, previous: Option<Indices>) -> Result<Option<Change>, Code>
    requires { (version ≡ 1) ⊎ (version ≡ 2) }
    ensures { result ≡ reading.copy_at version key previous }
{
    match previous {
        Some(from) => change_at(version, key, Deed::Copy { from }),
        None => Ok(None),
    }
}

/// What a record with its previous voucher does, or a code.
fn change_of(
    version: u32,
    command: u32,
    key: u32,
    size: usize,
    previous: Option<Indices>,
) -> Result<Option<Change>, Code>
    requires { (version ≡ 1) ⊎ (version ≡ 2) }
    ensures { result ≡ reading.change_of version command key size previous }
{
    match command {
        SET_VALUE_HANDLE | AUTO_REDEEM | SEND_PREPROCESS => Err(NO_ACCESS),
        NOOP | COPY | REMOVE if size != 0 => Err(INVALID),
        NOOP => Ok(None),
        COPY => copy_at(version, key, previous),
        REMOVE => change_at(version, key, Deed::Remove { from: previous }),
        _ => Err(INVALID),
    }
}

/// What a record does with the previous voucher that it names; a name that is 0 names none.
fn change_named(
    parts: &Parts,
    task: u32,
    command: u32,
    key: u32,
    size: usize,
    name: u32,
) -> Result<Option<Change>, Code>
    requires task { (1 ≤ task) × (task ≤ length parts.now.vouchers) }
    ensures { result ≡ reading.change_named parts.now.scenario.version (named_by parts.now task) command key size name }
{
    let version = parts.scenario.version();
    if name == 0 {
        return change_of(version, command, key, size, None);
    }
    match parts.vouchers.voucher(task, name) {
        Some(from) => change_of(version, command, key, size, Some(from)),
        None => Err(NO_VOUCHER),
    }
}

/// The record at a place of some bytes, or the code with which its call is refused.
pub fn read_record(parts: &Parts, task: u32, bytes: &[u8], at: usize) -> Result<Record, Code>
    requires task { (1 ≤ task) × (task ≤ length parts.now.vouchers) }
    requires inside { at ≤ length bytes.now }
    ensures { Reads parts.now.scenario.version (named_by parts.now task) bytes.now at result }
{
    match next_recipe(bytes, at) {
        Step::One {
            key,
            command,
            previous,
            content,
            next,
        } => {
            let change = change_named(parts, task, command, key, content.len(), previous)?;
            Ok(Record { change, next })
        }
        Step::End | Step::HeaderCut { .. } | Step::ContentCut { .. } => Err(INVALID),
    }
}
