ghost use Rattle.std.specs.Prelude.{◌≡◌, ◌⊎◌, ℕ, List, OnOk};
ghost use Rattle.vch_base.specs.Keys.{managed};
ghost use Rattle.vch_machine.specs.State as state;
ghost use Rattle.vch_machine.specs.Working as working;
ghost use Rattle.vch_recipe.specs.Recipes.{First};
ghost use Rattle.vch_plain.specs.Plans.{applied, change_of, outcome, fresh_work, Plans};
ghost use Rattle.vch_plain.specs.Reading.{Reads};

use crate::handles::{Handles, Place, same_handle};
use crate::lets::push_item;
use crate::names::handles_of;
use crate::task::Named;
use std::marker::Model;
use vch_base::codes::{KERN_INVALID_ARGUMENT, KERN_INVALID_CAPABILITY, KERN_NO_ACCESS};
use vch_base::commands::{AUTO_REDEEM, COPY, NOOP, REMOVE, SEND_PREPROCESS, SET_VALUE_HANDLE};
use vch_base::{ALL_KEYS, Code, Key, NoMemory};
use vch_recipe::Step;

/// One record without a manager: the map, and the places that leave it.
#[derive(Drop)]
pub struct Work {
    pub forming: Handles,
    pub left: Vec<Place>,
}

impl Model for Work {
    ghost use Rattle.vch_machine.specs.Working as working;

    ghost Value = { working.WorkDone };

    ghost view = { λ w. record { forming = w.forming; left = w.left.items } };
}

/// What a record makes of a key: what another voucher has there, or none.
#[derive(Drop)]
pub enum Change {
    Copy {
        from: Handles,
    },
    Remove {
        previous: Option<Handles>,
        map: Handles,
    },
}

/// What a record without a manager does to the map.
#[derive(Drop)]
pub enum Plan {
    Nothing,
    At { key: Key, change: Change },
    All { change: Change },
}

/// What a record does, and the place behind it.
#[derive(Drop)]
pub struct Planned {
    pub plan: Plan,
    pub next: usize,
}

/// What REMOVE makes of a key, or nothing where it stays.
fn removes(previous: &Option<Handles>, map: &Handles, key: Key) -> Option<Option<u32>>
    ensures { result ≡ working.removes previous.now map.now key }
{
    match previous {
        None => Some(None),
        Some(given) => {
            if same_handle(given.at(key), map.at(key)) {
                Some(None)
            } else {
                None
            }
        }
    }
}

/// What a change makes of a key, or nothing where it stays.
fn becomes(change: &Change, key: Key) -> Option<Option<u32>>
    ensures { result ≡ change_of change.now key }
{
    match change {
        Change::Copy { from } => Some(from.at(key)),
        Change::Remove { previous, map } => removes(previous, map, key),
    }
}

/// A key is changed; the handle that was there leaves the map, also where it is put there again.
fn change_key(work: &mut Work, change: &Change, key: Key) -> Result<(), NoMemory>
    ensures { OnOk result (work.new ≡ working.changed key (change_of change.now key) work.old) }
{
    let Some(to) = becomes(change, key) else {
        return Ok(());
    };
    let had = work.forming.at(key);
    push_item(&mut work.left, key, had)?;
    work.forming.set(key, to);
    Ok(())
}

/// Each managed key of the version is changed, in rising order.
fn change_all(work: &mut Work, version: u32, change: &Change) -> Result<(), NoMemory>
    ensures { OnOk result (work.new ≡ working.changed_each (change_of change.now) (managed version) work.old) }
{
    change_key(work, change, Key::Importance)?;
    change_key(work, change, Key::Bank)?;
    change_key(work, change, Key::User)?;
    if version == 2 {
        change_key(work, change, Key::Test)?;
    }
    Ok(())
}

/// A plan is carried out.
pub fn carry_out(work: &mut Work, version: u32, plan: &Plan) -> Result<(), NoMemory>
    ensures { OnOk result (work.new ≡ applied version plan.now work.old) }
{
    match plan {
        Plan::Nothing => Ok(()),
        Plan::At { key, change } => change_key(work, change, *key),
        Plan::All { change } => change_all(work, version, change),
    }
}

/// A change at one managed key of the version, or at all of them.
fn at_keys(version: u32, key: u32, change: Change) -> Result<Plan, Code>
    requires version { (version ≡ 1) ⊎ (version ≡ 2) }
    ensures { (w : working.WorkDone) → outcome version result w ≡ working.changed_keys version (change_of change) key w }
{
    if key == ALL_KEYS {
        return Ok(Plan::All { change });
    }
    match Key::of(key, version) {
        Some(key) => Ok(Plan::At { key, change }),
        None => Err(Code::of(KERN_INVALID_ARGUMENT)),
    }
}

/// COPY, which does nothing without a previous voucher.
fn copied(version: u32, key: u32, previous: Option<Handles>) -> Result<Plan, Code>
    requires version { (version ≡ 1) ⊎ (version ≡ 2) }
    ensures { (w : working.WorkDone) → outcome version result w ≡ working.copied version previous key w }
{
    match previous {
        Some(from) => at_keys(version, key, Change::Copy { from }),
        None => Ok(Plan::Nothing),
    }
}

/// A record with its previous voucher, or a code.
fn worked(
    version: u32,
    key: u32,
    command: u32,
    content: &[u8],
    previous: Option<Handles>,
    map: &Handles,
) -> Result<Plan, Code>
    requires version { (version ≡ 1) ⊎ (version ≡ 2) }
    ensures { (named : ℕ) → outcome version result (fresh_work map.now) ≡ working.worked version (record { key = key; command = command; previous = named; content = content.now }) previous (fresh_work map.now) }
{
    match command {
        SET_VALUE_HANDLE | AUTO_REDEEM | SEND_PREPROCESS => Err(Code::of(KERN_NO_ACCESS)),
        NOOP | COPY | REMOVE if !content.is_empty() => Err(Code::of(KERN_INVALID_ARGUMENT)),
        NOOP => Ok(Plan::Nothing),
        COPY => copied(version, key, previous),
        REMOVE => at_keys(
            version,
            key,
            Change::Remove {
                previous,
                map: *map,
            },
        ),
        _ => Err(Code::of(KERN_INVALID_ARGUMENT)),
    }
}

/// A record, with the names of the task: one that names a previous voucher which is not there is refused.
fn named_work(
    version: u32,
    names: &[Named],
    key: u32,
    command: u32,
    previous: u32,
    content: &[u8],
    map: &Handles,
) -> Result<Plan, Code>
    requires version { (version ≡ 1) ⊎ (version ≡ 2) }
    ensures { (rest : List ℕ) → outcome version result (fresh_work map.now) ≡ working.work_first version names.now (First.One (record { key = key; command = command; previous = previous; content = content.now }) rest) map.now }
{
    if previous == 0 {
        return worked(version, key, command, content, None, map);
    }
    match handles_of(names, previous) {
        Some(given) => worked(version, key, command, content, Some(given), map),
        None => Err(Code::of(KERN_INVALID_CAPABILITY)),
    }
}

/// What the next record of a create does, or a code.
pub fn plan_record(
    version: u32,
    names: &[Named],
    step: &Step,
    map: &Handles,
) -> Result<Planned, Code>
    requires version { (version ≡ 1) ⊎ (version ≡ 2) }
    ensures { (at : ℕ) (first : First) → Reads at first step.now → Plans version names.now at first map.now result }
{
    let Step::One {
        key,
        command,
        previous,
        content,
        next,
    } = step
    else {
        return Err(Code::of(KERN_INVALID_ARGUMENT));
    };
    match named_work(version, names, *key, *command, *previous, content, map) {
        Ok(plan) => Ok(Planned { plan, next: *next }),
        Err(code) => Err(code),
    }
}
