//! The sums follow the history, entry by entry.
ghost use Rattle.std.specs.Prelude.{◌≡◌, ◌≤◌, ◌-◌, ℕ, List, length, reverse, OnOk};
ghost use Rattle.vch_machine.specs.State as state;
ghost use Rattle.vch_model.specs.declared.entry.Entry.{Entry};
ghost use Rattle.vch_model.specs.declared.entry.Entry.TheVariants as entries;
ghost use Rattle.vch_model.specs.declared.call.Word.{Word};
ghost use Rattle.vch_model.specs.declared.lists.Scenario.{Scenario};
ghost use Rattle.vch_script.specs.Places.{ArePlaces};
ghost use Rattle.vch_plain.specs.Followed.{Continues, FollowsCall, FollowsLast, IsNumberOf};
ghost use Rattle.vch_legal.specs.Tie.{Ties};
ghost use Rattle.vch_sums.specs.Summed.{IsSummed, accepted};

use crate::machine::Machine;
use crate::names::handles_of;
use crate::numbers::entry_number;
use crate::reply::number_at;
use crate::task::Named;
use vch_base::{Key, NoMemory, Value};
use vch_model::{Call, Entry, History, Reply, Scenario};
use vch_script::Places;
use vch_sums::Sums;

/// The names of a task; none of an unknown task.
fn names_at(machine: &Machine, task: u32) -> &[Named]
    ensures { result.now ≡ (state.tasked machine.now task).names }
{
    let tasks = machine.tasks.len();
    if task == 0 || task as usize > tasks {
        return &[];
    }
    machine.task(task).names.as_slice()
}

/// The number of the Made entry of the value at a key of a task's name; 0 where there is none.
fn number_of(machine: &Machine, task: u32, name: u32, key: Key) -> u32
    ensures { IsNumberOf machine.now task name key result }
{
    let Some(voucher) = handles_of(names_at(machine, task), name) else {
        return 0;
    };
    match voucher.at(key) {
        Some(handle) => number_at(machine, key, handle),
        None => 0,
    }
}

/// The sums follow a call that was accepted and is the last entry.
fn follow_call(sums: &mut Sums, machine: &Machine, task: u32, call: &Call) -> Result<(), NoMemory>
    ensures { OnOk result (FollowsCall machine.now task call.now sums.old sums.new) }
{
    match call {
        Call::Extern { name, adding, n } => {
            let number = number_of(machine, task, *name, Key::Importance);
            sums.counted(number, *adding, *n)
        }
        Call::Charge { name, n } => {
            let number = number_of(machine, task, *name, Key::Bank);
            sums.charged(number, task, *n)
        }
        _ => Ok(()),
    }
}

/// The sums follow a call that is the last entry and was answered.
fn follow_answer(
    sums: &mut Sums,
    machine: &Machine,
    scenario: &Scenario,
    places: &Places,
    task: u32,
    number: u32,
    reply: &Reply,
) -> Result<(), NoMemory>
    requires places { ArePlaces scenario.now places.now }
    ensures { OnOk result ((word : Word) → FollowsLast scenario.now machine.now (entries.Call task number word reply.now) sums.old sums.new) }
{
    let Reply::Done = reply else {
        return Ok(());
    };
    match places.call(scenario, task, number) {
        Some(call) => follow_call(sums, machine, task, call),
        None => Ok(()),
    }
}

/// The sums follow a Made entry that is the last one.
fn follow_made(
    sums: &mut Sums,
    machine: &Machine,
    scenario: &Scenario,
    value: &Value,
) -> Result<(), NoMemory>
    requires some { 1 ≤ length machine.now.past }
    ensures { OnOk result ((key : ℕ) → FollowsLast scenario.now machine.now (entries.Made key value.now) sums.old sums.new) }
{
    let number = entry_number(machine.history.len() - 1)?;
    sums.made(scenario, number, value)
}

/// The sums follow the last entry of the history.
fn follow_entry(
    sums: &mut Sums,
    machine: &Machine,
    scenario: &Scenario,
    places: &Places,
    entry: &Entry,
) -> Result<(), NoMemory>
    requires places { ArePlaces scenario.now places.now }
    requires some { 1 ≤ length machine.now.past }
    ensures { OnOk result (FollowsLast scenario.now machine.now entry.now sums.old sums.new) }
{
    match entry {
        Entry::Call {
            task,
            number,
            reply,
            ..
        } => follow_answer(sums, machine, scenario, places, *task, *number, reply),
        Entry::Made { value, .. } => follow_made(sums, machine, scenario, value),
        Entry::Released { made } => sums.released(*made),
        _ => Ok(()),
    }
}

/// The history.
fn history_of(machine: &Machine) -> &History
    ensures { reverse result.now.entries ≡ machine.now.past }
{
    &machine.history
}

/// The sums follow the history, which had so many entries when they were its sums and has at most one more.
///
/// After an error the sums are good for nothing.
pub fn follow(
    sums: &mut Sums,
    machine: &Machine,
    scenario: &Scenario,
    places: &Places,
    had: usize,
) -> Result<(), NoMemory>
    requires places { ArePlaces scenario.now places.now }
    ensures { OnOk result ((past : List Entry) → had ≡ length past → Continues past machine.now.past → Ties scenario.now machine.now → IsSummed scenario.now past sums.old → IsSummed scenario.now machine.now.past sums.new) }
{
    let history = history_of(machine);
    let count = history.len();
    if count == 0 || count == had {
        return Ok(());
    }
    follow_entry(sums, machine, scenario, places, history.at(count - 1))
}
