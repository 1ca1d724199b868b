ghost use Rattle.std.specs.Prelude.{◌≡◌, ◌≤◌, ℕ, List, length, Some};
ghost use Rattle.std.specs.Option.{option_copied};
ghost use Rattle.vch_base.specs.Keyed.{of_key};
ghost use Rattle.vch_base.specs.declared.key.Key.TheVariants as keys;
ghost use Rattle.vch_machine.specs.Leaving as leaving;
ghost use Rattle.vch_base.specs.declared.value.Value.TheVariants as values;
ghost use Rattle.vch_machine.specs.State as state;
ghost use Rattle.vch_model.specs.declared.lists.Scenario.{Scenario};
ghost use Rattle.vch_model.specs.Replies as replies;
ghost use Rattle.vch_model.specs.Store as store;
ghost use Rattle.vch_model.specs.Totals as totals;
ghost use Rattle.vch_plain.specs.Keeping.{Keeps};
ghost use Rattle.vch_plain.specs.Machines.{IsTaskOf};

use crate::handles::{Handles, Place};
use crate::machine::Machine;
use crate::names::handles_of;
use crate::reply::asked::{counted, ends_with, may_charge};
use crate::reply::named::refused;
use crate::task::{Named, Tasked};
use crate::values::{Living, made_at, value_at};
use vch_base::codes::{
    KERN_INVALID_ARGUMENT, KERN_INVALID_CAPABILITY, MACH_SEND_INVALID_DEST,
    MACH_SEND_INVALID_VOUCHER, MACH_SEND_TIMED_OUT,
};
use vch_base::{Key, Value};
use vch_model::{Reply, Scenario};
use vch_sums::Sums;

/// The live values.
pub fn live_of(machine: &Machine) -> &[Living]
    ensures { result.now ≡ machine.now.live }
{
    machine.live.as_slice()
}

/// The tasks.
pub fn tasks_of(machine: &Machine) -> &[Tasked]
    ensures { result.now ≡ machine.now.tasks }
{
    machine.tasks.as_slice()
}

/// The names of a task.
fn names_of(machine: &Machine, task: u32) -> &[Named]
    requires task { IsTaskOf machine.now task }
    ensures { result.now ≡ (state.tasked machine.now task).names }
{
    machine.task(task).names.as_slice()
}

/// The number of the Made entry of the value at a handle.
pub fn number_at(machine: &Machine, key: Key, handle: u32) -> u32
    ensures { result ≡ leaving.made_of (state.living_at machine.now.live (record { key = key; handle = handle })) }
{
    made_at(live_of(machine), &Place { key, handle })
}

/// The value of a voucher at a key, or none.
fn value_of<'a>(machine: &'a Machine, voucher: &Handles, key: Key) -> Option<&'a Value>
    ensures { option_copied result ≡ state.value_at machine.now.live key (of_key key voucher.now) }
{
    value_at(live_of(machine), key, voucher.at(key))
}

/// The voucher of a task's name, or none where the name is not there.
pub fn named(machine: &Machine, task: u32, name: u32) -> Option<Handles>
    requires task { IsTaskOf machine.now task }
    ensures { state.valued_option machine.now.live result ≡ totals.named_voucher (state.seen machine.now) task name }
{
    handles_of(names_of(machine, task), name)
}

/// Whether the queue of a task has as many messages as it may.
#[tactic(auto, using(crate::proofs::SeenReplies::full_seen))]
fn is_full(machine: &Machine, scenario: &Scenario, to: u32) -> bool
    requires task { IsTaskOf machine.now to }
    requires limit { (1 ≤ to) × (to ≤ length scenario.now.queues) }
    ensures { result ≡ store.is_full scenario.now (state.seen machine.now) to }
{
    let limit = *scenario.queues.at(to as usize - 1);
    machine.task(to).queue.len() >= limit as usize
}

/// The reply to a send.
pub fn sending(
    machine: &Machine,
    sums: &Sums,
    scenario: &Scenario,
    task: u32,
    to: u32,
    name: u32,
) -> Reply
    requires keeps { Keeps scenario.now machine.now sums.now }
    requires task { IsTaskOf machine.now task }
    ensures { result ≡ replies.sending scenario.now (state.seen machine.now) task to name }
{
    let _ = sums;
    if to == 0 || to as usize > scenario.flags.len() {
        return refused(MACH_SEND_INVALID_DEST);
    }
    if name != 0 && named(machine, task, name).is_none() {
        return refused(MACH_SEND_INVALID_VOUCHER);
    }
    if is_full(machine, scenario, to) {
        return refused(MACH_SEND_TIMED_OUT);
    }
    Reply::Done
}

/// The external count of the list of a voucher that has one.
fn external(machine: &Machine, sums: &Sums, voucher: &Handles) -> u64
    ensures { (sc : Scenario) (list : List ℕ) → Keeps sc machine.now sums.now → state.value_at machine.now.live keys.Importance voucher.now.importance ≡ Some (values.Chain list) → result ≡ totals.external sc machine.now.past (values.Chain list) }
{
    match voucher.at(Key::Importance) {
        Some(handle) => sums.amount(number_at(machine, Key::Importance, handle)),
        None => 0,
    }
}

/// The reply to a change of the external count of the list of a voucher.
fn counting(
    machine: &Machine,
    sums: &Sums,
    task: u32,
    voucher: &Handles,
    adding: bool,
    n: u32,
) -> Reply
    ensures { (sc : Scenario) → Keeps sc machine.now sums.now → result ≡ replies.counting sc machine.now.past task adding n (state.value_at machine.now.live keys.Importance voucher.now.importance) }
{
    if ends_with(value_of(machine, voucher, Key::Importance), task) {
        return counted(external(machine, sums, voucher), adding, n);
    }
    refused(KERN_INVALID_ARGUMENT)
}

/// The reply to a change of the external count of the list of a voucher that may be none.
pub fn extern_of(
    machine: &Machine,
    sums: &Sums,
    task: u32,
    voucher: &Option<Handles>,
    adding: bool,
    n: u32,
) -> Reply
    ensures { (sc : Scenario) → Keeps sc machine.now sums.now → result ≡ replies.extern_of sc machine.now.past task adding n (state.valued_option machine.now.live voucher.now) }
{
    match voucher {
        Some(voucher) => counting(machine, sums, task, voucher, adding, n),
        None => refused(KERN_INVALID_CAPABILITY),
    }
}

/// The reply to a charge on the bank value of a voucher.
pub fn charged(machine: &Machine, task: u32, voucher: &Option<Handles>) -> Reply
    ensures { result ≡ replies.charge_of task (state.valued_option machine.now.live voucher.now) }
{
    let Some(voucher) = voucher else {
        return refused(KERN_INVALID_CAPABILITY);
    };
    if may_charge(value_of(machine, voucher, Key::Bank), task) {
        return Reply::Done;
    }
    refused(KERN_INVALID_ARGUMENT)
}
