ghost use Rattle.std.specs.Prelude.{◌≡◌, ◌⊎◌, ◌==◌, if◌then◌else◌, ℕ, Some, IfOk};
ghost use Rattle.std.specs.Option.{option_copied};
ghost use Rattle.vch_base.specs.Keys.{key_of};
ghost use Rattle.vch_base.specs.Managers as managers;
ghost use Rattle.vch_base.specs.declared.key.TheConstants as key_constants;
ghost use Rattle.vch_model.specs.Transfer as transfer;
ghost use Rattle.vch_machine.specs.Making as making;
ghost use Rattle.vch_machine.specs.State as state;
ghost use Rattle.vch_recipe.specs.Recipes.{First};
ghost use Rattle.vch_plain.specs.Answers.{HasAnswer, HaveTask, replied};
ghost use Rattle.vch_plain.specs.Asking.{AllHaveTask, AnswersHave, asked_of, HasFlags};
ghost use Rattle.vch_plain.specs.Machines.{IsTaskOf};
ghost use Rattle.vch_plain.specs.Reading.{Reads};

use crate::answers::{Answer, answer_to};
use crate::handles::Handles;
use crate::machine::Machine;
use crate::names::handles_of;
use crate::reading::step_at;
use crate::task::{Frame, Named};
use crate::transfers::{preprocessed, received};
use crate::values::value_at;
use std::alloc::Global;
use vch_base::{ALL_KEYS, Key, NoMemory, Value};
use vch_model::{Call, Scenario};
use vch_recipe::Step;

/// A key that is asked, and what its manager answers.
#[derive(Drop)]
pub struct Asked {
    pub key: Key,
    pub answer: Answer,
}

/// Where the previous value is taken from: the named previous voucher, else the map that is being formed.
fn previous_of(names: &[Named], map: &Handles, name: u32) -> Handles
    ensures { result ≡ making.previous_of names.now map.now name }
{
    if name == 0 {
        return *map;
    }
    match handles_of(names, name) {
        Some(given) => given,
        None => *map,
    }
}

/// The key that a record asks, if it has a manager: of all keys, the first one that is left.
fn record_key(version: u32, keys: &[Key], key: u32) -> Option<Key>
    requires version { (version ≡ 1) ⊎ (version ≡ 2) }
    ensures { result ≡ (if key == key_constants.ALL_KEYS then making.head_key (making.keys_left version keys.now) else key_of version key) }
{
    if key != ALL_KEYS {
        return Key::of(key, version);
    }
    if keys.is_empty() {
        return Some(Key::Importance);
    }
    Some(keys[0])
}

/// The value at a handle of a key, or none.
fn live_value(machine: &Machine, key: Key, handle: Option<u32>) -> Option<&Value>
    requires have { AllHaveTask machine.now.live }
    ensures same { option_copied result ≡ state.value_at machine.now.live key handle }
    ensures have { HaveTask (option_copied result) }
{
    value_at(machine.live.as_slice(), key, handle)
}

/// What a record asks of the manager of a key.
fn ask_key(
    alloc: Global,
    machine: &Machine,
    task: u32,
    map: &Handles,
    key: Key,
    command: u32,
    previous: u32,
    content: &[u8],
) -> Result<Answer, NoMemory>
    requires task { IsTaskOf machine.now task }
    requires have { AllHaveTask machine.now.live }
    ensures same { (asked : ℕ) → IfOk result (λ made. Some (record { key = key; reply = replied made }) ≡ making.asked_record machine.now.live (state.tasked machine.now task).names task map.now (record { key = asked; command = command; previous = previous; content = content.now }) (Some key)) }
    ensures have { IfOk result HasAnswer }
{
    let names = machine.task(task).names.as_slice();
    let given = previous_of(names, map, previous);
    let value = live_value(machine, key, given.at(key));
    answer_to(alloc, key, task, command, value, content)
}

/// What the next record of a create asks, or nothing.
fn ask_record(
    alloc: Global,
    machine: &Machine,
    version: u32,
    task: u32,
    frame: &Frame,
    map: &Handles,
    step: &Step,
) -> Result<Option<Asked>, NoMemory>
    requires version { (version ≡ 1) ⊎ (version ≡ 2) }
    requires task { IsTaskOf machine.now task }
    requires have { AllHaveTask machine.now.live }
    ensures same { (at : ℕ) (first : First) → Reads at first step.now → IfOk result (λ made. asked_of made ≡ making.asked_first version machine.now.live (state.tasked machine.now task).names task frame.now.keys map.now first) }
    ensures have { IfOk result AnswersHave }
{
    let Step::One {
        key,
        command,
        previous,
        content,
        ..
    } = step
    else {
        return Ok(None);
    };
    let Some(asked) = record_key(version, frame.keys.as_slice(), *key) else {
        return Ok(None);
    };
    let answer = ask_key(
        alloc, machine, task, map, asked, *command, *previous, content,
    )?;
    Ok(Some(Asked { key: asked, answer }))
}

/// What a send asks of the manager of its next key.
fn ask_send(
    alloc: Global,
    machine: &Machine,
    task: u32,
    frame: &Frame,
    map: &Handles,
) -> Result<Option<Asked>, NoMemory>
    requires have { AllHaveTask machine.now.live }
    ensures same { IfOk result (λ made. asked_of made ≡ making.asked_transfer machine.now.live (managers.preprocessed task) frame.now.keys map.now) }
    ensures have { IfOk result AnswersHave }
{
    if frame.keys.is_empty() {
        return Ok(None);
    }
    let key = frame.keys[0];
    let answer = match live_value(machine, key, map.at(key)) {
        Some(value) => Answer::Value {
            value: preprocessed(alloc, task, value)?,
        },
        None => Answer::Nothing,
    };
    Ok(Some(Asked { key, answer }))
}

/// Whether a task is a receiver of importance.
fn is_receiver(scenario: &Scenario, task: u32) -> bool
    requires { HasFlags scenario.now task }
    ensures { result ≡ (transfer.flags_of scenario.now task).receiver }
{
    scenario.flags.at(task as usize - 1).receiver
}

/// What a recv asks of the manager of its next key.
fn ask_recv(
    alloc: Global,
    scenario: &Scenario,
    machine: &Machine,
    task: u32,
    frame: &Frame,
    map: &Handles,
) -> Result<Option<Asked>, NoMemory>
    requires flags { HasFlags scenario.now task }
    requires have { AllHaveTask machine.now.live }
    ensures same { IfOk result (λ made. asked_of made ≡ making.asked_transfer machine.now.live (transfer.received_value scenario.now task) frame.now.keys map.now) }
    ensures have { IfOk result AnswersHave }
{
    if frame.keys.is_empty() {
        return Ok(None);
    }
    let key = frame.keys[0];
    let receiver = is_receiver(scenario, task);
    let answer = match live_value(machine, key, map.at(key)) {
        Some(value) => Answer::Value {
            value: received(alloc, receiver, task, value)?,
        },
        None => Answer::Nothing,
    };
    Ok(Some(Asked { key, answer }))
}

/// What a call asks, or nothing.
pub fn asked_by(
    alloc: Global,
    scenario: &Scenario,
    machine: &Machine,
    task: u32,
    frame: &Frame,
    map: &Handles,
    call: &Call,
) -> Result<Option<Asked>, NoMemory>
    requires version { (scenario.now.version ≡ 1) ⊎ (scenario.now.version ≡ 2) }
    requires task { IsTaskOf machine.now task }
    requires flags { HasFlags scenario.now task }
    requires have { AllHaveTask machine.now.live }
    ensures same { IfOk result (λ made. asked_of made ≡ making.asked_by scenario.now machine.now task frame.now map.now call.now) }
    ensures have { IfOk result AnswersHave }
{
    match call {
        Call::Create { .. } => {
            let step = step_at(call, frame.at_byte);
            ask_record(alloc, machine, scenario.version, task, frame, map, &step)
        }
        Call::Send { .. } => ask_send(alloc, machine, task, frame, map),
        Call::Recv => ask_recv(alloc, scenario, machine, task, frame, map),
        _ => Ok(None),
    }
}
