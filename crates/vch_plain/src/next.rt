ghost use Rattle.std.specs.Prelude.{◌≡◌, ◌⊎◌, ◌==◌, ◌||◌, ℕ, is_some};
ghost use Rattle.std.specs.Option.{option_copied};
ghost use Rattle.vch_model.specs.Legal as legal;
ghost use Rattle.vch_model.specs.Lines.{phases_in};
ghost use Rattle.vch_machine.specs.Next as next;
ghost use Rattle.vch_recipe.specs.Recipes.{First};
ghost use Rattle.vch_script.specs.Places.{ArePlaces};
ghost use Rattle.vch_plain.specs.Machines.{IsTaskOf};
ghost use Rattle.vch_plain.specs.Reading.{Reads};

use crate::machine::Machine;
use crate::names::handles_of;
use crate::reading::step_at;
use crate::task::{Claim, Frame, Named};
use vch_base::commands::{
    AUTO_REDEEM, COPY, NOOP, REDEEM, REMOVE, SEND_PREPROCESS, SET_VALUE_HANDLE,
};
use vch_base::{ALL_KEYS, Key, Kind};
use vch_model::{Call, Scenario};
use vch_recipe::Step;
use vch_script::Places;

/// Whether a command is one that a record gives to a manager.
fn is_managers(command: u32) -> bool
    ensures { result ≡ legal.is_managers command }
{
    !matches!(
        command,
        NOOP | COPY | REMOVE | SET_VALUE_HANDLE | AUTO_REDEEM | SEND_PREPROCESS
    )
}

/// Whether a record names no previous voucher, or one that is there.
fn is_there(names: &[Named], previous: u32) -> bool
    ensures { result ≡ ((previous == 0) || is_some (next.known_name names.now previous)) }
{
    previous == 0 || handles_of(names, previous).is_some()
}

/// Whether a record asks a manager.
fn asks(
    version: u32,
    names: &[Named],
    key: u32,
    command: u32,
    previous: u32,
    content: &[u8],
) -> bool
    requires version { (version ≡ 1) ⊎ (version ≡ 2) }
    ensures { result ≡ legal.asks version (next.known_name names.now) (record { key = key; command = command; previous = previous; content = content.now }) }
{
    if !is_there(names, previous) {
        return false;
    }
    if is_managers(command) && Key::of(key, version).is_some() {
        return true;
    }
    command == REDEEM && key == ALL_KEYS && content.is_empty()
}

/// The event of a create at its next record.
fn record_next(version: u32, names: &[Named], step: &Step) -> Kind
    requires version { (version ≡ 1) ⊎ (version ≡ 2) }
    ensures { (at : ℕ) (first : First) → Reads at first step.now → result ≡ next.first_next version names.now first }
{
    match step {
        Step::One {
            key,
            command,
            previous,
            content,
            ..
        } => {
            if asks(version, names, *key, *command, *previous, content) {
                Kind::Make
            } else {
                Kind::Work
            }
        }
        Step::End => Kind::Place,
        _ => Kind::Work,
    }
}

/// The event of a call that is not answered.
fn call_next(version: u32, names: &[Named], frame: &Frame, call: Option<&Call>) -> Option<Kind>
    requires version { (version ≡ 1) ⊎ (version ≡ 2) }
    ensures { result ≡ next.call_next version names.now frame.now.at_byte frame.now.keys (option_copied call.entry) }
{
    let call = call?;
    Some(match call {
        Call::Create { .. } => record_next(version, names, &step_at(call, frame.at_byte)),
        Call::Exit => Kind::Work,
        _ => {
            if frame.keys.is_empty() {
                Kind::Place
            } else {
                Kind::Make
            }
        }
    })
}

/// A claim is asked first and looked at again then.
fn claim_next(claim: &Claim) -> Kind
    ensures { result ≡ next.claim_next claim.now }
{
    if claim.answer.is_some() {
        Kind::Recheck
    } else {
        Kind::Ask
    }
}

/// The next event of a frame without a receipt and a claim.
fn open_next(version: u32, names: &[Named], frame: &Frame, call: Option<&Call>) -> Option<Kind>
    requires version { (version ≡ 1) ⊎ (version ≡ 2) }
    ensures { result ≡ next.lets_next version names.now frame.now (option_copied call.entry) frame.now.lets }
{
    if !frame.lets.is_empty() {
        return Some(Kind::LetGo);
    }
    if frame.answered {
        return None;
    }
    call_next(version, names, frame, call)
}

/// The next event of a frame: a receipt comes before all else, then a claim.
fn frame_next(version: u32, names: &[Named], frame: &Frame, call: Option<&Call>) -> Option<Kind>
    requires version { (version ≡ 1) ⊎ (version ≡ 2) }
    ensures { result ≡ next.frame_next version names.now frame.now (option_copied call.entry) frame.now.receipt }
{
    if frame.receipt.is_some() {
        return Some(Kind::Refer);
    }
    match &frame.claim {
        Some(claim) => Some(claim_next(claim)),
        None => open_next(version, names, frame, call),
    }
}

/// The next event of a task, or none where it has nothing to do in this phase; so many phases have ended.
pub fn next_kind(
    scenario: &Scenario,
    places: &Places,
    machine: &Machine,
    phases: u32,
    task: u32,
) -> Option<Kind>
    requires version { (scenario.now.version ≡ 1) ⊎ (scenario.now.version ≡ 2) }
    requires places { ArePlaces scenario.now places.now }
    requires phases { phases ≡ phases_in machine.now.past }
    requires task { IsTaskOf machine.now task }
    ensures { result ≡ next.next_kind scenario.now machine.now task }
{
    let own = machine.task(task);
    match &own.frame {
        Some(frame) => frame_next(
            scenario.version,
            own.names.as_slice(),
            frame,
            places.call(scenario, task, own.begun),
        ),
        None => {
            if places.has_call(scenario, task, own.begun, phases) {
                Some(Kind::Begin)
            } else {
                None
            }
        }
    }
}
