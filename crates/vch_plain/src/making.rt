ghost use Rattle.std.specs.Prelude.{◌≡◌, ◌⊎◌, ◌++◌, Some, None, Ok, IsSome, OnOk, false};
ghost use Rattle.vch_base.specs.Keyed.{of_key, with_key};
ghost use Rattle.vch_machine.specs.Making as making;
ghost use Rattle.vch_machine.specs.Naming as naming;
ghost use Rattle.vch_machine.specs.State as state;
ghost use Rattle.vch_plain.specs.Answers.{HasAnswer, HasTask, replied};
ghost use Rattle.vch_plain.specs.Asking.{AllHaveTask, HasFlags};
ghost use Rattle.vch_plain.specs.Machines.{IsTaskOf};

use crate::answers::Answer;
use crate::asking::{Asked, asked_by};
use crate::claims::Mark;
use crate::frames::refuse;
use crate::handles::{Handles, Place};
use crate::lets::push_item;
use crate::machine::Machine;
use crate::mint::mint;
use crate::moving::move_on;
use crate::task::Frame;
use crate::values::handle_of;
use std::alloc::Global;
use vch_base::{Key, NoMemory, Value};
use vch_model::{Call, Scenario};

/// The frame gets the receipt for a place, and the claims there are raced.
fn give_receipt(machine: &mut Machine, task: u32, frame: Frame, place: Place)
    requires task { IsTaskOf machine.old task }
    ensures { machine.new ≡ making.given_receipt machine.old task frame place }
{
    let mut frame = frame;
    frame.receipt = Some(place);
    machine.set_frame(task, Some(frame));
    machine.mark(Mark::Raced, &place);
}

/// The receipt for a value's handle, or for a new one where the value is not live.
fn make_at(
    machine: &mut Machine,
    alloc: Global,
    task: u32,
    frame: Frame,
    key: Key,
    value: Value,
) -> Result<(), NoMemory>
    requires task { IsTaskOf machine.old task }
    requires value { HasTask value }
    ensures { OnOk result (machine.new ≡ making.made_at machine.old task frame key value (state.handle_of machine.old.live key value)) }
{
    match handle_of(machine.live.as_slice(), key, &value) {
        Some(handle) => give_receipt(machine, task, frame, Place { key, handle }),
        None => {
            let handle = mint(machine, alloc, key, value)?;
            give_receipt(machine, task, frame, Place { key, handle });
        }
    }
    Ok(())
}

/// The map loses a key, since its manager answered no value.
fn lose_key(
    machine: &mut Machine,
    alloc: Global,
    version: u32,
    task: u32,
    frame: Frame,
    map: &Handles,
    call: &Call,
    key: Key,
) -> Result<(), NoMemory>
    requires task { IsTaskOf machine.old task }
    ensures { OnOk result (machine.new ≡ making.make_done version machine.old task frame map.now call.now key (Ok None)) }
{
    let mut frame = frame;
    push_item(&mut frame.lets, key, map.at(key))?;
    let mut forming = *map;
    forming.set(key, None);
    frame.forming = Some(forming);
    machine.set_frame(task, Some(move_on(alloc, version, call, frame)?));
    Ok(())
}

/// A refusal answers the call; without a value the map loses the key; a value gives a receipt.
fn make_done(
    machine: &mut Machine,
    alloc: Global,
    version: u32,
    task: u32,
    frame: Frame,
    map: &Handles,
    call: &Call,
    asked: Asked,
) -> Result<(), NoMemory>
    requires task { IsTaskOf machine.old task }
    requires answer { HasAnswer asked.answer }
    ensures { OnOk result (machine.new ≡ making.make_done version machine.old task frame map.now call.now asked.key (replied asked.answer)) }
{
    let Asked { key, answer } = asked;
    match answer {
        Answer::Refused { code } => refuse(machine, task, frame, call, code.number()),
        Answer::Nothing => lose_key(machine, alloc, version, task, frame, map, call, key),
        Answer::Value { value } => make_at(machine, alloc, task, frame, key, value),
    }
}

/// Make: the manager of a key is asked for a value.
pub fn do_make(
    machine: &mut Machine,
    alloc: Global,
    scenario: &Scenario,
    task: u32,
    frame: Frame,
    map: &Handles,
    call: &Call,
) -> Result<(), NoMemory>
    requires version { (scenario.now.version ≡ 1) ⊎ (scenario.now.version ≡ 2) }
    requires task { IsTaskOf machine.old task }
    requires flags { HasFlags scenario.now task }
    requires have { AllHaveTask machine.old.live }
    requires can { IsSome (making.do_make scenario.now false machine.old task frame map.now call.now) }
    ensures { OnOk result (making.do_make scenario.now false machine.old task frame map.now call.now ≡ Some machine.new) }
{
    let Some(asked) = asked_by(alloc, scenario, machine, task, &frame, map, call)? else {
        unreachable!()
    };
    make_done(
        machine,
        alloc,
        scenario.version,
        task,
        frame,
        map,
        call,
        asked,
    )
}

/// Refer: the receipt's handle stands at its key, and the one that was there is let go.
pub fn do_refer(
    machine: &mut Machine,
    alloc: Global,
    version: u32,
    task: u32,
    frame: Frame,
    map: &Handles,
    call: &Call,
    place: &Place,
) -> Result<(), NoMemory>
    requires task { IsTaskOf machine.old task }
    ensures { OnOk result (machine.new ≡ making.do_refer version machine.old task frame map.now call.now place.now) }
{
    let mut frame = frame;
    push_item(&mut frame.lets, place.key, map.at(place.key))?;
    let mut forming = *map;
    forming.set(place.key, Some(place.handle));
    frame.forming = Some(forming);
    frame.receipt = None;
    let moved = move_on(alloc, version, call, frame)?;
    machine.mark(Mark::Back, place);
    machine.set_frame(task, moved.closed());
    machine.count_refer()
}
