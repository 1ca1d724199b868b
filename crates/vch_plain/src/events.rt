ghost use Rattle.std.specs.Prelude.{◌≡◌, ◌⊎◌, Some, IsSome, OnOk, true, false};
ghost use Rattle.std.specs.Option.{option_copied};
ghost use Rattle.vch_model.specs.Legal as legal;
ghost use Rattle.vch_model.specs.declared.call.Call.TheVariants as calls;
ghost use Rattle.vch_model.specs.Lines.{is_task, phases_in};
ghost use Rattle.vch_model.specs.Scenarios.{IsLimited};
ghost use Rattle.vch_machine.specs.Events as events;
ghost use Rattle.vch_machine.specs.Leaving as leaving;
ghost use Rattle.vch_machine.specs.Making as making;
ghost use Rattle.vch_machine.specs.Next as next;
ghost use Rattle.vch_machine.specs.Placing as placing;
ghost use Rattle.vch_machine.specs.State as state;
ghost use Rattle.vch_legal.specs.Tie.{Ties};
ghost use Rattle.vch_script.specs.Places.{ArePlaces};
ghost use Rattle.vch_plain.specs.Acts as acts;
ghost use Rattle.vch_plain.specs.Asking.{AllHaveTask, HasFlags};
ghost use Rattle.vch_plain.specs.Keeping.{Keeps};
ghost use Rattle.vch_plain.specs.Machines.{IsTaskOf, HaveLimits, SendsToTask};

use crate::beginning::do_begin;
use crate::copy::copy_frame;
use crate::exits::do_exit;
use crate::frames::refuse;
use crate::handles::Handles;
use crate::leaving::{do_ask, do_let_go, do_recheck};
use crate::machine::Machine;
use crate::making::{do_make, do_refer};
use crate::next::next_kind;
use crate::placing::{is_full, place_create, place_recv, place_send};
use crate::task::Frame;
use crate::working::do_work;
use std::alloc::Global;
use vch_base::codes::MACH_SEND_TIMED_OUT;
use vch_base::{Kind, NoMemory};
use vch_model::{Call, Scenario};
use vch_script::Places;
use vch_sums::Sums;

/// The call that a task has begun last.
fn current<'a>(
    scenario: &'a Scenario,
    places: &Places,
    machine: &Machine,
    task: u32,
) -> Option<&'a Call>
    requires places { ArePlaces scenario.now places.now }
    requires task { IsTaskOf machine.now task }
    ensures { option_copied result ≡ next.current scenario.now machine.now task }
{
    places.call(scenario, task, machine.task(task).begun)
}

/// Whether a call is an exit.
fn is_exit(call: &Call) -> bool
    ensures { result ≡ legal.is_exit call.now }
{
    matches!(call, Call::Exit)
}

/// Work of a call: of an exit, or of one that forms a voucher.
#[tactic(auto, using(crate::proofs::Acting::works))]
fn work_call(
    machine: &mut Machine,
    alloc: Global,
    version: u32,
    task: u32,
    frame: Frame,
    call: &Call,
) -> Result<(), NoMemory>
    requires version { (version ≡ 1) ⊎ (version ≡ 2) }
    requires task { IsTaskOf machine.old task }
    requires can { IsSome (events.work_event version machine.old task frame (Some call.now)) }
    ensures { OnOk result (events.work_event version machine.old task frame (Some call.now) ≡ Some machine.new) }
{
    if is_exit(call) {
        return do_exit(machine, task, frame);
    }
    let Some(map) = frame.forming else {
        unreachable!()
    };
    do_work(machine, alloc, version, task, frame, &map, call)
}

/// The end of a send: it is refused where the queue is full.
fn send_or_refuse(
    machine: &mut Machine,
    scenario: &Scenario,
    task: u32,
    frame: Frame,
    map: &Handles,
    call: &Call,
    to: u32,
    moving: bool,
    name: u32,
    id: u32,
) -> Result<(), NoMemory>
    requires task { IsTaskOf machine.old task }
    requires to { IsTaskOf machine.old to }
    requires limits { HaveLimits scenario.now machine.old }
    requires call { call.now ≡ calls.Send to moving name id }
    ensures { OnOk result (placing.do_place scenario.now false machine.old task frame map.now call.now ≡ Some machine.new) }
{
    if is_full(scenario, machine, to) {
        return refuse(machine, task, frame, call, MACH_SEND_TIMED_OUT);
    }
    place_send(machine, task, frame, map, call, to, moving, name, id)
}

/// The end of a create, a send or a recv.
fn place_call(
    machine: &mut Machine,
    scenario: &Scenario,
    task: u32,
    frame: Frame,
    map: &Handles,
    call: &Call,
) -> Result<(), NoMemory>
    requires task { IsTaskOf machine.old task }
    requires limits { HaveLimits scenario.now machine.old }
    requires sends { SendsToTask machine.old call.now }
    requires can { IsSome (placing.do_place scenario.now false machine.old task frame map.now call.now) }
    ensures { OnOk result (placing.do_place scenario.now false machine.old task frame map.now call.now ≡ Some machine.new) }
{
    match call {
        Call::Create { .. } => place_create(machine, task, frame, map, call),
        Call::Send {
            to,
            moving,
            name,
            id,
        } => send_or_refuse(
            machine, scenario, task, frame, map, call, *to, *moving, *name, *id,
        ),
        Call::Recv => place_recv(machine, task, frame, map, call),
        _ => unreachable!(),
    }
}

/// An event of a call that forms a voucher, or of an exit.
fn call_event(
    machine: &mut Machine,
    alloc: Global,
    scenario: &Scenario,
    task: u32,
    frame: Frame,
    call: &Call,
    kind: Kind,
) -> Result<(), NoMemory>
    requires limited { IsLimited scenario.now }
    requires task { IsTaskOf machine.old task }
    requires flags { HasFlags scenario.now task }
    requires limits { HaveLimits scenario.now machine.old }
    requires have { AllHaveTask machine.old.live }
    requires sends { SendsToTask machine.old call.now }
    requires can { IsSome (acts.call_event scenario.now machine.old task frame call.now kind) }
    ensures { OnOk result (acts.call_event scenario.now machine.old task frame call.now kind ≡ Some machine.new) }
{
    if kind == Kind::Work {
        return work_call(machine, alloc, scenario.version, task, frame, call);
    }
    let Some(map) = frame.forming else {
        unreachable!()
    };
    match kind {
        Kind::Make => do_make(machine, alloc, scenario, task, frame, &map, call),
        Kind::Refer => refer_call(machine, alloc, scenario.version, task, frame, &map, call),
        Kind::Place => place_call(machine, scenario, task, frame, &map, call),
        _ => unreachable!(),
    }
}

/// Refer, where there is a receipt.
fn refer_call(
    machine: &mut Machine,
    alloc: Global,
    version: u32,
    task: u32,
    frame: Frame,
    map: &Handles,
    call: &Call,
) -> Result<(), NoMemory>
    requires task { IsTaskOf machine.old task }
    requires can { IsSome frame.receipt }
    ensures { OnOk result (events.on_place (λ p. making.do_refer version machine.old task frame map.now call.now p) frame.receipt ≡ Some machine.new) }
{
    let Some(place) = frame.receipt else {
        unreachable!()
    };
    do_refer(machine, alloc, version, task, frame, map, call, &place)
}

/// LetGo, where there is something to be let go.
fn let_go_event(
    machine: &mut Machine,
    alloc: Global,
    task: u32,
    frame: Frame,
) -> Result<(), NoMemory>
    requires task { IsTaskOf machine.old task }
    requires can { IsSome (events.on_lets (λ p rest. leaving.do_let_go machine.old task frame p rest) frame.lets) }
    ensures { OnOk result (events.on_lets (λ p rest. leaving.do_let_go machine.old task frame p rest) frame.lets ≡ Some machine.new) }
{
    let mut frame = frame;
    if frame.lets.is_empty() {
        unreachable!()
    }
    let place = frame.lets.remove(0);
    do_let_go(machine, alloc, task, frame, &place)
}

/// Ask or Recheck, where there is a claim.
fn claim_event(machine: &mut Machine, task: u32, frame: Frame, kind: Kind) -> Result<(), NoMemory>
    requires task { IsTaskOf machine.old task }
    requires can { IsSome (acts.claim_event machine.old task frame kind) }
    ensures { OnOk result (acts.claim_event machine.old task frame kind ≡ Some machine.new) }
{
    let mut frame = frame;
    let Some(claim) = frame.claim.take() else {
        unreachable!()
    };
    match kind {
        Kind::Ask => do_ask(machine, task, frame, claim),
        Kind::Recheck => {
            do_recheck(machine, task, frame, &claim);
            Ok(())
        }
        _ => unreachable!(),
    }
}

/// An event of a task that has a frame.
fn frame_event(
    machine: &mut Machine,
    alloc: Global,
    scenario: &Scenario,
    places: &Places,
    task: u32,
    frame: Frame,
    kind: Kind,
) -> Result<(), NoMemory>
    requires limited { IsLimited scenario.now }
    requires places { ArePlaces scenario.now places.now }
    requires ties { Ties scenario.now machine.old }
    requires own { is_task scenario.now task ≡ true }
    requires frame { (state.tasked machine.old task).frame ≡ Some frame }
    requires can { IsSome (events.frame_event scenario.now false machine.old task frame kind) }
    ensures { OnOk result (events.frame_event scenario.now false machine.old task frame kind ≡ Some machine.new) }
{
    match kind {
        Kind::LetGo => let_go_event(machine, alloc, task, frame),
        Kind::Ask | Kind::Recheck => claim_event(machine, task, frame, kind),
        _ => {
            let Some(call) = current(scenario, places, machine, task) else {
                unreachable!()
            };
            call_event(machine, alloc, scenario, task, frame, call, kind)
        }
    }
}

/// The next event of a task that has one; so many phases have ended.
pub fn event(
    machine: &mut Machine,
    alloc: Global,
    sums: &Sums,
    scenario: &Scenario,
    places: &Places,
    phases: u32,
    task: u32,
) -> Result<(), NoMemory>
    requires keeps { Keeps scenario.now machine.old sums.now }
    requires places { ArePlaces scenario.now places.now }
    requires phases { phases ≡ phases_in machine.old.past }
    requires own { is_task scenario.now task ≡ true }
    requires can { IsSome (events.event scenario.now false machine.old task) }
    ensures { OnOk result (events.event scenario.now false machine.old task ≡ Some machine.new) }
{
    let Some(kind) = next_kind(scenario, places, machine, phases, task) else {
        unreachable!()
    };
    match &machine.task(task).frame {
        Some(frame) => {
            let copy = copy_frame(alloc, frame)?;
            frame_event(machine, alloc, scenario, places, task, copy, kind)
        }
        None => do_begin(machine, alloc, sums, scenario, places, task),
    }
}
