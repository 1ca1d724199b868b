ghost use Rattle.std.specs.Prelude.{◌≡◌, Some, IsSome, OnOk, false};
ghost use Rattle.vch_machine.specs.Events as events;
ghost use Rattle.vch_machine.specs.Schedules.{happens};
ghost use Rattle.vch_script.specs.Places.{ArePlaces};
ghost use Rattle.vch_plain.specs.Turning.{IsGoing, chosen_move};

use crate::events::event;
use crate::follow::follow;
use crate::machine::Machine;
use crate::numbers::after;
use std::alloc::Global;
use vch_base::NoMemory;
use vch_model::{Entry, Scenario};
use vch_script::Places;
use vch_sums::Sums;

/// A run that is under way: the state, what its history adds up, and how many phases have ended.
#[derive(Drop)]
pub struct Run {
    pub machine: Machine,
    pub sums: Sums,
    pub phases: u32,
}

/// The next event of a task.
fn step(
    run: &mut Run,
    alloc: Global,
    scenario: &Scenario,
    places: &Places,
    task: u32,
) -> Result<(), NoMemory>
    requires going { IsGoing scenario.now run.old }
    requires places { ArePlaces scenario.now places.now }
    requires can { IsSome (events.event scenario.now false run.old.machine task) }
    ensures moves { OnOk result (events.event scenario.now false run.old.machine task ≡ Some run.new.machine) }
    ensures going { OnOk result (IsGoing scenario.now run.new) }
{
    let before = run.machine.entries();
    event(
        &mut run.machine,
        alloc,
        &run.sums,
        scenario,
        places,
        run.phases,
        task,
    )?;
    follow(&mut run.sums, &run.machine, scenario, places, before)
}

/// The end of a phase.
fn end_phase(run: &mut Run, scenario: &Scenario) -> Result<(), NoMemory>
    requires going { IsGoing scenario.now run.old }
    requires can { IsSome (events.phase_event scenario.now run.old.machine) }
    ensures moves { OnOk result (events.phase_event scenario.now run.old.machine ≡ Some run.new.machine) }
    ensures going { OnOk result (IsGoing scenario.now run.new) }
{
    let _ = scenario;
    run.machine.note(Entry::Phase)?;
    run.phases = after(run.phases)?;
    Ok(())
}

/// The move that was chosen: an event of a task, or the end of the phase.
pub fn go(
    run: &mut Run,
    alloc: Global,
    scenario: &Scenario,
    places: &Places,
    choice: Option<u32>,
) -> Result<(), NoMemory>
    requires going { IsGoing scenario.now run.old }
    requires places { ArePlaces scenario.now places.now }
    requires can { IsSome (happens scenario.now run.old.machine (chosen_move choice)) }
    ensures moves { OnOk result (happens scenario.now run.old.machine (chosen_move choice) ≡ Some run.new.machine) }
    ensures going { OnOk result (IsGoing scenario.now run.new) }
{
    match choice {
        Some(task) => step(run, alloc, scenario, places, task),
        None => end_phase(run, scenario),
    }
}
