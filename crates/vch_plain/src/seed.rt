ghost use Rattle.std.specs.Prelude.{◌≡◌, OnOk, reverse};
ghost use Rattle.vch_machine.specs.EndedRuns.{IsBySeed};
ghost use Rattle.vch_machine.specs.Schedules as schedules;
ghost use Rattle.vch_machine.specs.State as state;
ghost use Rattle.vch_script.specs.Places.{ArePlaces};
ghost use Rattle.vch_plain.specs.Turning.{IsDraw, IsGoing, ready_of};

use crate::next::next_kind;
use crate::run::{Run, go};
use crate::turn::{MOST_MOVES, has_ended};
use arrayvec::ArrayVec;
use std::alloc::Global;
use vch_base::NoMemory;
use vch_legal::{by_seed_ends, by_seed_is_a_run};
use vch_model::Scenario;
use vch_script::Places;

/// The seed behind another one, by a linear congruence modulo 2 to the 64.
fn next_seed(seed: u64) -> u64
    ensures { result ≡ schedules.next_seed seed }
{
    seed.wrapping_mul(6364136223846793005)
        .wrapping_add(1442695040888963407)
}

/// The tasks that have a next event, in rising order.
fn ready_tasks(scenario: &Scenario, places: &Places, run: &Run) -> ArrayVec<u32, 64>
    requires going { IsGoing scenario.now run.now }
    requires places { ArePlaces scenario.now places.now }
    ensures { result.items ≡ ready_of scenario.now run.now.machine }
{
    let mut tasks = ArrayVec::new();
    for task in 1..scenario.flags.len() as u32 + 1 {
        if next_kind(scenario, places, &run.machine, run.phases, task).is_some() {
            tasks.push(task);
        }
    }
    tasks
}

/// The task that the seed chooses among those that have a next event, or none where the phase ends. The seed goes on where
/// there is one.
fn draw(scenario: &Scenario, places: &Places, run: &Run, seed: &mut u64) -> Option<u32>
    requires going { IsGoing scenario.now run.now }
    requires places { ArePlaces scenario.now places.now }
    ensures { IsDraw scenario.now run.now.machine seed.old result seed.new }
{
    let tasks = ready_tasks(scenario, places, run);
    if tasks.is_empty() {
        return None;
    }
    *seed = next_seed(*seed);
    let at = (*seed >> 33) as usize % tasks.len();
    Some(tasks[at])
}

/// Runs to the end by the schedule of a seed: each event is that of a task which the seed chooses among those that have
/// one, and where none has one the phase ends.
pub fn finish_by_seed(
    run: &mut Run,
    alloc: Global,
    scenario: &Scenario,
    places: &Places,
    seed: u64,
) -> Result<(), NoMemory>
    requires going { IsGoing scenario.now run.old }
    requires places { ArePlaces scenario.now places.now }
    requires start { run.old.machine ≡ state.start scenario.now }
    ensures going { OnOk result (IsGoing scenario.now run.new) }
    ensures seeded { OnOk result (IsBySeed seed scenario.now (reverse run.new.machine.past)) }
{
    by_seed_is_a_run();
    by_seed_ends();
    let mut now = seed;
    for _move in 0..MOST_MOVES {
        if has_ended(scenario, run) {
            return Ok(());
        }
        let choice = draw(scenario, places, run, &mut now);
        go(run, alloc, scenario, places, choice)?;
    }
    Ok(())
}
