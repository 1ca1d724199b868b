ghost use Rattle.std.specs.Prelude.{◌≡◌, [], ◌∷◌, IfOk, map};
ghost use Rattle.vch_base.specs.declared.flags.Flags.{Flags};
ghost use Rattle.vch_model.specs.Scenarios.{IsLimited};
ghost use Rattle.vch_machine.specs.EndedRuns.{IsBySeed};
ghost use Rattle.vch_machine.specs.PlainRuns.{IsPlainRun};
ghost use Rattle.vch_machine.specs.State as state;
ghost use Rattle.vch_plain.specs.Played.{IsTold};
ghost use Rattle.vch_plain.specs.Turning.{IsGoing};

use crate::handles::Place;
use crate::machine::{Machine, Tally};
use crate::played::Played;
use crate::run::Run;
use crate::seed::finish_by_seed;
use crate::task::Tasked;
use crate::told::tell;
use crate::turn::finish;
use crate::values::{Living, Pool, Pools};
use std::alloc::Global;
use vch_base::{Key, NoMemory, Value};
use vch_model::{FlagList, History, Scenario};
use vch_script::places_of;
use vch_sums::Sums;

/// The tasks at the start.
fn start_tasks(alloc: Global, flags: &FlagList) -> Result<Vec<Tasked>, NoMemory>
    ensures { IfOk result (λ made. made.items ≡ map (λ (f : Flags). state.idle) flags.now) }
{
    let mut tasks = Vec::new(alloc);
    for _task in 0..flags.len() {
        tasks.push(Tasked::idle(alloc))?;
    }
    Ok(tasks)
}

/// The handles of a key at the start, of which so many are used.
fn start_pool(alloc: Global, used: u32) -> Pool
    ensures { result ≡ record { free = []; used = used } }
{
    Pool {
        free: Vec::new(alloc),
        used,
    }
}

/// The live values at the start: Default alone.
fn start_live(alloc: Global) -> Result<Vec<Living>, NoMemory>
    ensures { IfOk result (λ made. made.items ≡ state.default_living ∷ []) }
{
    let mut live = Vec::new(alloc);
    live.push(Living {
        place: Place {
            key: Key::Bank,
            handle: 0,
        },
        value: Value::Default,
        made: 0,
    })?;
    Ok(live)
}

/// The state at the start.
fn start(alloc: Global, scenario: &Scenario) -> Result<Machine, NoMemory>
    ensures { IfOk result (λ made. made ≡ state.start scenario.now) }
{
    let live = start_live(alloc)?;
    let tasks = start_tasks(alloc, &scenario.flags)?;
    Ok(Machine {
        live,
        pools: Pools {
            importance: start_pool(alloc, 0),
            bank: start_pool(alloc, 1),
            user: start_pool(alloc, 0),
            test: start_pool(alloc, 0),
        },
        tasks,
        history: History::new(alloc),
        tally: Tally {
            claims: 0,
            refers: 0,
            asks: 0,
        },
    })
}

/// A run before its first move.
fn begin(alloc: Global, scenario: &Scenario) -> Result<Run, NoMemory>
    requires limited { IsLimited scenario.now }
    ensures going { IfOk result (λ run. IsGoing scenario.now run) }
    ensures start { IfOk result (λ run. run.machine ≡ state.start scenario.now) }
{
    let machine = start(alloc, scenario)?;
    let sums = Sums::start(alloc, scenario)?;
    Ok(Run {
        machine,
        sums,
        phases: 0,
    })
}

/// Plays a scenario in turn, to the end of its last phase: the lowest task that has a call under way goes on, else the task of
/// the first line of the phase that was not begun. No call is answered out of memory.
///
/// It takes the time of the events, and for each of them time linear in the number of tasks, names, messages and live values.
///
/// # Errors
///
/// Out of memory, or of a number for what is counted.
pub fn play_plain(alloc: Global, scenario: &Scenario) -> Result<Played, NoMemory>
    requires limits { IsLimited scenario.now }
    ensures history { IfOk result (λ p. IsPlainRun scenario.now p.history.entries) }
    ensures told { IfOk result (λ p. IsTold scenario.now p) }
{
    let places = places_of(alloc, scenario)?;
    let mut run = begin(alloc, scenario)?;
    finish(&mut run, alloc, scenario, &places)?;
    let Run { machine, sums, .. } = run;
    tell(alloc, machine, &sums, scenario)
}

/// Plays a scenario by the schedule of a seed, to the end of its last phase: each event is that of a task which the seed chooses
/// among those that have one. No call is answered out of memory.
///
/// It takes the time of [`play_plain`].
///
/// # Errors
///
/// Out of memory, or of a number for what is counted.
pub fn play_seed(alloc: Global, scenario: &Scenario, seed: u64) -> Result<Played, NoMemory>
    requires limits { IsLimited scenario.now }
    ensures history { IfOk result (λ p. IsBySeed seed scenario.now p.history.entries) }
    ensures told { IfOk result (λ p. IsTold scenario.now p) }
{
    let places = places_of(alloc, scenario)?;
    let mut run = begin(alloc, scenario)?;
    finish_by_seed(&mut run, alloc, scenario, &places, seed)?;
    let Run { machine, sums, .. } = run;
    tell(alloc, machine, &sums, scenario)
}
