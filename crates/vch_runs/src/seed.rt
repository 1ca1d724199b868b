ghost use Rattle.std.specs.Prelude.{◌≡◌, ◌<◌, ◌≤◌, ◌++◌, ◌∷◌, [], length, IfSome, IsTrue};
ghost use Rattle.vch_machine.specs.Schedules as schedules;
ghost use Rattle.vch_model.specs.Lines.{is_task};
ghost use Rattle.vch_runs.specs.GivesBack.{GivesBack};
ghost use Rattle.vch_runs.specs.Runs.{EndsBySeed};
ghost use Rattle.vch_runs.specs.Turning.{AreReady, CanGo, Draws, IsDraw, IsReady, StillReady};

use crate::ends::MOST_MOVES;
use crate::turn::go;
use arrayvec::ArrayVec;
use std::alloc::Global;
use vch_legal::all_is_given_back;
use vch_whole::Core;

/// The seed behind another one, by a linear congruence modulo 2 to the 64.
fn next_seed(seed: u64) -> u64
    ensures { result ≡ schedules.next_seed seed }
{
    seed.wrapping_mul(6364136223846793005)
        .wrapping_add(1442695040888963407)
}

/// Whether a task has a next event. A call under way has one, whatever its kind, so that its record isn't looked at.
fn is_ready(core: &Core, task: u32) -> bool
    requires task { IsTrue (is_task core.now.scenario task) }
    ensures { IsReady core.now task result }
{
    core.know();
    if core.has_frame(task) {
        return true;
    }
    core.next_kind(task).is_some()
}

/// The tasks that have a next event, in rising order.
fn ready_tasks(core: &Core) -> ArrayVec<u32, 64>
    ensures { AreReady core.now result.items }
{
    core.know();
    let mut tasks = ArrayVec::new();
    for task in 1..core.scenario().flags.len() as u32 + 1 {
        if is_ready(core, task) {
            tasks.push(task);
        }
    }
    tasks
}

/// Whether the task that was chosen has a next event; not where none was.
fn still_ready(core: &Core, choice: Option<u32>) -> bool
    requires { IfSome choice (λ t. IsTrue (is_task core.now.scenario t)) }
    ensures { StillReady core.now choice result }
{
    match choice {
        Some(task) => is_ready(core, task),
        None => false,
    }
}

/// The task that the seed chooses among those that have a next event, or none where the phase ends. The seed goes on where
/// there is one.
fn draw(core: &Core, seed: &mut u64, tasks: &ArrayVec<u32, 64>) -> Option<u32>
    requires more { core.now.phase < length core.now.scenario.phases }
    requires ready { AreReady core.now tasks.now.items }
    ensures draw { IsDraw core.now seed.old result seed.new }
    ensures can { CanGo core.now result }
{
    core.know();
    if tasks.is_empty() {
        return None;
    }
    *seed = next_seed(*seed);
    let at = (*seed >> 33) as usize % tasks.len();
    Some(tasks[at])
}

/// One move by the seed. The tasks that have a next event stay the same where the one that went has one more, since an event
/// is the task's own; else they are found again.
fn drawn_move(core: &mut Core, alloc: Global, seed: &mut u64, tasks: &mut ArrayVec<u32, 64>)
    requires more { core.old.phase < length core.old.scenario.phases }
    requires ready { AreReady core.old tasks.old.items }
    ensures draws { Draws seed.old seed.new core.old core.new }
    ensures ready { AreReady core.new tasks.new.items }
{
    core.know();
    let choice = draw(core, seed, tasks);
    go(core, alloc, choice);
    core.know();
    if !still_ready(core, choice) {
        *tasks = ready_tasks(core);
    }
}

/// Runs a core to the end by the schedule of a seed: each event is that of a task which the seed chooses among those that
/// have one, and where none has one the phase ends. Afterwards all phases have ended; and where the last one has exits alone,
/// at least one of each task, all is given back.
///
/// A draw is the upper 31 bits of the next seed, modulo the number of those tasks, which count from the lowest. It takes
/// the time of the events; time linear in the number of tasks is taken once for each phase, and for each task in it that has
/// no more to do.
pub fn drive_seed(core: &mut Core, alloc: Global, seed: u64)
    ensures ends { EndsBySeed seed core.old core.new }
    ensures given_back { GivesBack core.new }
{
    all_is_given_back();
    core.know();
    let mut now = seed;
    let mut tasks = ready_tasks(core);
    for _move in 0..MOST_MOVES {
        core.know();
        if core.ended() {
            return;
        }
        drawn_move(core, alloc, &mut now, &mut tasks);
    }
}
