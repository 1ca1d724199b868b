ghost use Rattle.std.specs.Prelude.{◌≡◌, Some, IsSome, OnOk, false, length, replicate, reverse};
ghost use Rattle.vch_model.specs.Lines.{phases_in};
ghost use Rattle.vch_model.specs.Scenarios.{IsLimited};
ghost use Rattle.vch_machine.specs.PlainRuns.{IsPlainRun};
ghost use Rattle.vch_machine.specs.Schedules as schedules;
ghost use Rattle.vch_machine.specs.State as state;
ghost use Rattle.vch_script.specs.Places.{ArePlaces};
ghost use Rattle.vch_plain.specs.Turning.{IsCursor, IsGoing, IsPassed, all_of, chosen_move, rewound, turn_of, waiting_of};

use crate::machine::Machine;
use crate::run::{Run, go};
use std::alloc::Global;
use vch_base::NoMemory;
use vch_legal::{in_turn_ends, in_turn_is_a_run};
use vch_model::Scenario;
use vch_script::Places;

/// More moves than any run has.
pub const MOST_MOVES: u64 = 1099511627776;

/// Where a run in turn stands: how many lines of the phase it has passed, all of which were begun, and how many lines of
/// each task are before that, from the first phase on.
#[derive(Drop)]
pub struct Cursor {
    pub line: usize,
    pub passed: [u32; 64],
}

/// A cursor before the first line of all.
fn first_cursor() -> Cursor
    ensures { result ≡ record { line = 0; passed = replicate 64 0 } }
{
    Cursor {
        line: 0,
        passed: [0; 64],
    }
}

/// Whether all phases have ended.
pub fn has_ended(scenario: &Scenario, run: &Run) -> bool
    requires { run.now.phases ≡ phases_in run.now.machine.past }
    ensures { result ≡ schedules.has_ended scenario.now run.now.machine }
{
    run.phases as usize >= scenario.phases.len()
}

/// The lowest task that has a frame.
fn lowest_open(scenario: &Scenario, machine: &Machine) -> Option<u32>
    requires limited { IsLimited scenario.now }
    requires many { length machine.now.tasks ≡ length scenario.now.flags }
    ensures { result ≡ schedules.lowest_open machine.now (all_of scenario.now) }
{
    for task in 1..scenario.flags.len() as u32 + 1 {
        if machine.task(task).frame.is_some() {
            return Some(task);
        }
    }
    None
}

/// The task of the first line of the phase that was not begun. The cursor passes the lines before it.
fn next_line(scenario: &Scenario, run: &Run, cursor: &mut Cursor) -> Option<u32>
    requires going { IsGoing scenario.now run.now }
    requires more { schedules.has_ended scenario.now run.now.machine ≡ false }
    requires cursor { IsCursor scenario.now run.now.machine cursor.old }
    ensures waiting { result ≡ waiting_of scenario.now run.now.machine }
    ensures cursor { IsCursor scenario.now run.now.machine cursor.new }
    ensures passed { IsPassed scenario.now run.now.machine result cursor.new }
{
    let lines = scenario.phases.at(run.phases as usize);
    while cursor.line < lines.len() {
        let task = lines.at(cursor.line).task;
        let seat = task as usize - 1;
        if cursor.passed[seat] >= run.machine.task(task).begun {
            return Some(task);
        }
        cursor.passed[seat] += 1;
        cursor.line += 1;
    }
    None
}

/// The task whose turn it is, or none where the phase ends: the lowest one with a frame, else that of the first line that
/// was not begun.
fn next_turn(scenario: &Scenario, run: &Run, cursor: &mut Cursor) -> Option<u32>
    requires going { IsGoing scenario.now run.now }
    requires more { schedules.has_ended scenario.now run.now.machine ≡ false }
    requires cursor { IsCursor scenario.now run.now.machine cursor.old }
    ensures turn { result ≡ turn_of scenario.now run.now.machine }
    ensures cursor { IsCursor scenario.now run.now.machine cursor.new }
    ensures passed { IsPassed scenario.now run.now.machine result cursor.new }
{
    match lowest_open(scenario, &run.machine) {
        Some(task) => Some(task),
        None => next_line(scenario, run, cursor),
    }
}

/// The cursor goes back to the first line where the phase ends.
fn rewind(cursor: &mut Cursor, choice: Option<u32>)
    ensures { cursor.new ≡ rewound choice cursor.old }
{
    if choice.is_none() {
        cursor.line = 0;
    }
}

/// One move in turn.
fn turn(
    run: &mut Run,
    alloc: Global,
    scenario: &Scenario,
    places: &Places,
    cursor: &mut Cursor,
) -> Result<(), NoMemory>
    requires going { IsGoing scenario.now run.old }
    requires places { ArePlaces scenario.now places.now }
    requires more { schedules.has_ended scenario.now run.old.machine ≡ false }
    requires cursor { IsCursor scenario.now run.old.machine cursor.old }
    requires can { IsSome (schedules.happens scenario.now run.old.machine (chosen_move (turn_of scenario.now run.old.machine))) }
    ensures moves { OnOk result (schedules.happens scenario.now run.old.machine (chosen_move (turn_of scenario.now run.old.machine)) ≡ Some run.new.machine) }
    ensures going { OnOk result (IsGoing scenario.now run.new) }
    ensures cursor { OnOk result (IsCursor scenario.now run.new.machine cursor.new) }
{
    let choice = next_turn(scenario, run, cursor);
    go(run, alloc, scenario, places, choice)?;
    rewind(cursor, choice);
    Ok(())
}

/// Runs to the end, in turn: the lowest task that has a call under way goes on, else the task of the first line of the
/// phase that was not begun, and where there is none the phase ends.
pub fn finish(
    run: &mut Run,
    alloc: Global,
    scenario: &Scenario,
    places: &Places,
) -> Result<(), NoMemory>
    requires going { IsGoing scenario.now run.old }
    requires places { ArePlaces scenario.now places.now }
    requires start { run.old.machine ≡ state.start scenario.now }
    ensures going { OnOk result (IsGoing scenario.now run.new) }
    ensures plain { OnOk result (IsPlainRun scenario.now (reverse run.new.machine.past)) }
{
    in_turn_is_a_run();
    in_turn_ends();
    let mut cursor = first_cursor();
    for _move in 0..MOST_MOVES {
        if has_ended(scenario, run) {
            return Ok(());
        }
        turn(run, alloc, scenario, places, &mut cursor)?;
    }
    Ok(())
}
