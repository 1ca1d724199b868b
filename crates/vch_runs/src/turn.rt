ghost use Rattle.std.specs.Prelude.{◌≡◌, ◌<◌, ◌≤◌, ◌+◌, ◌-◌, ◌^◌, ◌∷◌, [], ℕ, length, replicate, slice_index_or, Some, None, IsTrue, true};
ghost use Rattle.vch_model.specs.Lines.{is_task, lines_until};
ghost use Rattle.vch_parts.specs.Reached.{Reached};
ghost use Rattle.vch_runs.specs.Turning.{IsTurn, IsCursor, IsPassed, CanGo, Goes, Turns, rewound, IsLowest, OfFrame, IsTaskOrNone, IsWaiting, IsStart, NoneBefore, AreOfTasks, lines_of_task};
ghost use Rattle.vch_runs.specs.Turning as turning;

use crate::events::event;
use std::alloc::Global;
use vch_model::LineList;
use vch_whole::Core;

/// Where a run in turn stands: how many lines of the phase it has passed, all of which were begun, and how many lines of
/// each task are before that, from the first phase on.
#[derive(Drop)]
pub struct Cursor {
    pub line: usize,
    pub passed: [u32; 64],
}

/// Counts the lines of each task.
fn pass_lines(lines: &LineList, passed: &mut [u32; 64])
    requires tasks { AreOfTasks lines.now }
    requires few { (i : ℕ) → slice_index_or passed.old i 0 + length lines.now < 2 ^ 32 }
    ensures long { length passed.new ≡ 64 }
    ensures counts { (t : ℕ) → 0 < t → t ≤ 64 → slice_index_or passed.new (t - 1) 0 ≡ slice_index_or passed.old (t - 1) 0 + lines_of_task t lines.now }
{
    for i in 0..lines.len() {
        passed[lines.at(i).task as usize - 1] += 1;
    }
}

/// A cursor before the first line of all.
fn first_cursor() -> Cursor
    ensures { result ≡ record { line = 0; passed = replicate 64 0 } }
{
    Cursor {
        line: 0,
        passed: [0; 64],
    }
}

/// A cursor before the first line of the phase that is under way.
pub fn start_cursor(core: &Core) -> Cursor
    ensures { IsCursor core.now result }
{
    core.know();
    let mut cursor = first_cursor();
    for i in 0..core.phase() as usize {
        pass_lines(core.scenario().phases.at(i), &mut cursor.passed);
    }
    cursor
}

/// The lowest task that has a frame, where none below `from` has one.
pub fn lowest_frame(core: &Core, from: u32) -> Option<u32>
    requires from { IsStart core.now from }
    ensures lowest { IsLowest core.now result }
    ensures can { OfFrame core.now result }
    ensures before { NoneBefore core.now result }
{
    core.know();
    for task in from..core.scenario().flags.len() as u32 + 1 {
        if core.has_frame(task) {
            return Some(task);
        }
    }
    None
}

/// The task of the first line of the phase that was not begun. The cursor passes the lines before it.
fn next_line(core: &Core, cursor: &mut Cursor) -> Option<u32>
    requires more { core.now.phase < length core.now.scenario.phases }
    requires cursor { IsCursor core.now cursor.old }
    ensures waiting { IsWaiting core.now result }
    ensures task { IsTaskOrNone core.now result }
    ensures cursor { IsCursor core.now cursor.new }
    ensures passed { IsPassed core.now result cursor.new }
{
    core.know();
    let lines = core.scenario().phases.at(core.phase() as usize);
    while cursor.line < lines.len() {
        let task = lines.at(cursor.line).task;
        let seat = task as usize - 1;
        if cursor.passed[seat] >= core.begun(task) {
            return Some(task);
        }
        cursor.passed[seat] += 1;
        cursor.line += 1;
    }
    None
}

/// The task whose turn it is, or none where the phase ends: the lowest one with a frame, else that of the first line that
/// was not begun.
fn next_turn(core: &Core, cursor: &mut Cursor, from: u32) -> Option<u32>
    requires more { core.now.phase < length core.now.scenario.phases }
    requires cursor { IsCursor core.now cursor.old }
    requires from { IsStart core.now from }
    ensures turn { IsTurn core.now result }
    ensures can { CanGo core.now result }
    ensures before { NoneBefore core.now result }
    ensures cursor { IsCursor core.now cursor.new }
    ensures passed { IsPassed core.now result cursor.new }
{
    core.know();
    match lowest_frame(core, from) {
        Some(task) => Some(task),
        None => next_line(core, cursor),
    }
}

/// The move that was chosen: an event of a task, or the end of the phase.
pub fn go(core: &mut Core, alloc: Global, choice: Option<u32>)
    requires can { CanGo core.old choice }
    ensures { Goes choice core.old core.new }
{
    core.know();
    match choice {
        Some(task) => {
            event(core, alloc, task);
        }
        None => {
            core.next_phase();
        }
    }
}

/// The cursor goes back to the first line where the phase ends.
fn rewind(cursor: &mut Cursor, choice: Option<u32>)
    ensures { cursor.new ≡ rewound choice cursor.old }
{
    if choice.is_none() {
        cursor.line = 0;
    }
}

/// Where the look for the lowest task with a frame starts after a move: at the task that went.
fn start_after(choice: Option<u32>) -> u32
    ensures { result ≡ turning.start_after choice }
{
    match choice {
        Some(task) => task,
        None => 1,
    }
}

/// One move in turn. The look for the lowest task with a frame starts at `from`, which is the task that went last: so a task
/// whose call is under way goes on without a look at the others.
pub fn turn(core: &mut Core, alloc: Global, cursor: &mut Cursor, from: &mut u32)
    requires more { core.old.phase < length core.old.scenario.phases }
    requires cursor { IsCursor core.old cursor.old }
    requires from { IsStart core.old from.old }
    ensures turn { Turns core.old core.new }
    ensures cursor { IsCursor core.new cursor.new }
    ensures from { IsStart core.new from.new }
{
    core.know();
    let choice = next_turn(core, cursor, *from);
    go(core, alloc, choice);
    rewind(cursor, choice);
    *from = start_after(choice);
}
