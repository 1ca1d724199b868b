ghost use Rattle.std.specs.Prelude.{◌≡◌, ◌≤◌, ◌<◌, None, Some, IfOk, OnOk, IsTrue, length};
ghost use Rattle.vch_base.specs.declared.kind.Kind.TheVariants as kinds;
ghost use Rattle.vch_model.specs.Lines.{is_task};
ghost use Rattle.vch_parts.specs.Reached.{Reached, IsNext};
ghost use Rattle.vch_making.specs.Given.{IsRoomier};
ghost use Rattle.vch_making.specs.Answers.{question_of, place_of, HasRoom, IsPrepared, Answers};

use crate::flying::flying;
use crate::question::{Question, call_question, content_at};
use vch_base::{GetFault, Key, NoMemory, Value};
use vch_parts::{Frame, Parts};
use vch_value::Made;

/// What a task's call asks, or nothing where it asks no manager.
pub fn read_question(parts: &Parts, task: u32) -> Option<Question>
    requires reached { Reached parts.now }
    requires task { IsTrue (is_task parts.now.scenario task) }
    ensures { result ≡ question_of parts.now task }
{
    let working = parts.frames.at(task);
    let Some(frame) = &working.frame else {
        return None;
    };
    let Some(forming) = &frame.forming else {
        return None;
    };
    let Some(call) = parts.scenario.call(task, working.begun) else {
        return None;
    };
    call_question(parts, task, call, frame, forming)
}

/// Makes room for a fresh value of a key: in the history, for its Made entry and for the Released entry that it owes then, and for
/// the number of its Made entry.
///
/// # Errors
///
/// Out of memory alone. What room was made stays.
fn make_room(parts: &mut Parts, task: u32, key: Key) -> Result<(), NoMemory>
    requires reached { Reached parts.old }
    requires task { IsTrue (is_task parts.old.scenario task) }
    ensures roomier { IsRoomier parts.old parts.new }
    ensures room { OnOk result (HasRoom key parts.new) }
{
    let _ = task;
    let live = parts.values.live() as usize;
    let owed = 2 * parts.scenario.calls() + parts.scenario.scenario().phases.len() + live;
    parts.history.reserve(owed + 2)?;
    let handles = parts.values.handles(key);
    parts.values.reserve_number(key, handles as u32)
}

/// The place of a frame in the bytes of its call.
fn place(frame: &Option<Frame>) -> usize
    ensures { result ≡ place_of frame.now }
{
    match frame {
        Some(frame) => frame.at,
        None => 0,
    }
}

/// The value that a manager of bytes would hand out for the first time. Of any other key it is not looked at.
///
/// # Errors
///
/// Out of memory alone.
fn prepared(parts: &Parts, task: u32, key: Key) -> Result<Value, NoMemory>
    requires reached { Reached parts.now }
    requires task { IsTrue (is_task parts.now.scenario task) }
    ensures { IfOk result (λ x. IsPrepared parts.now task key x) }
{
    match key {
        Key::Importance | Key::Bank => Ok(Value::Default),
        Key::User | Key::Test => {
            let working = parts.frames.at(task);
            let at = place(&working.frame);
            let content = content_at(&parts.scenario, task, working.begun, at);
            parts.values.user_value(content)
        }
    }
}

/// What has to be there before the manager of a key is asked: the value of a Made entry, and room.
///
/// # Errors
///
/// Out of memory alone. What room was made stays.
pub fn prepare(parts: &mut Parts, task: u32, key: Key) -> Result<Value, NoMemory>
    requires reached { Reached parts.old }
    requires task { IsTrue (is_task parts.old.scenario task) }
    ensures roomier { IsRoomier parts.old parts.new }
    ensures room { OnOk result (HasRoom key parts.new) }
    ensures value { IfOk result (λ x. IsPrepared parts.old task key x) }
{
    let value = prepared(parts, task, key)?;
    make_room(parts, task, key)?;
    Ok(value)
}

/// Asks the manager what the task's call wants.
///
/// # Errors
///
/// The manager's refusal, or out of memory. More places for entries may be there then, and nothing else changed.
pub fn ask(parts: &mut Parts, task: u32, question: Question) -> Result<Made, GetFault>
    requires reached { Reached parts.old }
    requires task { IsTrue (is_task parts.old.scenario task) }
    requires next { IsNext parts.old task (Some kinds.Make) }
    requires asked { question_of parts.old task ≡ Some question }
    ensures { Answers task question result parts.old parts.new }
{
    let tasks = parts.scenario.scenario().flags.len();
    let flying = flying(&parts.frames, tasks, question.key);
    let working = parts.frames.at(task);
    let at = place(&working.frame);
    let content = content_at(&parts.scenario, task, working.begun, at);
    parts.values.make(
        question.key,
        flying,
        task,
        question.command,
        question.previous,
        content,
    )
}
