ghost use Rattle.std.specs.Prelude.{◌≡◌, ◌<◌, ◌≤◌, ℕ, List, Result, codes};
ghost use Rattle.vch_scenario.specs.Reading.{Tells};
ghost use Rattle.vch_scenario.specs.Calls as calls;

use crate::fault::Why;
use vch_base::Flags;
use vch_base::limits::{LARGEST_QUEUE, MOST_TASKS, USUAL_QUEUE};
use vch_text::{front, is_word, number_in, one_number, word};

/// A number from 1 to the most.
#[tactic(auto, unfolding(crate::specs::Calls::up_to))]
pub fn up_to(most: u32, n: u64) -> Result<u32, Why>
    ensures { Tells (λ x. x) result (calls.up_to most n) }
{
    if n > 0 && n <= u64::from(most) {
        Ok(n as u32)
    } else {
        Err(Why::Range)
    }
}

/// That the word is this one.
#[tactic(auto, unfolding(crate::specs::Calls::word_is))]
pub fn word_is(text: &[u8], word: &[u8]) -> Result<(), Why>
    ensures { Tells (λ x. x) result (calls.word_is text.now word.now) }
{
    if is_word(word, text) {
        Ok(())
    } else {
        Err(Why::Form)
    }
}

/// The version of a text, by its first line.
#[tactic(auto, unfolding(crate::specs::Calls::version_of))]
pub fn version_of(line: &[u8]) -> Result<u32, Why>
    ensures { Tells (λ x. x) result (calls.version_of line.now) }
{
    if is_word(line, b"vouch 1") {
        Ok(1)
    } else if is_word(line, b"vouch 2") {
        Ok(2)
    } else {
        Err(Why::Form)
    }
}

/// The number of tasks.
#[tactic(auto, unfolding(crate::specs::Calls::tasks_of))]
pub fn tasks_of(line: &[u8]) -> Result<u32, Why>
    ensures { Tells (λ x. x) result (calls.tasks_of line.now) }
{
    let (name, rest) = front(b' ', line);
    word_is(b"tasks", name)?;
    let n = one_number(rest).ok_or(Why::Form)?;
    up_to(MOST_TASKS as u32, n)
}

/// What the line of a task tells.
#[derive(Clone, Copy)]
pub struct TaskLine {
    pub flags: Flags,
    /// The messages that its queue may have.
    pub queue: u32,
}

/// Whether the next word is this one, and what is left of the line behind it: all, where it isn't.
#[tactic(auto, unfolding(crate::specs::Calls::flag_at))]
fn flag<'a>(text: &[u8], rest: &'a [u8]) -> (bool, &'a [u8])
    ensures { calls.flag_at text.now rest.now ≡ (result.0, result.1.now) }
{
    if let Some((name, more)) = word(rest) {
        if is_word(name, text) {
            return (true, more);
        }
    }
    (false, rest)
}

/// The limit that a line writes of a queue.
#[tactic(auto, unfolding(crate::specs::Calls::written_queue))]
fn written_queue(rest: &[u8]) -> Result<u64, Why>
    ensures { Tells (λ x. x) result (calls.written_queue rest.now) }
{
    let (name, rest) = word(rest).ok_or(Why::Form)?;
    word_is(b"queue", name)?;
    let n = one_number(rest).ok_or(Why::Form)?;
    Ok(n)
}

/// The limit that is written of a queue, in a text of version 2 alone; none where nothing is left of the line.
fn queue(version: u32, rest: &[u8]) -> Result<Option<u64>, Why>
    ensures { Tells (λ x. x) result (calls.queue_of version rest.now) }
{
    match rest {
        [] => Ok(None),
        _ => {
            if version == 2 {
                Ok(Some(written_queue(rest)?))
            } else {
                Err(Why::Form)
            }
        }
    }
}

/// What stands behind the number of a task.
#[tactic(auto, unfolding(crate::specs::Calls::tail_of))]
fn tail(version: u32, rest: &[u8]) -> Result<(Flags, Option<u64>), Why>
    ensures { Tells (λ x. x) result (calls.tail_of version rest.now) }
{
    let (donor, rest) = flag(b"donor", rest);
    let (receiver, rest) = flag(b"receiver", rest);
    let queue = queue(version, rest)?;
    Ok((Flags { donor, receiver }, queue))
}

/// The limit of a queue, and the usual one where none is written.
#[tactic(auto, unfolding(crate::specs::Calls::limit_of))]
fn limit(written: Option<u64>) -> Result<u32, Why>
    ensures { Tells (λ x. x) result (calls.limit_of written) }
{
    match written {
        None => Ok(USUAL_QUEUE),
        Some(n) => up_to(LARGEST_QUEUE, n),
    }
}

/// That the number is this one.
#[tactic(auto, unfolding(crate::specs::Calls::number_is))]
fn number_is(wanted: u32, n: u64) -> Result<(), Why>
    ensures { Tells (λ x. x) result (calls.number_is wanted n) }
{
    if n == u64::from(wanted) {
        Ok(())
    } else {
        Err(Why::Range)
    }
}

/// The line of the task with this number, in a text of the version.
#[tactic(auto, unfolding(crate::specs::Calls::task_of))]
pub fn task_of(version: u32, number: u32, line: &[u8]) -> Result<TaskLine, Why>
    ensures { Tells (λ x. x) result (calls.task_of version number line.now) }
{
    let (name, rest) = front(b' ', line);
    word_is(b"task", name)?;
    let (n, rest) = number_in(rest).ok_or(Why::Form)?;
    let (flags, written) = tail(version, rest)?;
    number_is(number, n)?;
    let queue = limit(written)?;
    Ok(TaskLine { flags, queue })
}
