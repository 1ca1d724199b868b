ghost use Rattle.std.specs.Prelude.{◌≡◌, ◌≢◌, ◌<◌, ◌≤◌, ◌+◌, ◌∷◌, ◌++◌, [], ℕ, List, length, codes, IfSome, IfNone, IfOk};
ghost use Rattle.vch_scenario.specs.Reading.{Gives, Tells};
ghost use Rattle.vch_base.specs.declared.limits.TheConstants.{MOST_TASKS};
ghost use Rattle.vch_scenario.specs.Whole as whole;
ghost use Rattle.vch_scenario.specs.Faults.{IsFault, IsUnlessMemory};
ghost use Rattle.vch_model.specs.Scenarios.{IsScenario};
ghost use Rattle.vch_model.specs.TextLines.{is_passed};
ghost use Rattle.vch_model.specs.declared.lists.Scenario.{Scenario};
ghost use Rattle.vch_scenario.specs.declared.fault.Why.{Why};

use crate::call::line_of;
use crate::draft::{Draft, Place};
use crate::fault::{ScenarioFault, Stop, Why};
use crate::task::{task_of, tasks_of, version_of, word_is};
use std::alloc::Global;
use vch_base::limits::{MOST_CALLS, MOST_PHASES};
use vch_model::{FlagList, LineList, PhaseList, QueueList, Scenario};
use vch_text::{is_word, next_line};

/// The first line.
#[tactic(auto, unfolding(crate::specs::Whole::title_of))]
fn title(draft: &mut Draft, line: &[u8]) -> Result<(), Why>
    ensures { Tells (λ done. draft.new) result (whole.title_of draft.old line.now) }
{
    draft.version = version_of(line)?;
    draft.place = Place::Tasks;
    Ok(())
}

/// The number of tasks.
#[tactic(auto, unfolding(crate::specs::Whole::count_of))]
fn count(draft: &mut Draft, line: &[u8]) -> Result<(), Why>
    ensures { Tells (λ done. draft.new) result (whole.count_of draft.old line.now) }
{
    draft.tasks = tasks_of(line)?;
    draft.place = Place::Task;
    Ok(())
}

/// The next task.
#[tactic(auto, unfolding(crate::specs::Whole::task_in))]
fn task(draft: &mut Draft, line: &[u8]) -> Result<(), Stop>
    requires { length draft.old.flags < MOST_TASKS }
    ensures { Gives (λ done. draft.new) result (whole.task_in draft.old line.now) }
{
    let number = draft.flags.len() as u32 + 1;
    let task = task_of(draft.version, number, line)?;
    draft.flags.push(task.flags)?;
    draft.queues.push(task.queue)?;
    draft.place = if number == draft.tasks {
        Place::Phase
    } else {
        Place::Task
    };
    Ok(())
}

/// The next phase.
#[tactic(auto, unfolding(crate::specs::Whole::phase_in))]
fn phase(alloc: Global, draft: &mut Draft) -> Result<(), Stop>
    ensures { Gives (λ done. draft.new) result (whole.phase_in draft.old) }
{
    if draft.phases.len() >= MOST_PHASES {
        return Err(Stop::Fault { why: Why::Limit });
    }
    draft.phases.push(LineList::new(alloc))?;
    draft.place = Place::Call;
    Ok(())
}

/// The first phase.
#[tactic(auto, unfolding(crate::specs::Whole::first_in))]
fn first_phase(alloc: Global, draft: &mut Draft, line: &[u8]) -> Result<(), Stop>
    ensures { Gives (λ done. draft.new) result (whole.first_in draft.old line.now) }
{
    word_is(b"phase", line)?;
    phase(alloc, draft)
}

/// The next call.
#[tactic(auto, unfolding(crate::specs::Whole::call_in))]
fn call(alloc: Global, draft: &mut Draft, line: &[u8]) -> Result<(), Stop>
    requires { 1 ≤ length draft.old.phases }
    ensures { Gives (λ done. draft.new) result (whole.call_in draft.old line.now) }
{
    let line = line_of(alloc, draft.version, draft.tasks, line)?;
    if draft.calls >= MOST_CALLS {
        return Err(Stop::Fault { why: Why::Limit });
    }
    draft.phases.add_line(line)?;
    draft.calls += 1;
    Ok(())
}

/// A phase, the end or a call.
#[tactic(auto, unfolding(crate::specs::Whole::next_in))]
fn next(alloc: Global, draft: &mut Draft, line: &[u8]) -> Result<(), Stop>
    requires { 1 ≤ length draft.old.phases }
    ensures { Gives (λ done. draft.new) result (whole.next_in draft.old line.now) }
{
    if is_word(line, b"phase") {
        return phase(alloc, draft);
    }
    if is_word(line, b"end") {
        draft.place = Place::End;
        return Ok(());
    }
    call(alloc, draft, line)
}

/// Whether a line is passed over.
fn is_passed(line: &[u8]) -> bool
    ensures { result ≡ is_passed line.now }
{
    match line {
        [] => true,
        [first, ..] => *first == b'#',
    }
}

/// Whether nothing may follow.
fn is_end(place: Place) -> bool
    ensures { result ≡ whole.is_end place }
{
    match place {
        Place::End => true,
        _ => false,
    }
}

/// Adds the next line to what was read, in place. After an error what was read is of no more use.
#[tactic(auto, unfolding(crate::specs::Whole::step_of))]
fn step(alloc: Global, draft: &mut Draft, line: &[u8]) -> Result<(), Stop>
    requires { whole.IsFitting draft.old }
    ensures { Gives (λ done. draft.new) result (whole.step_of draft.old line.now) }
{
    if is_end(draft.place) {
        return Err(Stop::Fault { why: Why::Ending });
    }
    if is_passed(line) {
        return Ok(());
    }
    match draft.place {
        Place::Title => Ok(title(draft, line)?),
        Place::Tasks => Ok(count(draft, line)?),
        Place::Task => task(draft, line),
        Place::Phase => first_phase(alloc, draft, line),
        Place::Call => next(alloc, draft, line),
        Place::End => Err(Stop::Fault { why: Why::Ending }),
    }
}

/// What a draft is at the end of the text, behind the last line feed.
#[tactic(auto, unfolding(crate::specs::Whole::finish))]
fn finish(number: u32, draft: Draft, rest: &[u8]) -> Result<Scenario, ScenarioFault>
    ensures { whole.Reads result (whole.finish number draft rest.now) }
{
    if is_end(draft.place) && rest.is_empty() {
        Ok(Scenario {
            version: draft.version,
            flags: draft.flags,
            queues: draft.queues,
            phases: draft.phases,
        })
    } else {
        Err(ScenarioFault::At {
            line: number,
            why: Why::Ending,
        })
    }
}

/// What stops the reading of the line with this number.
fn at_line(number: u32, stop: Stop) -> ScenarioFault
    ensures { result ≡ whole.fault_at number stop }
{
    match stop {
        Stop::Fault { why } => ScenarioFault::At { line: number, why },
        Stop::Memory { cause } => ScenarioFault::from(cause),
    }
}

/// What is read of a text.
fn read_lines(alloc: Global, bytes: &[u8]) -> Result<Scenario, ScenarioFault>
    requires { length bytes.now < 4294967295 }
    ensures { whole.Reads result (whole.read_of bytes.now) }
{
    let mut draft = Draft {
        place: Place::Title,
        version: 0,
        tasks: 0,
        flags: FlagList::new(alloc),
        queues: QueueList::new(alloc),
        phases: PhaseList::new(alloc),
        calls: 0,
    };
    let mut rest = bytes;
    let mut number = 1;
    while let Some((line, more)) = next_line(rest) {
        match step(alloc, &mut draft, line) {
            Ok(()) => {}
            Err(stop) => return Err(at_line(number, stop)),
        }
        rest = more;
        number += 1;
    }
    finish(number, draft, rest)
}

/// The scenario of a text, of either case of hexadecimal digits and with lines that are passed over;
/// or its first line that can't stand at its place, and why.
///
/// On one line form is looked at before ranges, and ranges before limits. A rest behind the last line
/// feed is never looked at for its form, and neither is what follows the line `end`.
///
/// The text is gone over once and in its order. What is taken of memory is what the scenario keeps;
/// the want of it is the one answer that the text doesn't decide. The bound on the text's size makes
/// the number of a line fit.
pub fn read(alloc: Global, bytes: &[u8]) -> Result<Scenario, ScenarioFault>
    requires { length bytes.now < 4294967295 }

    // The scenario that is read is the text's, and one that the text has is read.
    ensures found { IfOk result (λ sc. IsScenario bytes.now sc) }
    ensures only { (sc : Scenario) → IsScenario bytes.now sc → IsUnlessMemory result (Ok sc) }

    // The fault that is told is the text's first, and one that the text has is told.
    ensures fault { (line : ℕ) (why : Why) →
        result ≡ Err (ScenarioFault.At line why) → IsFault bytes.now line why }
    ensures fault_only { (line : ℕ) (why : Why) →
        IsFault bytes.now line why → IsUnlessMemory result (Err (ScenarioFault.At line why)) }
{
    read_lines(alloc, bytes)
}
