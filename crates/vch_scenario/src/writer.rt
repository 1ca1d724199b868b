ghost use Rattle.std.specs.Prelude.{◌≡◌, ◌<◌, ◌≤◌, ◌+◌, ◌∷◌, ◌++◌, [], List, ℕ, length, map, slice_index_or, OnOk, IfOk, codes};
ghost use Rattle.std.specs.Fmt.{decimal};
ghost use Rattle.vch_model.specs.Text.{hex_of, newline, word_text};
ghost use Rattle.vch_model.specs.Grammar as grammar;
ghost use Rattle.vch_model.specs.Words.{word_of};
ghost use Rattle.vch_base.specs.declared.limits.TheConstants.{USUAL_QUEUE};
ghost use Rattle.vch_model.specs.Scenarios.{IsScenario, task_items, line_items, phase_items};
ghost use Rattle.vch_model.specs.Canonical.{spelled_text, item_line, items_text, shown_queue, Canon, IsWritable};

use std::alloc::Global;
use vch_base::limits::USUAL_QUEUE;
use vch_base::{Flags, NoMemory};
use vch_model::{Call, FlagList, Line, LineList, PhaseList, QueueList, Scenario};
use vch_text::{push_hex, push_number, push_spaced, push_text};

/// The word of a call.
fn text_of(call: &Call) -> &'static [u8]
    ensures { result.now ≡ word_text (word_of call.now) }
{
    match call {
        Call::Create { .. } => b"create",
        Call::GiveUp { .. } => b"drop",
        Call::Extract { .. } => b"extract",
        Call::Recipes { .. } => b"recipes",
        Call::Send { .. } => b"send",
        Call::Recv => b"recv",
        Call::Extern { .. } => b"extern",
        Call::Charge { .. } => b"charge",
        Call::Ledger => b"ledger",
        Call::Assertions => b"assertions",
        Call::Live => b"live",
        Call::Exit => b"exit",
    }
}

/// Adds what stands behind the word of a call.
fn push_behind(out: &mut Vec<u8>, call: &Call) -> Result<(), NoMemory>
    ensures { OnOk result (out.new.items ≡ out.old.items ++ spelled_text (grammar.behind_word call.now)) }
{
    match call {
        Call::Create { bytes } => {
            push_text(out, b" ")?;
            push_hex(out, bytes.as_slice())
        }
        Call::GiveUp { name } => push_spaced(out, *name),
        Call::Extract { name, key } => {
            push_spaced(out, *name)?;
            push_spaced(out, *key)
        }
        Call::Recipes { name } => push_spaced(out, *name),
        Call::Send {
            to,
            moving,
            name,
            id,
        } => {
            push_spaced(out, *to)?;
            if *moving {
                push_text(out, b" move")?;
            } else {
                push_text(out, b" copy")?;
            }
            push_spaced(out, *name)?;
            push_spaced(out, *id)
        }
        Call::Recv => Ok(()),
        Call::Extern { name, adding, n } => {
            push_spaced(out, *name)?;
            if *adding {
                push_text(out, b" add")?;
            } else {
                push_text(out, b" drop")?;
            }
            push_spaced(out, *n)
        }
        Call::Charge { name, n } => {
            push_spaced(out, *name)?;
            push_spaced(out, *n)
        }
        Call::Ledger => Ok(()),
        Call::Assertions => Ok(()),
        Call::Live => Ok(()),
        Call::Exit => Ok(()),
    }
}

/// Adds a call line.
fn push_line(out: &mut Vec<u8>, line: &Line) -> Result<(), NoMemory>
    ensures { OnOk result (out.new.items ≡ out.old.items ++ item_line (grammar.Calls line.now)) }
{
    push_number(out, u64::from(line.task))?;
    push_text(out, b" ")?;
    push_text(out, text_of(&line.call))?;
    push_behind(out, &line.call)?;
    push_text(out, b"\n")
}

/// Adds the limit of a queue, where it isn't the usual one.
fn push_queue(out: &mut Vec<u8>, queue: u32) -> Result<(), NoMemory>
    ensures { OnOk result (out.new.items ≡ out.old.items ++ spelled_text (grammar.queue_pieces (shown_queue queue))) }
{
    if queue == USUAL_QUEUE {
        return Ok(());
    }
    push_text(out, b" queue")?;
    push_spaced(out, queue)
}

/// Adds the line of a task.
fn push_task(out: &mut Vec<u8>, t: u64, flags: Flags, queue: u32) -> Result<(), NoMemory>
    ensures { OnOk result (out.new.items ≡ out.old.items ++ item_line (grammar.Task t flags (shown_queue queue))) }
{
    push_text(out, b"task ")?;
    push_number(out, t)?;
    if flags.donor {
        push_text(out, b" donor")?;
    }
    if flags.receiver {
        push_text(out, b" receiver")?;
    }
    push_queue(out, queue)?;
    push_text(out, b"\n")
}

/// The limit of a task's queue: the usual one where the list has none.
fn limit_at(queues: &QueueList, i: usize) -> u32
    ensures { result ≡ slice_index_or queues.now i USUAL_QUEUE }
{
    if i < queues.len() {
        *queues.at(i)
    } else {
        USUAL_QUEUE
    }
}

/// Adds the lines of the tasks.
fn push_tasks(out: &mut Vec<u8>, flags: &FlagList, queues: &QueueList) -> Result<(), NoMemory>
    ensures { OnOk result (out.new.items ≡ out.old.items ++ items_text (task_items 1 flags.now (map shown_queue queues.now))) }
{
    for i in 0..flags.len() {
        push_task(out, i as u64 + 1, *flags.at(i), limit_at(queues, i))?;
    }
    Ok(())
}

/// Adds the call lines of a phase.
fn push_lines(out: &mut Vec<u8>, lines: &LineList) -> Result<(), NoMemory>
    ensures { OnOk result (out.new.items ≡ out.old.items ++ items_text (line_items lines.now)) }
{
    for i in 0..lines.len() {
        push_line(out, lines.at(i))?;
    }
    Ok(())
}

/// Adds the phases.
fn push_phases(out: &mut Vec<u8>, phases: &PhaseList) -> Result<(), NoMemory>
    ensures { OnOk result (out.new.items ≡ out.old.items ++ items_text (phase_items phases.now)) }
{
    for i in 0..phases.len() {
        push_text(out, b"phase\n")?;
        push_lines(out, phases.at(i))?;
    }
    Ok(())
}

/// The canonical text of a scenario: no line is passed over, hexadecimal digits are in lower case, and
/// the limit of a queue is written where it isn't the usual one.
///
/// It is a text of the scenario where that is within the limits of the grammar. Its time is that of
/// the text's length; the one error is out of memory.
pub fn write(alloc: Global, scenario: &Scenario) -> Result<Vec<u8>, NoMemory>
    ensures canonical { IfOk result (λ text. text.items ≡ Canon scenario.now) }
    ensures again { IsWritable scenario.now → IfOk result (λ text. IsScenario text.items scenario.now) }
{
    let mut out = Vec::new(alloc);
    push_text(&mut out, b"vouch ")?;
    push_number(&mut out, scenario.version)?;
    push_text(&mut out, b"\ntasks ")?;
    push_number(&mut out, scenario.flags.len() as u64)?;
    push_text(&mut out, b"\n")?;
    push_tasks(&mut out, &scenario.flags, &scenario.queues)?;
    push_phases(&mut out, &scenario.phases)?;
    push_text(&mut out, b"end\n")?;
    Ok(out)
}
