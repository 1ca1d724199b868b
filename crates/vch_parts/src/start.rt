ghost use Rattle.std.specs.Prelude.{◌≡◌, ◌≤◌, ◌+◌, ◌*◌, [], IfOk, length};
ghost use Rattle.vch_base.specs.declared.key.Key.{Key};
ghost use Rattle.vch_base.specs.Keyed.{of_key};
ghost use Rattle.vch_model.specs.Scenarios.{IsLimited, line_count};
ghost use Rattle.vch_machine.specs.State as machine;
ghost use Rattle.vch_values.specs.Parts.{IsNew};
ghost use Rattle.vch_vouchers.specs.Desks.{empty_desks};
ghost use Rattle.vch_parts.specs.Reached.{Reached, Stands};

use crate::Parts;
use crate::frames::fresh_frames;
use std::alloc::Global;
use vch_base::{Flags, NoMemory};
use vch_frame::Tally;
use vch_model::{FlagList, History, QueueList};
use vch_script::Script;
use vch_values::Values;
use vch_vouchers::Vouchers;

/// The flags of all tasks.
fn flags_of(alloc: Global, list: &FlagList) -> Result<Vec<Flags>, NoMemory>
    ensures { IfOk result (λ made. made.items ≡ list.now) }
{
    let mut made = Vec::new(alloc);
    for i in 0..list.len() {
        made.push(*list.at(i))?;
    }
    Ok(made)
}

/// The queue limits of all tasks.
fn limits_of(alloc: Global, list: &QueueList) -> Result<Vec<u32>, NoMemory>
    ensures { IfOk result (λ made. made.items ≡ list.now) }
{
    let mut made = Vec::new(alloc);
    for i in 0..list.len() {
        made.push(*list.at(i))?;
    }
    Ok(made)
}

/// The values of all keys at the start.
fn new_values(alloc: Global, scenario: &Script) -> Result<Values, NoMemory>
    requires { IsLimited scenario.now }
    ensures { IfOk result (λ made. (k : Key) → IsNew k scenario.now.flags (of_key k made)) }
{
    let flags = flags_of(alloc, &scenario.scenario().flags)?;
    Values::new(alloc, &flags)
}

/// The names and queues of all tasks at the start.
fn new_vouchers(alloc: Global, scenario: &Script) -> Result<Vouchers, NoMemory>
    requires { IsLimited scenario.now }
    ensures { IfOk result (λ made. made ≡ empty_desks scenario.now.queues) }
{
    let limits = limits_of(alloc, &scenario.scenario().queues)?;
    Vouchers::new(alloc, &limits)
}

/// A history without entries, with room for two entries a call and one a phase: all that may come but for values.
fn new_history(alloc: Global, scenario: &Script) -> Result<History, NoMemory>
    requires { IsLimited scenario.now }
    ensures empty { IfOk result (λ made. made.entries ≡ []) }
    ensures room { IfOk result (λ made. 2 * line_count scenario.now.phases + length scenario.now.phases ≤ made.spare) }
{
    let mut history = History::new(alloc);
    history.reserve(2 * scenario.calls() + scenario.scenario().phases.len())?;
    Ok(history)
}

impl Parts {
    /// The parts at the start of a scenario. They take room in the history for two entries of every call and one of every
    /// phase. The time is linear in the number of tasks and calls.
    ///
    /// # Errors
    ///
    /// Out of memory alone.
    pub fn start(alloc: Global, scenario: Script) -> Result<Parts, NoMemory>
        requires { IsLimited scenario }
        ensures scenario { IfOk result (λ parts. parts.scenario ≡ scenario) }
        ensures reached { IfOk result (λ parts. Reached parts) }
        ensures stands { IfOk result (λ parts. Stands parts (machine.start scenario)) }
    {
        let vouchers = new_vouchers(alloc, &scenario)?;
        let frames = fresh_frames(alloc, scenario.scenario().flags.len())?;
        let history = new_history(alloc, &scenario)?;
        let values = new_values(alloc, &scenario)?;
        Ok(Parts {
            scenario,
            phase: 0,
            values,
            vouchers,
            frames,
            tally: Tally {
                claims: 0,
                refers: 0,
                asks: 0,
            },
            history,
        })
    }
}
