ghost use Rattle.std.specs.Prelude.{◌≡◌, ℕ, ◌≤◌, ◌<◌, ◌+◌, ◌↔◌, IsFalse, IsTrue, length};
ghost use Rattle.vch_model.specs.Lines.{is_task};
ghost use Rattle.vch_parts.specs.Reached.{Reached};
ghost use Rattle.vch_parts.specs.Phases.{IsOver, IsQuiet, PhaseFollows};

use crate::Parts;
use vch_model::Entry;

/// Whether a task has nothing left to do in the phase.
fn is_quiet(parts: &Parts, task: u32) -> bool
    requires { (0 < task) × (task ≤ length parts.now.frames) }
    ensures { IsTrue result ↔ IsQuiet parts.now task }
{
    let working = parts.frames.at(task);
    working.frame.is_none() && !parts.scenario.has_call(task, working.begun, parts.phase)
}

/// Whether no task has anything left to do in the phase.
fn all_quiet(parts: &Parts) -> bool
    requires { Reached parts.now }
    ensures { IsTrue result ↔ ((t : ℕ) → IsTrue (is_task parts.now.scenario t) → IsQuiet parts.now t) }
{
    for ended in 0..parts.scenario.scenario().flags.len() {
        if !is_quiet(parts, ended as u32 + 1) {
            return false;
        }
    }
    true
}

/// The end of a phase in which no task has anything left to do.
fn end_phase(parts: &mut Parts)
    requires reached { Reached parts.old }
    requires over { IsOver parts.old }
    ensures { PhaseFollows parts.old parts.new }
{
    parts.history.push(Entry::Phase);
    parts.phase += 1;
}

impl Parts {
    /// Whether all phases have ended.
    pub fn ended(&self) -> bool
        ensures { IsTrue result ↔ (length self.now.scenario.phases ≤ self.now.phase) }
    {
        self.scenario.scenario().phases.len() <= self.phase as usize
    }

    /// Ends the phase, exactly where one is left and no task has anything to do in it, and says whether it did. The room
    /// for the entry was taken at the start. The time is linear in the number of tasks.
    pub fn next_phase(&mut self) -> bool
        requires reached { Reached self.old }
        ensures ends { IsTrue result → PhaseFollows self.old self.new }
        ensures exact { IsTrue result ↔ IsOver self.old }
        ensures stays { IsFalse result → self.new ≡ self.old }
    {
        if self.ended() || !all_quiet(self) {
            return false;
        }
        end_phase(self);
        true
    }
}
