ghost use Rattle.std.specs.Prelude.{◌≡◌, ◌≤◌, ◌↔◌, IfOk, IsSome, IsTrue, IsFalse, length};
ghost use Rattle.vch_model.specs.Lines.{is_task};
ghost use Rattle.vch_model.specs.Scenarios.{IsLimited};
ghost use Rattle.vch_machine.specs.State as machine;
ghost use Rattle.vch_parts.specs.Framed.{begun_of, frame_of};
ghost use Rattle.vch_parts.specs.Phases.{IsOver, PhaseFollows};
ghost use Rattle.vch_parts.specs.Reached.{IsNext, Reached, Stands};

use std::alloc::Global;
use std::marker::Model;
use vch_base::{Kind, NoMemory};
use vch_frame::Tally;
use vch_model::{History, Scenario};
use vch_parts::Parts;
use vch_script::Script;

/// A core: the vouchers and values of its tasks, the calls that are under way, and what happened so far.
///
/// It is at every moment the end of a run of the event machine over its own scenario, and its history is that run's. Each
/// event is one call under the caller's lock.
#[derive(Drop)]
pub struct Core {
    pub parts: Parts,
}

impl Model for Core {
    ghost use Rattle.vch_parts.specs.declared.parts.Parts.{Parts};
    ghost use Rattle.vch_parts.specs.Reached.{Reached};

    ghost Value = { Parts };

    ghost view = { λ c. c.parts };

    ghost invariant = { λ c. Reached c.parts };
}

impl Core {
    /// A core at the start of a scenario. It takes room in the history for two entries of every call and one of every
    /// phase. The time is linear in the number of tasks and calls.
    ///
    /// # Errors
    ///
    /// Out of memory alone.
    pub fn start(alloc: Global, scenario: Script) -> Result<Core, NoMemory>
        requires { IsLimited scenario }
        ensures scenario { IfOk result (λ core. core.scenario ≡ scenario) }
        ensures stands { IfOk result (λ core. Stands core (machine.start scenario)) }
    {
        let parts = Parts::start(alloc, scenario)?;
        Ok(Core { parts })
    }

    /// The core is the end of a run. It does nothing.
    pub fn know(&self)
        ensures { Reached self.now }
    {
        let _ = &self.parts;
    }

    /// The core's own scenario.
    pub fn scenario(&self) -> &Scenario
        ensures { result.now ≡ self.now.scenario }
    {
        self.parts.scenario.scenario()
    }

    /// What happened so far, the oldest entry first.
    pub fn history(&self) -> &History
        ensures { result.now ≡ self.now.history }
    {
        &self.parts.history
    }

    /// How many phases have ended.
    pub fn phase(&self) -> u32
        ensures { result ≡ self.now.phase }
    {
        self.parts.phase
    }

    /// Whether all phases have ended.
    pub fn ended(&self) -> bool
        ensures { IsTrue result ↔ (length self.now.scenario.phases ≤ self.now.phase) }
    {
        self.parts.ended()
    }

    /// How many claims were taken, references and questions.
    pub fn tally(&self) -> Tally
        ensures { result ≡ self.now.tally }
    {
        self.parts.tally
    }

    /// Whether a call of the task is under way, answered or not.
    pub fn has_frame(&self, task: u32) -> bool
        requires task { IsTrue (is_task self.now.scenario task) }
        ensures { IsTrue result ↔ IsSome (frame_of self.now.frames task) }
    {
        self.parts.frames.at(task).frame.is_some()
    }

    /// How many of its calls the task has begun.
    pub fn begun(&self, task: u32) -> u32
        requires task { IsTrue (is_task self.now.scenario task) }
        ensures { result ≡ begun_of self.now.frames task }
    {
        self.parts.frames.at(task).begun
    }

    /// The kind of the task's next event, or nothing where it has none in this phase. Constant time but for the look at a
    /// name, which is that of `Vouchers::voucher`.
    pub fn next_kind(&self, task: u32) -> Option<Kind>
        requires task { IsTrue (is_task self.now.scenario task) }
        ensures { IsNext self.now task result }
    {
        self.parts.next_kind(task)
    }

    /// Ends the phase, exactly where one is left and no task has anything to do in it, and says whether it did. The room
    /// for the entry was taken at the start. The time is linear in the number of tasks.
    pub fn next_phase(&mut self) -> bool
        ensures ends { IsTrue result → PhaseFollows self.old self.new }
        ensures exact { IsTrue result ↔ IsOver self.old }
        ensures stays { IsFalse result → self.new ≡ self.old }
    {
        self.parts.next_phase()
    }
}
