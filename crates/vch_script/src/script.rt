ghost use Rattle.std.specs.Prelude.{◌≡◌, ◌⊎◌, ◌≤◌, ◌<◌, ◌+◌, ◌↔◌, IfOk, IsTrue};
ghost use Rattle.std.specs.Option.{option_copied};
ghost use Rattle.vch_model.specs.Lines.{lines_until};
ghost use Rattle.vch_model.specs.Scenarios.{IsLimited, line_count};
ghost use Rattle.vch_machine.specs.Next.{nth_call};

use crate::places::{Places, places_of};
use std::alloc::Global;
use std::marker::Model;
use vch_base::NoMemory;
use vch_model::{Call, PhaseList, Scenario};

/// A scenario, with the places of each task's calls and the number of all calls: a call of a task is found by its number
/// without a look at others.
#[derive(Drop)]
pub struct Script {
    scenario: Scenario,
    places: Places,
    calls: usize,
}

impl Model for Script {
    ghost use Rattle.vch_model.specs.declared.lists.Scenario.{Scenario};
    ghost use Rattle.vch_script.specs.Places.{IsIndexOf};

    ghost Value = { Scenario };

    ghost view = { λ s. s.scenario };

    ghost invariant = { λ s. IsIndexOf s.scenario s.places s.calls };
}

/// How many calls there are in all phases. The time is linear in the number of phases.
fn count_calls(phases: &PhaseList) -> usize
    requires { line_count phases.now ≤ 1048576 }
    ensures { result ≡ line_count phases.now }
{
    let mut count = 0;
    for i in 0..phases.len() {
        count += phases.at(i).len();
    }
    count
}

impl Script {
    /// A scenario with the places of its calls. The time is linear in its size.
    ///
    /// # Errors
    ///
    /// Out of memory alone.
    pub fn new(alloc: Global, scenario: Scenario) -> Result<Script, NoMemory>
        requires { IsLimited scenario }
        ensures { IfOk result (λ made. made ≡ scenario) }
    {
        let places = places_of(alloc, &scenario)?;
        let calls = count_calls(&scenario.phases);
        Ok(Script {
            scenario,
            places,
            calls,
        })
    }

    /// The scenario.
    pub fn scenario(&self) -> &Scenario
        ensures { result.now ≡ self.now }
    {
        &self.scenario
    }

    /// The version of its text.
    pub fn version(&self) -> u32
        ensures version { result ≡ self.now.version }
        ensures one_of_two { (result ≡ 1) ⊎ (result ≡ 2) }
    {
        self.scenario.version
    }

    /// The number of calls of all tasks. Constant time.
    pub fn calls(&self) -> usize
        ensures { result ≡ line_count self.now.phases }
    {
        self.calls
    }

    /// The call of a task with a number, counted from 1, or nothing where the task has no such call. Constant time.
    pub fn call(&self, task: u32, number: u32) -> Option<&Call>
        ensures { option_copied result ≡ nth_call self.now task number }
    {
        self.places.call(&self.scenario, task, number)
    }

    /// Whether a task that has begun so many calls has another one in the phases so far, where so many phases have ended.
    /// Constant time.
    pub fn has_call(&self, task: u32, begun: u32, phases: u32) -> bool
        ensures { IsTrue result ↔ (begun < lines_until self.now (phases + 1) task) }
    {
        self.places.has_call(&self.scenario, task, begun, phases)
    }
}
