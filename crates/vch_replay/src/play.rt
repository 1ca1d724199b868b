ghost use Rattle.std.specs.Prelude.{◌≤◌, length, None, Some, IfOk};
ghost use Rattle.vch_model.specs.Canonical.{IsWritable};
ghost use Rattle.vch_replay.specs.Input.{limit};
ghost use Rattle.vch_replay.specs.Run.{Comes, IsPlayed, IsSeedReport, IsTurnReport, playing};

use crate::fault::scenario_line;
use crate::outcome::Outcome;
use crate::reports::{report_by_seed, report_in_turn};
use std::alloc::Global;
use vch_base::NoMemory;
use vch_model::Scenario;
use vch_scenario::ScenarioFault;

/// The report of a scenario's run in turn.
fn turn_text(alloc: Global, scenario: Scenario) -> Result<Vec<u8>, NoMemory>
    requires writable { IsWritable scenario }
    ensures { IfOk result (λ text. IsTurnReport scenario text.items) }
{
    let report = report_in_turn(alloc, scenario)?;
    vch_report::write(alloc, &report)
}

/// The report of a scenario's run by the schedule of a seed.
fn seed_text(alloc: Global, scenario: Scenario, seed: u64) -> Result<Vec<u8>, NoMemory>
    requires writable { IsWritable scenario }
    ensures { IfOk result (λ text. IsSeedReport seed scenario text.items) }
{
    let report = report_by_seed(alloc, scenario, seed)?;
    vch_report::write(alloc, &report)
}

/// The report of a scenario's run in turn, or by a seed.
fn report_text(alloc: Global, scenario: Scenario, seed: Option<u64>) -> Result<Vec<u8>, NoMemory>
    requires { IsWritable scenario }
    ensures { IfOk result (λ text. IsPlayed seed scenario text.items) }
{
    match seed {
        None => turn_text(alloc, scenario),
        Some(seed) => seed_text(alloc, scenario, seed),
    }
}

/// The report of a run of the scenario that the input gives, or its first fault. The run is in turn, or by a seed where there
/// is one.
pub fn answer(alloc: Global, input: &[u8], seed: Option<u64>) -> Result<Outcome, NoMemory>
    requires { length input.now ≤ limit }
    ensures { IfOk result (λ outcome. Comes (playing seed) input.now outcome) }
{
    match vch_scenario::read(alloc, input) {
        Ok(scenario) => {
            let text = report_text(alloc, scenario, seed)?;
            Ok(Outcome::Answered { text })
        }
        Err(ScenarioFault::At { line, why }) => {
            let line = scenario_line(alloc, line, why)?;
            Ok(Outcome::Refused { line })
        }
        Err(ScenarioFault::NoMemory { cause }) => Err(cause),
    }
}
