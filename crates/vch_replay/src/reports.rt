//! Runs of a core to the end, and what their reports tell.
ghost use Rattle.std.specs.Prelude.{IfOk, ◌≡◌};
ghost use Rattle.vch_model.specs.Canonical.{IsWritable};
ghost use Rattle.vch_machine.specs.State as machine;
ghost use Rattle.vch_parts.specs.Reached.{Stands};
ghost use Rattle.vch_report.specs.WellFormed.{IsWellFormed};
ghost use Rattle.vch_replay.specs.Reports.{IsInTurnReport, IsBySeedReport};

use std::alloc::Global;
use vch_base::NoMemory;
use vch_model::Scenario;
use vch_report::{Report, report_of};
use vch_runs::{drive_seed, finish};
use vch_script::Script;
use vch_whole::Core;

/// A core at the start of a scenario.
fn start(alloc: Global, scenario: Scenario) -> Result<Core, NoMemory>
    requires { IsWritable scenario }
    ensures scenario { IfOk result (λ core. core.scenario ≡ scenario) }
    ensures stands { IfOk result (λ core. Stands core (machine.start scenario)) }
{
    let script = Script::new(alloc, scenario)?;
    Core::start(alloc, script)
}

/// The report of a scenario's run in turn.
pub fn report_in_turn(alloc: Global, scenario: Scenario) -> Result<Report, NoMemory>
    requires { IsWritable scenario }
    ensures ran { IfOk result (λ report. IsInTurnReport scenario report) }
    ensures well_formed { IfOk result (λ report. IsWellFormed report) }
{
    let mut core = start(alloc, scenario)?;
    finish(&mut core, alloc);
    report_of(alloc, &core)
}

/// The report of a scenario's run by the schedule of a seed.
pub fn report_by_seed(alloc: Global, scenario: Scenario, seed: u64) -> Result<Report, NoMemory>
    requires { IsWritable scenario }
    ensures ran { IfOk result (λ report. IsBySeedReport seed scenario report) }
    ensures well_formed { IfOk result (λ report. IsWellFormed report) }
{
    let mut core = start(alloc, scenario)?;
    drive_seed(&mut core, alloc, seed);
    report_of(alloc, &core)
}
