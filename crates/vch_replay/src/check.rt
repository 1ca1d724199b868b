ghost use Rattle.std.specs.Prelude.{◌≤◌, length, IfOk};
ghost use Rattle.vch_replay.specs.Input.{limit};
ghost use Rattle.vch_replay.specs.Run.{Comes};
ghost use Rattle.vch_replay.specs.declared.command.Command.TheVariants as commands;

use crate::fault::scenario_line;
use crate::outcome::Outcome;
use std::alloc::Global;
use vch_base::NoMemory;
use vch_scenario::ScenarioFault;

/// The canonical text of the scenario that the input gives, or its first fault.
pub fn answer(alloc: Global, input: &[u8]) -> Result<Outcome, NoMemory>
    requires { length input.now ≤ limit }
    ensures { IfOk result (λ outcome. Comes commands.Check input.now outcome) }
{
    match vch_scenario::read(alloc, input) {
        Ok(scenario) => {
            let text = vch_scenario::write(alloc, &scenario)?;
            Ok(Outcome::Answered { text })
        }
        Err(ScenarioFault::At { line, why }) => {
            let line = scenario_line(alloc, line, why)?;
            Ok(Outcome::Refused { line })
        }
        Err(ScenarioFault::NoMemory { cause }) => Err(cause),
    }
}
