ghost use Rattle.std.specs.Prelude.{◌≡◌, IfOk};
ghost use Rattle.vch_replay.specs.Run.{Comes};
ghost use Rattle.vch_replay.specs.declared.command.Command.TheVariants as commands;

use crate::listing::{listing, recipe_fault_line};
use crate::outcome::Outcome;
use std::alloc::Global;
use vch_base::NoMemory;
use vch_recipe::records;

/// A line for each record of the array that the input is, or its first fault.
pub fn answer(alloc: Global, input: &[u8]) -> Result<Outcome, NoMemory>
    ensures { IfOk result (λ outcome. Comes commands.Recipe input.now outcome) }
{
    match records(alloc, input) {
        Ok(records) => {
            let text = listing(alloc, &records)?;
            Ok(Outcome::Answered { text })
        }
        Err(fault) => {
            let line = recipe_fault_line(alloc, fault)?;
            Ok(Outcome::Refused { line })
        }
    }
}
