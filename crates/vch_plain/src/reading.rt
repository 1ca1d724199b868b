ghost use Rattle.std.specs.Prelude.{drop};
ghost use Rattle.vch_recipe.specs.Recipes.{first_of};
ghost use Rattle.vch_machine.specs.Working.{bytes_of};
ghost use Rattle.vch_plain.specs.Reading.{Reads};

use vch_model::Call;
use vch_recipe::{Step, next_recipe};

/// How the array of a create goes on at a place; other calls have no bytes.
pub fn step_at(call: &Call, at: usize) -> Step<'_>
    ensures { Reads at (first_of (drop at (bytes_of call.now))) result }
{
    let Call::Create { bytes } = call else {
        return Step::End;
    };
    let bytes = bytes.as_slice();
    if at >= bytes.len() {
        return Step::End;
    }
    next_recipe(bytes, at)
}
