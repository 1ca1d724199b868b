ghost use Rattle.vch_runs.specs.GivesBack.{GivesBack};
ghost use Rattle.vch_runs.specs.Runs.{EndsInTurn};

use crate::turn::{start_cursor, turn};
use std::alloc::Global;
use vch_legal::all_is_given_back;
use vch_whole::Core;

/// More moves than any run has.
pub const MOST_MOVES: u64 = 1099511627776;

/// Runs a core to the end, in turn: the lowest task that has a call under way goes on, else the task of the first line of
/// the phase that was not begun, and where there is none the phase ends. Afterwards all phases have ended; and where the last
/// one has exits alone, at least one of each task, all is given back.
///
/// It takes the time of the events, and for each call and each phase time linear in the number of tasks.
pub fn finish(core: &mut Core, alloc: Global)
    ensures ends { EndsInTurn core.old core.new }
    ensures given_back { GivesBack core.new }
{
    all_is_given_back();
    core.know();
    let mut cursor = start_cursor(core);
    let mut from = 1;
    for _move in 0..MOST_MOVES {
        core.know();
        if core.ended() {
            return;
        }
        turn(core, alloc, &mut cursor, &mut from);
    }
}
