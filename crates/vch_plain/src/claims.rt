ghost use Rattle.std.specs.Prelude.{◌≡◌, map};
ghost use Rattle.vch_machine.specs.Making as making;
ghost use Rattle.vch_plain.specs.Marks as marks;

use crate::handles::Place;
use crate::task::{Claim, Frame, Tasked};

/// What becomes of the claims on a place.
#[derive(Clone, Copy, Debug)]
pub enum Mark {
    /// The value was given out again: a claim that was not asked is raced.
    Raced,
    /// A reference was taken: a claim is back.
    Back,
}

/// Marks a claim, where it is on the place.
fn mark_claim(claim: &mut Claim, mark: Mark, place: &Place)
    ensures { claim.new ≡ marks.marked mark place.now claim.old }
{
    if !claim.place.same(place) {
        return;
    }
    match mark {
        Mark::Raced => {
            if claim.answer.is_none() {
                claim.raced = true;
            }
        }
        Mark::Back => claim.back = true,
    }
}

/// Marks the claim of a frame.
fn mark_frame(frame: &mut Frame, mark: Mark, place: &Place)
    ensures { frame.new ≡ record frame.old { claim = making.on_claim (marks.marked mark place.now) frame.old.claim } }
{
    if let Some(claim) = &mut frame.claim {
        mark_claim(claim, mark, place);
    }
}

/// Marks the claim of a task.
fn mark_task(task: &mut Tasked, mark: Mark, place: &Place)
    ensures { task.new ≡ making.on_task (marks.marked mark place.now) task.old }
{
    if let Some(frame) = &mut task.frame {
        mark_frame(frame, mark, place);
    }
}

/// Marks the claims of all tasks on a place.
pub fn mark_tasks(tasks: &mut Vec<Tasked>, mark: Mark, place: &Place)
    ensures { tasks.new.items ≡ map (making.on_task (marks.marked mark place.now)) tasks.old.items }
{
    for i in 0..tasks.len() {
        mark_task(&mut tasks[i], mark, place);
    }
}
