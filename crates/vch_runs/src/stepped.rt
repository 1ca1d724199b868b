ghost use Rattle.std.specs.Prelude.{◌≡◌, ◌<◌, length, Some, None, IsTrue};
ghost use Rattle.vch_model.specs.Lines.{is_task};
ghost use Rattle.vch_runs.specs.Steps.{IsFrameNext, Steps};

use crate::events::event;
use std::alloc::Global;
use vch_base::Kind;
use vch_whole::Core;

/// What a step of a task came to.
#[derive(Clone, Copy, Debug, PartialEq, Eq)]
pub enum Stepped {
    /// An event of this kind was done. `next` is the kind of the next event of the task's frame, and none where it has no
    /// frame any more.
    Went { did: Kind, next: Option<Kind> },
    /// The task has nothing to do until the phase ends.
    PhaseEnd,
    /// All phases have ended.
    Ended,
}

/// The kind of the next event of a task's frame, or none where it has no frame.
fn frame_next(core: &Core, task: u32) -> Option<Kind>
    requires task { IsTrue (is_task core.now.scenario task) }
    ensures { IsFrameNext core.now task result }
{
    core.know();
    if core.has_frame(task) {
        core.next_kind(task)
    } else {
        None
    }
}

/// One step of a task: its next event, if it has one in this phase. It takes the time of that event.
pub fn step(core: &mut Core, alloc: Global, task: u32) -> Stepped
    requires task { IsTrue (is_task core.old.scenario task) }
    ensures { Steps core.old task result core.new }
{
    if core.ended() {
        return Stepped::Ended;
    }
    core.know();
    let Some(_kind) = core.next_kind(task) else {
        return Stepped::PhaseEnd;
    };
    let did = event(core, alloc, task);
    let next = frame_next(core, task);
    Stepped::Went { did, next }
}
