ghost use Rattle.std.specs.Prelude.{IsSome, IsTrue};
ghost use Rattle.vch_model.specs.Lines.{is_task};
ghost use Rattle.vch_parts.specs.Framed.{frame_of};
ghost use Rattle.vch_parts.specs.Nexts.{value_kind};
ghost use Rattle.vch_parts.specs.Reached.{MayFollow};
ghost use Rattle.vch_runs.specs.Called.{HasNext};

use crate::calls::call_event;
use std::alloc::Global;
use vch_base::Kind;
use vch_whole::Core;

/// The next event of a task where that is one of a value, by its kind.
fn value_event(core: &mut Core, task: u32) -> Kind
    requires task { IsTrue (is_task core.old.scenario task) }
    requires next { IsSome (value_kind (frame_of core.old.frames task)) }
    ensures { MayFollow result task core.old core.new }
{
    core.parts.value_event(task)
}

/// The next event of a task that has one, by its kind. It takes the time of that event.
pub fn event(core: &mut Core, alloc: Global, task: u32) -> Kind
    requires task { IsTrue (is_task core.old.scenario task) }
    requires next { HasNext core.old task }
    ensures { MayFollow result task core.old core.new }
{
    core.know();
    if core.parts.value_kind(task).is_some() {
        value_event(core, task)
    } else {
        call_event(core, alloc, task)
    }
}
