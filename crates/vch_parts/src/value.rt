ghost use Rattle.std.specs.Prelude.{◌≡◌, Some, IsSome, IsTrue};
ghost use Rattle.vch_model.specs.Lines.{is_task};
ghost use Rattle.vch_parts.specs.Framed.{frame_of};
ghost use Rattle.vch_parts.specs.Nexts.{value_kind};
ghost use Rattle.vch_parts.specs.Reached.{Reached, Follows};

use crate::Parts;
use crate::ask::ask;
use crate::let_go::let_go;
use crate::recheck::recheck;
use crate::refer::refer;
use vch_base::Kind;

impl Parts {
    /// The kind of the task's next event where that is one of a value: Refer, Ask, Recheck or LetGo; else nothing. Constant
    /// time.
    pub fn value_kind(&self, task: u32) -> Option<Kind>
        requires reached { Reached self.now }
        requires task { IsTrue (is_task self.now.scenario task) }
        ensures { result ≡ value_kind (frame_of self.now.frames task) }
    {
        match &self.frames.at(task).frame {
            Some(frame) => frame.value_kind(),
            None => None,
        }
    }

    /// The next event of a task whose frame has a receipt, a claim, or a reference to let go of: Refer, Ask, Recheck or
    /// LetGo. It returns which of them it was. The time is that of the event, and it takes no memory.
    pub fn value_event(&mut self, task: u32) -> Kind
        requires reached { Reached self.old }
        requires task { IsTrue (is_task self.old.scenario task) }
        requires next { IsSome (value_kind (frame_of self.old.frames task)) }
        ensures kind { value_kind (frame_of self.old.frames task) ≡ Some result }
        ensures event { Follows result task self.old self.new }
    {
        let kind = self.value_kind(task).unwrap_or(Kind::LetGo);
        match kind {
            Kind::Refer => refer(self, task),
            Kind::Ask => ask(self, task),
            Kind::Recheck => recheck(self, task),
            _ => let_go(self, task),
        }
        kind
    }
}
