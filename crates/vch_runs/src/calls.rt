ghost use Rattle.std.specs.Prelude.{◌≡◌, None, IsTrue};
ghost use Rattle.vch_model.specs.Lines.{is_task};
ghost use Rattle.vch_parts.specs.Framed.{frame_of};
ghost use Rattle.vch_parts.specs.Nexts.{value_kind};
ghost use Rattle.vch_parts.specs.Reached.{MayFollow};
ghost use Rattle.vch_runs.specs.Called as called;
ghost use Rattle.vch_runs.specs.Called.{HasNext};

use crate::carrying::carry_event;
use crate::creating::create_event;
use crate::current::own_word;
use std::alloc::Global;
use vch_base::Kind;
use vch_model::Word;
use vch_whole::Core;

/// Whether a word is that of a create, a drop, an extract or a recipes.
fn is_creating(word: Word) -> bool
    ensures { result ≡ called.is_creating word }
{
    matches!(
        word,
        Word::Create | Word::GiveUp | Word::Extract | Word::Recipes
    )
}

/// The next event of a task where that is one of a call: it begins one or carries it on. It returns which kind that was.
pub fn call_event(core: &mut Core, alloc: Global, task: u32) -> Kind
    requires task { IsTrue (is_task core.old.scenario task) }
    requires idle { value_kind (frame_of core.old.frames task) ≡ None }
    requires next { HasNext core.old task }
    ensures { MayFollow result task core.old core.new }
{
    core.know();
    if is_creating(own_word(&core.parts, task)) {
        create_event(core, alloc, task)
    } else {
        carry_event(core, task)
    }
}
