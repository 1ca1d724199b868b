ghost use Rattle.std.specs.Prelude.{◌≡◌, ◌≤◌, ◌<◌, ◌+◌, ◌++◌, ◌∷◌, [], length};
ghost use Rattle.vch_model.specs.declared.entry.Entry.TheVariants as entries;
ghost use Rattle.vch_parts.specs.Framed.{begun_of, with_begun_of};
ghost use Rattle.vch_answers.specs.Answered.{IsOtherReply};

use vch_model::{Entry, Reply, Word};
use vch_parts::Parts;

/// Answers a call as it begins: it is counted as begun, and the history has its reply.
pub(crate) fn answer(parts: &mut Parts, task: u32, word: Word, reply: Reply)
    requires other { IsOtherReply reply }
    requires task { (0 < task) × (task ≤ length parts.old.frames) }
    requires few { begun_of parts.old.frames task < 4294967295 }
    requires room { 1 ≤ parts.old.history.spare }
    ensures parts { parts.new ≡ record parts.old { frames = with_begun_of parts.old.frames task; history = parts.new.history } }
    ensures entries { parts.new.history.entries ≡ parts.old.history.entries ++ entries.Call task (begun_of parts.old.frames task + 1) word reply ∷ [] }
    ensures spare { parts.new.history.spare + 1 ≡ parts.old.history.spare }
{
    let number = parts.frames.begin(task);
    parts.history.push(Entry::Call {
        task,
        number,
        word,
        reply,
    });
}
