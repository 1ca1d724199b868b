ghost use Rattle.std.specs.Prelude.{◌≤◌, IsTrue};
ghost use Rattle.vch_base.specs.declared.codes.TheConstants.{KERN_RESOURCE_SHORTAGE};
ghost use Rattle.vch_model.specs.Lines.{is_task};
ghost use Rattle.vch_model.specs.Replies.{refused};
ghost use Rattle.vch_parts.specs.Reached.{Reached};
ghost use Rattle.vch_answers.specs.Answered.{Answers, IsOtherReply};

use vch_base::codes::KERN_RESOURCE_SHORTAGE;
use vch_base::{Code, NoMemory};
use vch_model::{Entry, Reply, Word};
use vch_parts::Parts;

/// A task's next call begins and is answered, with whatever reply.
fn answer_with(parts: &mut Parts, task: u32, word: Word, reply: Reply)
    requires reached { Reached parts.old }
    requires task { IsTrue (is_task parts.old.scenario task) }
    requires room { 1 ≤ parts.old.history.spare }
    ensures { Answers task word reply parts.old parts.new }
{
    let number = parts.frames.begin(task);
    parts.history.push(Entry::Call {
        task,
        number,
        word,
        reply,
    });
}

/// A task's next call begins and is answered: one more of its calls counts as begun, and the history has the answer. It takes
/// constant time and no memory. A call that is out of memory is answered by [`out_of_memory`].
pub fn answer(parts: &mut Parts, task: u32, word: Word, reply: Reply)
    requires other { IsOtherReply reply }
    requires reached { Reached parts.old }
    requires task { IsTrue (is_task parts.old.scenario task) }
    requires room { 1 ≤ parts.old.history.spare }
    ensures { Answers task word reply parts.old parts.new }
{
    answer_with(parts, task, word, reply)
}

/// A task's next call begins and is refused because it is out of memory, as [`answer`] answers it for another reason.
pub fn out_of_memory(parts: &mut Parts, task: u32, word: Word, _cause: NoMemory)
    requires reached { Reached parts.old }
    requires task { IsTrue (is_task parts.old.scenario task) }
    requires room { 1 ≤ parts.old.history.spare }
    ensures { Answers task word (refused KERN_RESOURCE_SHORTAGE) parts.old parts.new }
{
    let code = Code {
        number: KERN_RESOURCE_SHORTAGE,
    };
    answer_with(parts, task, word, Reply::Refused { code })
}
