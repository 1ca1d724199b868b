ghost use Rattle.std.specs.Prelude.{◌≡◌, ◌≤◌, ◌<◌, IfOk, IfErr, IsSome, IsTrue, Ok, Err, length};
ghost use Rattle.vch_base.specs.declared.key.Key.TheVariants as keys;
ghost use Rattle.vch_base.specs.declared.kind.Kind.TheVariants as kinds;
ghost use Rattle.vch_base.specs.Managers.{live_at};
ghost use Rattle.vch_importance.specs.Assertions.{counted_by};
ghost use Rattle.vch_model.specs.declared.call.Call.TheVariants as calls;
ghost use Rattle.vch_model.specs.Lines.{is_task};
ghost use Rattle.vch_parts.specs.Framed.{begun_of};
ghost use Rattle.vch_parts.specs.Reached.{Reached, MayFollow};
ghost use Rattle.vch_replies.specs.Replied.{changed, done_or};
ghost use Rattle.vch_answers.specs.Answered.{Begins, IsOtherReply};
ghost use Rattle.vch_carry.specs.Amounts.{Notes, named_handle, recounted_by};

use vch_answers::answer;
use vch_base::codes::{KERN_INVALID_ARGUMENT, KERN_INVALID_CAPABILITY};
use vch_base::{Code, Key};
use vch_model::{Entry, Reply, Word};
use vch_parts::Parts;

/// The handle of the value that the named voucher of a task has at a key. Linear in the names of the task.
///
/// # Errors
///
/// Code 20 where the task has no such name, and code 4 where the voucher has no value at the key.
pub(crate) fn handle_named(parts: &Parts, task: u32, name: u32, key: Key) -> Result<u32, Code>
    requires reached { Reached parts.now }
    requires task { IsTrue (is_task parts.now.scenario task) }
    ensures found { IfOk result (λ handle. named_handle parts.now task name key ≡ Ok handle) }
    ensures none { IfErr result (λ code. named_handle parts.now task name key ≡ Err code.number) }
{
    let Some(voucher) = parts.vouchers.voucher(task, name) else {
        return Err(Code::of(KERN_INVALID_CAPABILITY));
    };
    let Some(index) = voucher.get(key.number()) else {
        return Err(Code::of(KERN_INVALID_ARGUMENT));
    };
    Ok(parts.values.handle(key, index))
}

/// A task's next call counts as begun, and its answer is noted. It takes constant time and no memory.
pub(crate) fn note(parts: &mut Parts, task: u32, word: Word, reply: Reply)
    requires other { IsOtherReply reply }
    requires inside { (0 < task) × (task ≤ length parts.old.frames) }
    requires few { begun_of parts.old.frames task < 4294967295 }
    requires room { 1 ≤ parts.old.history.spare }
    ensures { Notes task word reply parts.old parts.new }
{
    let number = parts.frames.begin(task);
    parts.history.push(Entry::Call {
        task,
        number,
        word,
        reply,
    });
}

/// Changes the external count of a list of importance for a task, where its manager lets the task, and gives the reply.
fn recount(parts: &mut Parts, task: u32, handle: u32, adding: bool, n: u32) -> Reply
    requires live { IsSome (live_at parts.old.values.importance.kept.slots handle) }
    ensures reply { result ≡ done_or (counted_by (changed adding) (live_at parts.old.values.importance.kept.slots handle) task n) }
    ensures values { parts.new ≡ record parts.old { values = recounted_by parts.old.values handle (counted_by (changed adding) (live_at parts.old.values.importance.kept.slots handle) task n) } }
{
    let done = if adding {
        parts.values.extern_add(handle, task, n)
    } else {
        parts.values.extern_drop(handle, task, n)
    };
    match done {
        Ok(()) => Reply::Done,
        Err(code) => Reply::Refused { code },
    }
}

/// A change of the external count of a list: it is made or refused, and the call is answered.
fn count(parts: &mut Parts, task: u32, name: u32, handle: u32, adding: bool, n: u32)
    requires reached { Reached parts.old }
    requires task { IsTrue (is_task parts.old.scenario task) }
    requires begins { Begins parts.old task (calls.Extern name adding n) }
    requires handle { named_handle parts.old task name keys.Importance ≡ Ok handle }
    ensures { MayFollow kinds.Begin task parts.old parts.new }
{
    let reply = recount(parts, task, handle, adding, n);
    note(parts, task, Word::Extern, reply);
}

/// Refuses a change of an external count that is about no list.
fn refuse_count(parts: &mut Parts, task: u32, name: u32, code: Code, adding: bool, n: u32)
    requires reached { Reached parts.old }
    requires task { IsTrue (is_task parts.old.scenario task) }
    requires begins { Begins parts.old task (calls.Extern name adding n) }
    requires none { named_handle parts.old task name keys.Importance ≡ Err code.number }
    ensures { MayFollow kinds.Begin task parts.old parts.new }
{
    answer(parts, task, Word::Extern, Reply::Refused { code });
}

/// Begin of an `extern`: the external count of the list that the named voucher has at the key of importance changes by `n`, for
/// the task that ends the list, and the call is answered. Linear in the names of the task; it takes no memory.
pub fn begin_extern(parts: &mut Parts, task: u32, name: u32, adding: bool, n: u32)
    requires reached { Reached parts.old }
    requires task { IsTrue (is_task parts.old.scenario task) }
    requires begins { Begins parts.old task (calls.Extern name adding n) }
    ensures { MayFollow kinds.Begin task parts.old parts.new }
{
    match handle_named(parts, task, name, Key::Importance) {
        Ok(handle) => count(parts, task, name, handle, adding, n),
        Err(code) => refuse_count(parts, task, name, code, adding, n),
    }
}
