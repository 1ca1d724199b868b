ghost use Rattle.std.specs.Prelude.{◌≡◌, IfOk, OnErr, IsTrue, false};
ghost use Rattle.vch_base.specs.Contents.{content_of};
ghost use Rattle.vch_base.specs.Keyed.{of_key};
ghost use Rattle.vch_base.specs.declared.kind.Kind.TheVariants as kinds;
ghost use Rattle.vch_model.specs.Legal.{has_code};
ghost use Rattle.vch_model.specs.Lines.{is_task};
ghost use Rattle.vch_model.specs.Replies as replies;
ghost use Rattle.vch_model.specs.declared.call.Call.TheVariants as calls;
ghost use Rattle.vch_parts.specs.Reached.{Reached, MayFollow, plain_of};
ghost use Rattle.vch_replies.specs.Told.{values_by, values_of};
ghost use Rattle.vch_answers.specs.Answered.{Begins};
ghost use Rattle.vch_creating.specs.Extracting.{IsTellable};

use std::alloc::Global;
use vch_answers::{answer, out_of_memory};
use vch_base::codes::{KERN_INVALID_ARGUMENT, KERN_INVALID_CAPABILITY};
use vch_base::{Bytes, Code, Key, NoMemory};
use vch_model::{Reply, Word};
use vch_parts::Parts;
use vch_table::Indices;
use vch_values::Values;

/// The content of what a voucher has at a key, and no bytes where it has nothing there. The one error is out of memory.
fn content(alloc: Global, values: &Values, voucher: &Indices, key: Key) -> Result<Bytes, NoMemory>
    requires { IsTellable values.now voucher.now key }
    ensures { IfOk result (λ made. made ≡ content_of (of_key key (values_of values.now voucher.now))) }
{
    let mut out = Vec::new(alloc);
    if let Some(index) = voucher.get(key.number()) {
        let handle = values.handle(key, index);
        values.extract(key, handle, &mut out)?;
    }
    Ok(Bytes::from_vec(out))
}

/// The reply to an extract. The one error is out of memory, and comes only where the reply would have no code.
fn extracted(
    alloc: Global,
    parts: &Parts,
    task: u32,
    name: u32,
    key: u32,
) -> Result<Reply, NoMemory>
    requires reached { Reached parts.now }
    requires task { IsTrue (is_task parts.now.scenario task) }
    ensures ok { IfOk result (λ reply. reply ≡ replies.extracted parts.now.scenario.version key (values_by (plain_of parts.now) task name)) }
    ensures err { OnErr result (has_code (replies.extracted parts.now.scenario.version key (values_by (plain_of parts.now) task name)) ≡ false) }
{
    let Some(voucher) = parts.vouchers.voucher(task, name) else {
        return Ok(Reply::Refused {
            code: Code::of(KERN_INVALID_CAPABILITY),
        });
    };
    let Some(key) = Key::of(key, parts.scenario.version()) else {
        return Ok(Reply::Refused {
            code: Code::of(KERN_INVALID_ARGUMENT),
        });
    };
    let bytes = content(alloc, &parts.values, &voucher, key)?;
    Ok(Reply::Content { bytes })
}

/// Begin of an `extract`: the call is answered with the content of the value that the named voucher has at a key. Linear in the
/// names of the task and in the content. Out of memory, the call is refused.
pub fn begin_extract(parts: &mut Parts, alloc: Global, task: u32, name: u32, key: u32)
    requires reached { Reached parts.old }
    requires task { IsTrue (is_task parts.old.scenario task) }
    requires begins { Begins parts.old task (calls.Extract name key) }
    ensures { MayFollow kinds.Begin task parts.old parts.new }
{
    match extracted(alloc, parts, task, name, key) {
        Ok(reply) => answer(parts, task, Word::Extract, reply),
        Err(cause) => out_of_memory(parts, task, Word::Extract, cause),
    }
}
