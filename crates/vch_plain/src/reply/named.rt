ghost use Rattle.std.specs.Prelude.{◌≡◌, ◌⊎◌, IfOk};
ghost use Rattle.std.specs.Option.{option_copied};
ghost use Rattle.vch_base.specs.Contents.{content_of};
ghost use Rattle.vch_base.specs.Keys.{key_of};
ghost use Rattle.vch_machine.specs.State as state;
ghost use Rattle.vch_model.specs.Replies as replies;

use crate::handles::Handles;
use crate::values::{Living, value_at};
use std::alloc::Global;
use vch_base::codes::{KERN_INVALID_ARGUMENT, KERN_INVALID_CAPABILITY, KERN_INVALID_NAME};
use vch_base::{Bytes, Code, Key, NoMemory, Value};
use vch_model::Reply;

/// A refusal with a code.
pub fn refused(code: i32) -> Reply
    ensures { result ≡ replies.refused code }
{
    Reply::Refused {
        code: Code::of(code),
    }
}

/// The reply to the drop of a name: whether the name is there.
pub fn given_up(voucher: &Option<Handles>, live: &[Living]) -> Reply
    ensures { result ≡ replies.given_up (state.valued_option live.now voucher.now) }
{
    let _ = live;
    match voucher {
        Some(_) => Reply::Done,
        None => refused(KERN_INVALID_NAME),
    }
}

/// The content of a value that may be none.
fn content(alloc: Global, value: Option<&Value>) -> Result<Bytes, NoMemory>
    ensures { IfOk result (λ made. made ≡ content_of (option_copied value.entry)) }
{
    let mut out = Vec::new(alloc);
    if let Some(value) = value {
        value.append(&mut out)?;
    }
    Ok(Bytes::from_vec(out))
}

/// The reply to an extract of a voucher that is there.
fn content_at(
    alloc: Global,
    live: &[Living],
    version: u32,
    key: u32,
    voucher: &Handles,
) -> Result<Reply, NoMemory>
    requires version { (version ≡ 1) ⊎ (version ≡ 2) }
    ensures { IfOk result (λ r. r ≡ replies.content_at (key_of version key) (state.valued live.now voucher.now)) }
{
    let Some(key) = Key::of(key, version) else {
        return Ok(refused(KERN_INVALID_ARGUMENT));
    };
    let bytes = content(alloc, value_at(live, key, voucher.at(key)))?;
    Ok(Reply::Content { bytes })
}

/// The reply to an extract: the content of the value at a key.
pub fn extracted(
    alloc: Global,
    live: &[Living],
    version: u32,
    key: u32,
    voucher: &Option<Handles>,
) -> Result<Reply, NoMemory>
    requires version { (version ≡ 1) ⊎ (version ≡ 2) }
    ensures { IfOk result (λ r. r ≡ replies.extracted version key (state.valued_option live.now voucher.now)) }
{
    match voucher {
        Some(voucher) => content_at(alloc, live, version, key, voucher),
        None => Ok(refused(KERN_INVALID_CAPABILITY)),
    }
}
