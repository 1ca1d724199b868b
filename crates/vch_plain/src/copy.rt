ghost use Rattle.std.specs.Prelude.{◌≡◌, ◌≤◌, IfOk, length};
ghost use Rattle.vch_plain.specs.Answers.{HasTask};

use crate::task::{Claim, Frame};
use std::alloc::Global;
use vch_base::{Bytes, Chain, NoMemory, Value};

/// A copy of a list of tasks. It takes no memory.
pub fn copy_chain(list: &Chain) -> Chain
    requires { 1 ≤ length list.now }
    ensures { result ≡ list.now }
{
    let mut made = Chain::one(list.first());
    for i in 1..list.len() {
        made = made.with(list.at(i));
    }
    made
}

/// A copy of a value.
pub fn copy_value(alloc: Global, value: &Value) -> Result<Value, NoMemory>
    requires { HasTask value.now }
    ensures { IfOk result (λ made. made ≡ value.now) }
{
    Ok(match value {
        Value::User { bytes } => Value::User {
            bytes: Bytes::of(alloc, bytes.as_slice())?,
        },
        Value::Chain { list } => Value::Chain {
            list: copy_chain(list),
        },
        Value::Default => Value::Default,
        Value::Task { task } => Value::Task { task: *task },
        Value::Account { holder, merchant } => Value::Account {
            holder: *holder,
            merchant: *merchant,
        },
    })
}

/// A copy of a claim that may be none. It takes no memory.
fn copy_claim(claim: &Option<Claim>) -> Option<Claim>
    ensures { result ≡ claim.now }
{
    match claim {
        Some(claim) => Some(Claim {
            place: claim.place,
            raced: claim.raced,
            back: claim.back,
            answer: claim.answer,
        }),
        None => None,
    }
}

/// A copy of a frame.
pub fn copy_frame(alloc: Global, frame: &Frame) -> Result<Frame, NoMemory>
    ensures { IfOk result (λ made. made ≡ frame.now) }
{
    let keys = Vec::from_slice(alloc, frame.keys.as_slice())?;
    let lets = Vec::from_slice(alloc, frame.lets.as_slice())?;
    Ok(Frame {
        forming: frame.forming,
        answered: frame.answered,
        at_byte: frame.at_byte,
        keys,
        receipt: frame.receipt,
        lets,
        claim: copy_claim(&frame.claim),
    })
}
