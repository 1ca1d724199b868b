ghost use Rattle.std.specs.Prelude.{◌≡◌, ◌≤◌, length, IfOk};
ghost use Rattle.std.specs.List.{AllByRecursion};
ghost use Rattle.hex.specs.Hex.{IsBytes};
ghost use Rattle.vch_legal.specs.Reports.{IsByteValue, IsByteEntry};
ghost use Rattle.vch_report.specs.OfCore.{HasTask};
ghost use Rattle.vch_report.specs.WellFormed.{Making};

use std::alloc::Global;
use vch_base::{Bytes, Chain, NoMemory, Value};
use vch_model::{Entry, History, Reply};

/// A copy of bytes.
fn copy_bytes(alloc: Global, bytes: &[u8]) -> Result<Bytes, NoMemory>
    ensures same { IfOk result (λ made. made ≡ bytes.now) }
    ensures bytes { IfOk result (λ made. IsBytes made) }
{
    Bytes::of(alloc, bytes)
}

/// A copy of a list of tasks. It takes no memory.
fn copy_chain(list: &Chain) -> Chain
    requires { 1 ≤ length list.now }
    ensures { result ≡ list.now }
{
    let mut made = Chain::one(list.first());
    for i in 1..list.len() {
        made = made.with(list.at(i));
    }
    made
}

/// A copy of a value.
fn copy_value(alloc: Global, value: &Value) -> Result<Value, NoMemory>
    requires { HasTask value.now }
    ensures same { IfOk result (λ made. made ≡ value.now) }
    ensures bytes { IfOk result (λ made. IsByteValue made) }
{
    Ok(match value {
        Value::User { bytes } => Value::User {
            bytes: copy_bytes(alloc, bytes.as_slice())?,
        },
        Value::Chain { list } => Value::Chain {
            list: copy_chain(list),
        },
        Value::Default => Value::Default,
        Value::Task { task } => Value::Task { task: *task },
        Value::Account { holder, merchant } => Value::Account {
            holder: *holder,
            merchant: *merchant,
        },
    })
}

/// A copy of a reply.
fn copy_reply(alloc: Global, reply: &Reply) -> Result<Reply, NoMemory>
    ensures { IfOk result (λ made. made ≡ reply.now) }
{
    Ok(match reply {
        Reply::Created { name } => Reply::Created { name: *name },
        Reply::Done => Reply::Done,
        Reply::Content { bytes } => Reply::Content {
            bytes: Bytes::of(alloc, bytes.as_slice())?,
        },
        Reply::Recipe { whole, bytes } => Reply::Recipe {
            whole: *whole,
            bytes: Bytes::of(alloc, bytes.as_slice())?,
        },
        Reply::Received { sender, id, name } => Reply::Received {
            sender: *sender,
            id: *id,
            name: *name,
        },
        Reply::Ledger { amount } => Reply::Ledger { amount: *amount },
        Reply::Assertions { held, out } => Reply::Assertions {
            held: *held,
            out: *out,
        },
        Reply::Live { vouchers, values } => Reply::Live {
            vouchers: *vouchers,
            values: *values,
        },
        Reply::Refused { code } => Reply::Refused { code: *code },
    })
}

/// A copy of an entry.
fn copy_entry(alloc: Global, entry: &Entry) -> Result<Entry, NoMemory>
    requires { Making HasTask entry.now }
    ensures same { IfOk result (λ made. made ≡ entry.now) }
    ensures bytes { IfOk result (λ made. IsByteEntry made) }
{
    Ok(match entry {
        Entry::Call {
            task,
            number,
            word,
            reply,
        } => Entry::Call {
            task: *task,
            number: *number,
            word: *word,
            reply: copy_reply(alloc, reply)?,
        },
        Entry::Made { key, value } => Entry::Made {
            key: *key,
            value: copy_value(alloc, value)?,
        },
        Entry::Released { made } => Entry::Released { made: *made },
        Entry::Gone { task, name } => Entry::Gone {
            task: *task,
            name: *name,
        },
        Entry::Lost { task } => Entry::Lost { task: *task },
        Entry::Phase => Entry::Phase,
    })
}

/// A copy of a history, with room taken once.
pub fn copy_history(alloc: Global, history: &History) -> Result<History, NoMemory>
    requires { AllByRecursion (Making HasTask) history.now.entries }
    ensures same { IfOk result (λ made. made.entries ≡ history.now.entries) }
    ensures bytes { IfOk result (λ made. AllByRecursion IsByteEntry made.entries) }
{
    let mut made = History::new(alloc);
    made.reserve(history.len())?;
    for i in 0..history.len() {
        let entry = copy_entry(alloc, history.at(i))?;
        made.push(entry);
    }
    Ok(made)
}
