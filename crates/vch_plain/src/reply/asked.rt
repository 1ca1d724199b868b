ghost use Rattle.std.specs.Prelude.{◌≡◌, ◌<◌, ◌≤◌, ◌-◌, ℕ, List, length, Some, None, IfOk, slice_index};
ghost use Rattle.std.specs.Option.{option_copied};
ghost use Rattle.vch_base.specs.declared.value.Value.TheVariants as values;
ghost use Rattle.vch_machine.specs.State as state;
ghost use Rattle.vch_model.specs.Lines.{is_task};
ghost use Rattle.vch_model.specs.Replies as replies;
ghost use Rattle.vch_model.specs.Store.{limit_of};
ghost use Rattle.vch_model.specs.Totals as totals;
ghost use Rattle.vch_plain.specs.Replied.{ends_with, counted, received};

use crate::handles::Handles;
use crate::reply::named::refused;
use crate::task::Message;
use crate::values::{Living, value_at};
use vch_base::codes::{
    KERN_FAILURE, KERN_INVALID_ARGUMENT, KERN_INVALID_CAPABILITY, MACH_RCV_TIMED_OUT,
};
use vch_base::limits::LAST_WORD;
use vch_base::{Chain, Key, Value};
use vch_model::{Reply, Scenario};

/// Whether a list of two or more ends with a task.
fn is_last(list: &Chain, task: u32) -> bool
    ensures { result ≡ totals.last_is task (totals.tasks_of (values.Chain list.now)) }
{
    list.len() > 1 && list.last() == task
}

/// Whether a value is a list of two or more that ends with a task.
pub fn ends_with(value: Option<&Value>, task: u32) -> bool
    ensures { result ≡ ends_with task (option_copied value.entry) }
{
    match value {
        Some(Value::Chain { list }) => is_last(list, task),
        _ => false,
    }
}

/// Whether a task may charge a bank value.
pub fn may_charge(value: Option<&Value>, task: u32) -> bool
    ensures { result ≡ replies.may_charge task (option_copied value.entry) }
{
    match value {
        Some(Value::Task { task: own }) => *own == task,
        Some(Value::Account { merchant, .. }) => *merchant == task,
        _ => false,
    }
}

/// The reply to a change of an external count that stands at an amount.
pub fn counted(amount: u64, adding: bool, n: u32) -> Reply
    ensures { result ≡ counted amount adding n }
{
    let n = n as u64;
    let within = if adding {
        amount <= LAST_WORD as u64 && amount + n <= LAST_WORD as u64
    } else {
        n <= amount
    };
    if within {
        return Reply::Done;
    }
    refused(KERN_FAILURE)
}

/// The reply to a receive that takes no voucher.
pub fn received(queue: &[Message]) -> Reply
    ensures { result ≡ received queue.now }
{
    if queue.is_empty() {
        return refused(MACH_RCV_TIMED_OUT);
    }
    let message = &queue[0];
    Reply::Received {
        sender: message.sender,
        id: message.id,
        name: 0,
    }
}
