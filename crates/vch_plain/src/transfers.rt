ghost use Rattle.std.specs.Prelude.{◌≡◌, IfOk};
ghost use Rattle.vch_base.specs.Managers as managers;
ghost use Rattle.vch_base.specs.declared.value.Value.TheVariants as values;
ghost use Rattle.vch_plain.specs.Answers.{HasTask};

use crate::copy::{copy_chain, copy_value};
use std::alloc::Global;
use vch_base::limits::CHAIN_TASKS;
use vch_base::{Chain, NoMemory, Value};

/// What the bank makes of a value where a task sends it.
pub fn preprocessed(alloc: Global, sender: u32, value: &Value) -> Result<Value, NoMemory>
    requires { HasTask value.now }
    ensures same { IfOk result (λ made. made ≡ managers.preprocessed sender value.now) }
    ensures task { IfOk result HasTask }
{
    match value {
        Value::Default => Ok(Value::Task { task: sender }),
        Value::Account { holder, .. } => Ok(Value::Task { task: *holder }),
        _ => copy_value(alloc, value),
    }
}

/// What importance makes of a list where a task receives it, which is a receiver of importance or not.
fn received_chain(receiver: bool, task: u32, list: &Chain) -> Chain
    requires { HasTask (values.Chain list.now) }
    ensures same { values.Chain result ≡ managers.received receiver task (values.Chain list.now) }
    ensures task { HasTask (values.Chain result) }
{
    if receiver && list.len() < CHAIN_TASKS && list.last() != task {
        list.with(task)
    } else {
        copy_chain(list)
    }
}

/// What a manager makes of a value where a task receives it, which is a receiver of importance or not.
pub fn received(alloc: Global, receiver: bool, task: u32, value: &Value) -> Result<Value, NoMemory>
    requires { HasTask value.now }
    ensures same { IfOk result (λ made. made ≡ managers.received receiver task value.now) }
    ensures task { IfOk result HasTask }
{
    match value {
        Value::Chain { list } => Ok(Value::Chain {
            list: received_chain(receiver, task, list),
        }),
        Value::Task { task: holder } if *holder != task => Ok(Value::Account {
            holder: *holder,
            merchant: task,
        }),
        _ => copy_value(alloc, value),
    }
}
