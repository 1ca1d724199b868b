ghost use Rattle.std.specs.Prelude.{◌≡◌, ◌+◌, ◌≤◌, ◌++◌, [], IfOk, OnOk, length};
ghost use Rattle.std.specs.List.{list_any};
ghost use Rattle.vch_machine.specs.Naming as naming;
ghost use Rattle.vch_machine.specs.State as state;
ghost use Rattle.vch_plain.specs.Counted as counted;

use crate::handles::Handles;
use crate::task::{Message, Named, Tasked};
use std::alloc::Global;
use vch_base::NoMemory;

/// Appends the vouchers of names.
fn push_names(out: &mut Vec<Handles>, names: &[Named]) -> Result<(), NoMemory>
    ensures { OnOk result (out.new.items ≡ out.old.items ++ counted.name_handles names.now) }
{
    for named in names {
        out.push(named.voucher)?;
    }
    Ok(())
}

/// Appends the vouchers of messages.
fn push_queue(out: &mut Vec<Handles>, queue: &[Message]) -> Result<(), NoMemory>
    ensures { OnOk result (out.new.items ≡ out.old.items ++ counted.queue_handles queue.now) }
{
    for message in queue {
        if let Some(voucher) = message.voucher {
            out.push(voucher)?;
        }
    }
    Ok(())
}

/// Appends the vouchers of the names and messages of a task.
fn push_task(out: &mut Vec<Handles>, task: &Tasked) -> Result<(), NoMemory>
    ensures { OnOk result (out.new.items ≡ out.old.items ++ counted.task_handles task.now) }
{
    push_names(out, task.names.as_slice())?;
    push_queue(out, task.queue.as_slice())
}

/// The vouchers that names and messages have.
fn all_handles(alloc: Global, tasks: &[Tasked]) -> Result<Vec<Handles>, NoMemory>
    ensures { IfOk result (λ made. made.items ≡ counted.all_handles tasks.now) }
{
    let mut made = Vec::new(alloc);
    for task in tasks {
        push_task(&mut made, task)?;
    }
    Ok(made)
}

/// Whether a voucher is among others.
fn is_among(voucher: &Handles, others: &[Handles]) -> bool
    ensures { result ≡ list_any (naming.same_handles voucher.now) others.now }
{
    for other in others {
        if voucher.same(other) {
            return true;
        }
    }
    false
}

/// How many different vouchers a list has.
fn count_different(all: &[Handles]) -> u64
    ensures { result ≡ counted.different_handles all.now }
{
    let mut count = 0;
    let mut i = all.len();
    while i > 0 {
        i -= 1;
        let voucher = all[i];
        if !is_among(&voucher, &all[i + 1..]) {
            count += 1;
        }
    }
    count
}

/// How many different vouchers names and messages have. The time is that of comparing each with each.
pub fn vouchers(alloc: Global, tasks: &[Tasked]) -> Result<u64, NoMemory>
    ensures { IfOk result (λ n. n ≡ counted.different_handles (counted.all_handles tasks.now)) }
{
    let all = all_handles(alloc, tasks)?;
    Ok(count_different(all.as_slice()))
}
