ghost use Rattle.std.specs.Prelude.{◌≡◌, ◌↔◌, ◌+◌, ◌&&◌, nat_lt, true, IsTrue};
ghost use Rattle.std.specs.List.{AllByRecursion};
ghost use Rattle.vch_model.specs.Lines.{is_task};
ghost use Rattle.vch_runs.specs.Runs.{Drives};

use crate::stepped::step;
use std::alloc::Global;
use vch_whole::Core;

/// Whether a number is that of one of so many tasks.
fn is_one_of(task: u32, tasks: usize) -> bool
    ensures { result ≡ nat_lt 0 task && nat_lt task (tasks + 1) }
{
    task > 0 && task as usize <= tasks
}

/// Whether each number of an order is a task of the core's scenario.
pub fn are_tasks(core: &Core, order: &[u32]) -> bool
    ensures { IsTrue result ↔ AllByRecursion (λ t. is_task core.now.scenario t ≡ true) order.now }
{
    let tasks = core.scenario().flags.len();
    for i in 0..order.len() {
        if !is_one_of(order[i], tasks) {
            return false;
        }
    }
    true
}

/// One step of each task of an order, one after the other. A task that cannot go is passed over, and no phase ends.
pub fn drive(core: &mut Core, alloc: Global, order: &[u32])
    requires tasks { AllByRecursion (λ t. is_task core.old.scenario t ≡ true) order.now }
    ensures { Drives order.now core.old core.new }
{
    for i in 0..order.len() {
        step(core, alloc, order[i]);
    }
}
