ghost use Rattle.std.specs.Prelude.{◌≡◌, IfOk, OnOk, replicate};
ghost use Rattle.vch_base.specs.Tasks.{at_task, set_task};
ghost use Rattle.vch_sums.specs.Steps.{raised, lowered};

use crate::row::sum;
use std::alloc::Global;
use std::marker::Model;
use vch_base::NoMemory;

/// A number for each of the tasks 1, 2, 3 and so on.
#[derive(Drop)]
pub struct Counts {
    items: Vec<u64>,
}

impl Model for Counts {
    ghost use Rattle.std.specs.Prelude.{List, ℕ};

    ghost Value = { List ℕ };

    ghost view = { λ c. c.items.items };
}

impl Counts {
    /// 0 for each of so many tasks. The one error is out of memory.
    pub fn new(alloc: Global, tasks: usize) -> Result<Counts, NoMemory>
        ensures { IfOk result (λ made. made ≡ replicate tasks 0) }
    {
        let mut items = Vec::new(alloc);
        items.resize(tasks, 0)?;
        Ok(Counts { items })
    }

    /// The number of a task; 0 of an unknown task. Constant time.
    pub fn at(&self, task: u32) -> u64
        ensures { result ≡ at_task self.now task 0 }
    {
        if task == 0 {
            return 0;
        }
        self.items.get(task as usize - 1).copied().unwrap_or(0)
    }

    /// A task has so many more. It is out of memory where the number would pass 2 to the 64. Constant time.
    pub fn raise(&mut self, task: u32, more: u64) -> Result<(), NoMemory>
        ensures { OnOk result (self.new ≡ raised self.old task more) }
    {
        let count = sum(self.at(task), more)?;
        self.set(task, count);
        Ok(())
    }

    /// A task has so many fewer. Constant time.
    pub fn lower(&mut self, task: u32, less: u64)
        ensures { self.new ≡ lowered self.old task less }
    {
        let count = self.at(task).saturating_sub(less);
        self.set(task, count);
    }

    /// Writes the number of a task; of an unknown task it writes nothing.
    fn set(&mut self, task: u32, count: u64)
        ensures { self.new ≡ set_task self.old task count }
    {
        let tasks = self.items.len();
        if task > 0 && task as usize <= tasks {
            self.items[task as usize - 1] = count;
        }
    }
}
