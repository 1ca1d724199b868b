ghost use Rattle.std.specs.Prelude.{◌≡◌, ◌≤◌, ◌<◌, ◌+◌, ◌-◌, [], ◌∷◌, ◌++◌, length, OnOk, OnErr, slice_get, Some};
ghost use Rattle.vch_model.specs.Rows.{with_line};

use crate::{Line, Total};
use std::alloc::Global;
use std::marker::Model;
use vch_base::{Flags, NoMemory};

/// Items in their order, seen as a list.
#[derive(Drop)]
pub struct Items<T: Drop> {
    items: Vec<T>,
}

impl<T: Drop> Model for Items<T> {
    ghost use Rattle.std.specs.Prelude.{List};

    ghost Value = { List T };

    ghost view = { λ l. l.items.items };
}

impl<T: Drop> Items<T> {
    /// The empty list. It takes no memory.
    pub fn new(alloc: Global) -> Items<T>
        ensures { result ≡ [] }
    {
        Items {
            items: Vec::new(alloc),
        }
    }

    /// Appends an item, in constant time on the average. The one error is out of memory.
    pub fn push(&mut self, item: T) -> Result<(), NoMemory>
        ensures ok { OnOk result (self.new ≡ self.old ++ item ∷ []) }
        ensures err { OnErr result (self.new ≡ self.old) }
    {
        self.items.push(item)?;
        Ok(())
    }

    /// How many items it has.
    pub fn len(&self) -> usize
        ensures { result ≡ length self.now }
    {
        self.items.len()
    }

    /// The item at a place, counted from 0.
    pub fn at(&self, i: usize) -> &T
        requires { i < length self.now }
        ensures { slice_get self.now i ≡ Some result.now }
    {
        &self.items[i]
    }
}

/// The flags of the tasks 1, 2, 3 and so on.
pub type FlagList = Items<Flags>;

/// The queue limits of the tasks 1, 2, 3 and so on.
pub type QueueList = Items<u32>;

/// The lines of one phase, in their order.
pub type LineList = Items<Line>;

/// The phases of a scenario, each with its lines.
pub type PhaseList = Items<LineList>;

/// The totals of the tasks 1, 2, 3 and so on.
pub type TotalList = Items<Total>;

impl PhaseList {
    /// Appends a line to the last phase. The one error is out of memory.
    pub fn add_line(&mut self, line: Line) -> Result<(), NoMemory>
        requires { 1 ≤ length self.old }
        ensures ok { OnOk result (self.new ≡ with_line self.old line) }
        ensures err { OnErr result (self.new ≡ self.old) }
    {
        let last = self.items.len() - 1;
        self.items[last].push(line)
    }
}

/// The version of its text, each task's flags and the messages that its queue may have, and the calls of each phase.
/// In version 1 each queue may have five messages, and there is no exit.
#[derive(Drop)]
pub struct Scenario {
    pub version: u32,
    pub flags: FlagList,
    pub queues: QueueList,
    pub phases: PhaseList,
}
