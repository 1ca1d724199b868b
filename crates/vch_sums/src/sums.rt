ghost use Rattle.std.specs.Prelude.{◌≡◌, ◌+◌, [], ℕ, List, true, length, Some, IfOk, OnOk};
ghost use Rattle.vch_base.specs.Tasks.{at_task};
ghost use Rattle.vch_model.specs.declared.entry.Entry.{Entry};
ghost use Rattle.vch_model.specs.declared.entry.Entry.TheVariants as entries;
ghost use Rattle.vch_model.specs.declared.lists.Scenario.{Scenario};
ghost use Rattle.vch_base.specs.declared.value.Value.TheVariants as values;
ghost use Rattle.vch_model.specs.After.{store_of};
ghost use Rattle.vch_model.specs.Lines.{is_task};
ghost use Rattle.vch_model.specs.Totals.{external, due, ledger, held, out, with_made};
ghost use Rattle.vch_sums.specs.Steps.{Puts, Takes, Gains, Loses, Settles, gains, loses, credited, raised};
ghost use Rattle.vch_sums.specs.Summed.{IsSummed, Follows, FollowsCount, FollowsCharge, row_at};

use crate::counts::Counts;
use crate::row::{Row, Share, share_of, sum, weight};
use indexmap::IndexMap;
use std::alloc::Global;
use std::marker::Model;
use vch_base::{NoMemory, Value};
use vch_model::Scenario;

/// The sums of a history: a row for each live value, by the number of its Made entry, and for each task its ledger, what it holds
/// and what is out from it.
///
/// Every call takes constant time, on the average where it is about one value. Out of memory also stands for an amount that would
/// pass 2 to the 64. After an error the sums are good for nothing.
#[derive(Drop)]
pub struct Sums {
    rows: IndexMap<u32, Row>,
    ledgers: Counts,
    held: Counts,
    out: Counts,
}

impl Model for Sums {
    ghost use Rattle.vch_sums.specs.Steps.{Puts, Takes, Gains, Loses, Settles, gains, loses, credited, raised};
    ghost use Rattle.vch_sums.specs.Summed.{Summed};

    ghost Value = { Summed };

    ghost view = { λ s. record { rows = s.rows.entries; ledgers = s.ledgers; held = s.held; out = s.out } };
}

impl Sums {
    /// The sums of the empty history. The one error is out of memory.
    pub fn start(alloc: Global, scenario: &Scenario) -> Result<Sums, NoMemory>
        ensures { IfOk result (λ made. IsSummed scenario.now [] made) }
    {
        let tasks = scenario.flags.len();
        Ok(Sums {
            rows: IndexMap::new(alloc),
            ledgers: Counts::new(alloc, tasks)?,
            held: Counts::new(alloc, tasks)?,
            out: Counts::new(alloc, tasks)?,
        })
    }

    /// Follows a Made entry with this number, of a value.
    pub fn made(&mut self, scenario: &Scenario, number: u32, value: &Value) -> Result<(), NoMemory>
        ensures { OnOk result ((past : List Entry) (key : ℕ) → number ≡ length past + 1 → Follows scenario.now past (entries.Made key value.now) self.old self.new) }
    {
        let share = share_of(scenario, value);
        let gained = weight(share, 0)?;
        self.put_more(number, Row { share, amount: 0 }, gained)
    }

    /// Follows a Released entry of the value with this number: what is due on an account is credited to its holder.
    pub fn released(&mut self, number: u32) -> Result<(), NoMemory>
        ensures { OnOk result ((sc : Scenario) (past : List Entry) → Follows sc past (entries.Released number) self.old self.new) }
    {
        match self.row(number) {
            Some(row) => self.settle(number, row),
            None => Ok(()),
        }
    }

    /// Follows an accepted change of the external count of the list with this number: so many more, or so many fewer.
    pub fn counted(&mut self, number: u32, adding: bool, n: u32) -> Result<(), NoMemory>
        ensures { OnOk result (FollowsCount number adding n self.old self.new) }
    {
        let Some(row) = self.row(number) else {
            return Ok(());
        };
        let n = n as u64;
        if adding {
            let amount = sum(row.amount, n)?;
            return self.put_more(number, Row { amount, ..row }, n);
        }
        let amount = row.amount.saturating_sub(n);
        self.put_less(number, Row { amount, ..row }, n)
    }

    /// Follows an accepted charge by a task on the bank value with this number: on an account it is due, and on the task's own value
    /// it is credited at once.
    pub fn charged(&mut self, number: u32, task: u32, n: u32) -> Result<(), NoMemory>
        ensures { OnOk result (FollowsCharge number task n self.old self.new) }
    {
        let Some(row) = self.row(number) else {
            return Ok(());
        };
        if let Share::Account { .. } = row.share {
            let amount = sum(row.amount, n as u64)?;
            return self.put(number, Row { amount, ..row });
        }
        self.earn(task, n as u64)
    }

    /// Writes the row of a number. The one error is out of memory.
    fn put(&mut self, number: u32, row: Row) -> Result<(), NoMemory>
        ensures { OnOk result (Puts number row self.old self.new) }
    {
        self.rows.insert(number, row)?;
        Ok(())
    }

    /// The assertions of a value rise.
    fn gain(&mut self, share: Share, n: u64) -> Result<(), NoMemory>
        ensures { OnOk result (self.new ≡ gains share n self.old) }
    {
        if let Share::List { first, last, .. } = share {
            self.held.raise(last, n)?;
            self.out.raise(first, n)?;
        }
        Ok(())
    }

    /// The assertions of a value fall.
    fn lose(&mut self, share: Share, n: u64)
        ensures { self.new ≡ loses share n self.old }
    {
        if let Share::List { first, last, .. } = share {
            self.held.lower(last, n);
            self.out.lower(first, n);
        }
    }

    /// Writes the row of a number, whose assertions rise.
    fn put_more(&mut self, number: u32, row: Row, n: u64) -> Result<(), NoMemory>
        ensures { OnOk result (Gains number row n self.old self.new) }
    {
        self.put(number, row)?;
        self.gain(row.share, n)
    }

    /// Writes the row of a number, whose assertions fall.
    fn put_less(&mut self, number: u32, row: Row, n: u64) -> Result<(), NoMemory>
        ensures { OnOk result (Loses number row n self.old self.new) }
    {
        self.put(number, row)?;
        self.lose(row.share, n);
        Ok(())
    }

    /// A task is credited.
    fn earn(&mut self, task: u32, n: u64) -> Result<(), NoMemory>
        ensures { OnOk result (self.new ≡ record self.old { ledgers = raised self.old.ledgers task n }) }
    {
        self.ledgers.raise(task, n)
    }

    /// What is due on an account is credited to its holder.
    fn credit(&mut self, row: Row) -> Result<(), NoMemory>
        ensures { OnOk result (self.new ≡ record self.old { ledgers = credited row self.old.ledgers }) }
    {
        if let Share::Account { holder } = row.share {
            return self.earn(holder, row.amount);
        }
        Ok(())
    }

    /// The row of a number goes.
    fn take(&mut self, number: u32)
        ensures { Takes number self.old self.new }
    {
        self.rows.swap_remove(&number);
    }

    /// The row of a number goes: what is due is credited, and its assertions go back.
    fn settle(&mut self, number: u32, row: Row) -> Result<(), NoMemory>
        ensures { OnOk result (Settles number row self.old self.new) }
    {
        let weight = weight(row.share, row.amount)?;
        self.take(number);
        self.credit(row)?;
        self.lose(row.share, weight);
        Ok(())
    }

    /// The row of the live value with this number, or nothing where there is none.
    pub fn row(&self, number: u32) -> Option<Row>
        ensures { result ≡ row_at self.now.rows number }
    {
        self.rows.get(&number).copied()
    }

    /// How many values but Default are live.
    pub fn live(&self) -> usize
        ensures list { result ≡ length self.now.rows }
        ensures live { (sc : Scenario) (past : List Entry) → IsSummed sc past self.now → result ≡ length (store_of sc past).live }
    {
        self.rows.len()
    }

    /// The external count of the list with this number; what is due on the account with it. 0 of any other number.
    pub fn amount(&self, number: u32) -> u64
        ensures external { (sc : Scenario) (past : List Entry) (list : List ℕ) → IsSummed sc past self.now → with_made (store_of sc past).live number ≡ Some (values.Chain list) → result ≡ external sc past (values.Chain list) }
        ensures due { (sc : Scenario) (past : List Entry) (holder merchant : ℕ) → IsSummed sc past self.now → with_made (store_of sc past).live number ≡ Some (values.Account holder merchant) → result ≡ due sc past (values.Account holder merchant) }
    {
        match self.row(number) {
            Some(row) => row.amount,
            None => 0,
        }
    }

    /// The charges credited to a task; 0 of an unknown task.
    pub fn ledger(&self, task: u32) -> u64
        ensures { (sc : Scenario) (past : List Entry) → IsSummed sc past self.now → is_task sc task ≡ true → result ≡ ledger sc past task }
    {
        self.ledgers.at(task)
    }

    /// The assertions that a task holds; 0 of an unknown task.
    pub fn held(&self, task: u32) -> u64
        ensures { (sc : Scenario) (past : List Entry) → IsSummed sc past self.now → is_task sc task ≡ true → result ≡ held sc past task }
    {
        self.held.at(task)
    }

    /// The assertions that are out from a task; 0 of an unknown task.
    pub fn out(&self, task: u32) -> u64
        ensures { (sc : Scenario) (past : List Entry) → IsSummed sc past self.now → is_task sc task ≡ true → result ≡ out sc past task }
    {
        self.out.at(task)
    }
}
