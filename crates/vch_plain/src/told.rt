//! What is told of a run at its end.
ghost use Rattle.std.specs.Prelude.{◌≡◌, ◌≤◌, true, List, reverse, IfOk};
ghost use Rattle.vch_machine.specs.State as state;
ghost use Rattle.vch_model.specs.declared.entry.Entry.{Entry};
ghost use Rattle.vch_model.specs.After.{store_of};
ghost use Rattle.vch_model.specs.Lines.{is_task};
ghost use Rattle.vch_model.specs.Scenarios.{IsLimited};
ghost use Rattle.vch_model.specs.Text.{totals_of, vouchers_in, values_in};
ghost use Rattle.vch_plain.specs.Keeping.{Keeps};
ghost use Rattle.vch_plain.specs.Played.{IsTold, total_at};
ghost use Rattle.vch_sums.specs.Summed.{IsSummed};

use crate::machine::Machine;
use crate::numbers::after_large;
use crate::played::Played;
use crate::reply::{tasks_of, vouchers};
use std::alloc::Global;
use vch_base::NoMemory;
use vch_model::{Scenario, Total, TotalList};
use vch_sums::Sums;

/// The total of a task.
fn total_of(sums: &Sums, scenario: &Scenario, task: u32) -> Total
    requires task { is_task scenario.now task ≡ true }
    ensures { (past : List Entry) → IsSummed scenario.now past sums.now → result ≡ total_at scenario.now past task }
{
    let _ = scenario;
    Total {
        ledger: sums.ledger(task) as u128,
        held: sums.held(task) as u128,
        out: sums.out(task) as u128,
    }
}

/// The totals of all tasks.
fn totals(alloc: Global, sums: &Sums, scenario: &Scenario) -> Result<TotalList, NoMemory>
    requires limited { IsLimited scenario.now }
    ensures { (past : List Entry) → IsSummed scenario.now past sums.now → IfOk result (λ made. made ≡ totals_of scenario.now past) }
{
    let mut made = TotalList::new(alloc);
    for i in 0..scenario.flags.len() {
        made.push(total_of(sums, scenario, i as u32 + 1))?;
    }
    Ok(made)
}

/// How many different vouchers names and messages have.
fn count_vouchers(
    alloc: Global,
    machine: &Machine,
    sums: &Sums,
    scenario: &Scenario,
) -> Result<u64, NoMemory>
    requires keeps { Keeps scenario.now machine.now sums.now }
    ensures { IfOk result (λ n. n ≡ vouchers_in (store_of scenario.now machine.now.past)) }
{
    let _ = sums;
    let _ = scenario;
    vouchers(alloc, tasks_of(machine))
}

/// How many values are live, Default among them.
fn count_values(machine: &Machine, sums: &Sums, scenario: &Scenario) -> Result<u64, NoMemory>
    requires keeps { Keeps scenario.now machine.now sums.now }
    ensures { IfOk result (λ n. n ≡ values_in (store_of scenario.now machine.now.past)) }
{
    let _ = machine;
    let _ = scenario;
    after_large(sums.live() as u64)
}

/// The run with what is told of it.
pub fn tell(
    alloc: Global,
    machine: Machine,
    sums: &Sums,
    scenario: &Scenario,
) -> Result<Played, NoMemory>
    requires keeps { Keeps scenario.now machine sums.now }
    ensures history { IfOk result (λ p. reverse p.history.entries ≡ machine.past) }
    ensures told { IfOk result (λ p. IsTold scenario.now p) }
{
    let totals = totals(alloc, sums, scenario)?;
    let vouchers = count_vouchers(alloc, &machine, sums, scenario)?;
    let values = count_values(&machine, sums, scenario)?;
    let Machine { history, .. } = machine;
    Ok(Played {
        history,
        totals,
        vouchers,
        values,
    })
}
