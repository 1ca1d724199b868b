//! The summary of a run in turn of a generated scenario.
ghost use Rattle.std.specs.Prelude.{◌≡◌, ◌<◌, ◌≤◌, ◌*◌, ◌^◌, ◌++◌, codes, cond, length, IfOk, OnOk};
ghost use Rattle.std.specs.List.{count_by};
ghost use Rattle.vch_replay.specs.Loads as loads;
ghost use Rattle.vch_model.specs.Text.{spaced};
ghost use Rattle.vch_replay.specs.Loads.{IsSummary, count_lines, credited, ledger_lines, number_line, summary_text};

use crate::reports::report_in_turn;
use std::alloc::Global;
use vch_base::NoMemory;
use vch_generate::{generate, generated_is_writable};
use vch_model::{Entry, History, Reply, TotalList};
use vch_report::Report;
use vch_text::{push_spaced, push_text};

/// Which entries a line counts.
#[derive(Clone, Copy)]
enum Counted {
    Calls,
    Refused,
    Made,
    Released,
}

impl Counted {
    /// Whether an entry is one of these.
    fn has(self, entry: &Entry) -> bool
        ensures { result ≡ loads.is_counted self entry.now }
    {
        match self {
            Counted::Calls => matches!(entry, Entry::Call { .. }),
            Counted::Refused => matches!(
                entry,
                Entry::Call {
                    reply: Reply::Refused { .. },
                    ..
                }
            ),
            Counted::Made => matches!(entry, Entry::Made { .. }),
            Counted::Released => matches!(entry, Entry::Released { .. }),
        }
    }

    /// 1 for one of these, and 0 for another entry.
    fn weight(self, entry: &Entry) -> u64
        ensures { result ≡ cond (loads.is_counted self entry.now) 1 0 }
    {
        if self.has(entry) { 1 } else { 0 }
    }

    /// How many entries of a history are these.
    fn count(self, history: &History) -> u64
        ensures { result ≡ count_by (loads.is_counted self) history.now.entries }
    {
        let mut count = 0;
        for i in 0..history.len() {
            count += self.weight(history.at(i));
        }
        count
    }
}

/// The sum of all ledgers after so many entries, each of which credits less than 2 to the 32.
fn sum_of_ledgers(totals: &TotalList, _entries: usize) -> u128
    requires { credited totals.now ≤ _entries * 4294967295 }
    ensures { result ≡ credited totals.now }
{
    let mut sum = 0;
    for i in 0..totals.len() {
        sum += totals.at(i).ledger;
    }
    sum
}

/// Appends a line of a word and a number.
fn push_line(out: &mut Vec<u8>, word: &[u8], n: u128) -> Result<(), NoMemory>
    ensures { OnOk result (out.new.items ≡ out.old.items ++ number_line word.now n) }
{
    push_text(out, word)?;
    push_spaced(out, n)?;
    push_text(out, b"\n")
}

/// Appends the line of a task's ledger.
fn push_ledger(out: &mut Vec<u8>, task: u64, ledger: u128) -> Result<(), NoMemory>
    ensures { OnOk result (out.new.items ≡ out.old.items ++ number_line (codes "task" ++ spaced task ++ codes " ledger") ledger) }
{
    push_text(out, b"task")?;
    push_spaced(out, task)?;
    push_line(out, b" ledger", ledger)
}

/// Appends the lines of the tasks' ledgers.
fn push_ledgers(out: &mut Vec<u8>, totals: &TotalList) -> Result<(), NoMemory>
    requires { length totals.now < 2 ^ 32 }
    ensures { OnOk result (out.new.items ≡ out.old.items ++ ledger_lines 1 totals.now) }
{
    for i in 0..totals.len() {
        push_ledger(out, i as u64 + 1, totals.at(i).ledger)?;
    }
    Ok(())
}

/// Appends the lines of what a history has.
fn push_counts(out: &mut Vec<u8>, history: &History) -> Result<(), NoMemory>
    ensures { OnOk result (out.new.items ≡ out.old.items ++ count_lines history.now.entries) }
{
    push_line(out, b"calls", u128::from(Counted::Calls.count(history)))?;
    push_line(out, b"refused", u128::from(Counted::Refused.count(history)))?;
    push_line(out, b"made", u128::from(Counted::Made.count(history)))?;
    push_line(
        out,
        b"released",
        u128::from(Counted::Released.count(history)),
    )
}

/// The summary of a report.
fn summary(alloc: Global, n: u64, report: &Report) -> Result<Vec<u8>, NoMemory>
    requires tasks { length report.now.totals < 2 ^ 32 }
    requires fits { credited report.now.totals ≤ length report.now.history.entries * 4294967295 }
    ensures { IfOk result (λ text. text.items ≡ summary_text n report.now.history.entries report.now.totals report.now.vouchers report.now.values) }
{
    let mut out = Vec::new(alloc);
    push_line(&mut out, b"load", u128::from(n))?;
    push_counts(&mut out, &report.history)?;
    let credited = sum_of_ledgers(&report.totals, report.history.len());
    push_line(&mut out, b"credited", credited)?;
    push_ledgers(&mut out, &report.totals)?;
    push_line(&mut out, b"vouchers", u128::from(report.vouchers))?;
    push_line(&mut out, b"values", u128::from(report.values))?;
    push_text(&mut out, b"end\n")?;
    Ok(out)
}

/// The summary of the run in turn of the scenario that is drawn from a number.
pub fn load_text(alloc: Global, n: u64) -> Result<Vec<u8>, NoMemory>
    ensures { IfOk result (λ text. IsSummary n text.items) }
{
    generated_is_writable();
    let scenario = generate(alloc, n)?;
    let report = report_in_turn(alloc, scenario)?;
    summary(alloc, n, &report)
}
