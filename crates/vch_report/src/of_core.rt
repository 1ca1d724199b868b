ghost use Rattle.std.specs.Prelude.{◌≡◌, ◌≤◌, length, IfOk};
ghost use Rattle.vch_model.specs.Canonical.{IsWritable};
ghost use Rattle.vch_model.specs.Text as text;
ghost use Rattle.vch_machine.specs.State.{Machine};
ghost use Rattle.vch_parts.specs.Reached.{Stands};
ghost use Rattle.vch_report.specs.OfCore.{Tells};
ghost use Rattle.vch_report.specs.WellFormed.{IsWellFormed};

use crate::Report;
use crate::copies::copy_history;
use std::alloc::Global;
use vch_base::NoMemory;
use vch_model::TotalList;
use vch_whole::Core;

/// The totals of all tasks.
fn totals_of(alloc: Global, core: &Core) -> Result<TotalList, NoMemory>
    ensures { IfOk result (λ made. (m : Machine) → Stands core.now m → made ≡ text.totals_of core.now.scenario m.past) }
{
    core.know();
    let mut made = TotalList::new(alloc);
    for task in 1..core.scenario().flags.len() as u32 + 1 {
        made.push(core.total(task))?;
    }
    Ok(made)
}

/// The report of a core whose phases have all ended: a copy of its history, the totals of its tasks, and what lives at its
/// end.
///
/// The room is linear in the history and the number of tasks, and is taken for all entries at once; the time is linear in
/// these.
///
/// # Errors
///
/// Out of memory alone.
pub fn report_of(alloc: Global, core: &Core) -> Result<Report, NoMemory>
    requires ended { length core.now.scenario.phases ≤ core.now.phase }
    requires writable { IsWritable core.now.scenario }
    ensures tells { IfOk result (λ report. Tells core.now.scenario core.now.history.entries report) }
    ensures well_formed { IfOk result (λ report. IsWellFormed report) }
{
    core.know();
    let history = copy_history(alloc, core.history())?;
    let totals = totals_of(alloc, core)?;
    let vouchers = core.vouchers();
    let values = core.values();
    Ok(Report {
        version: core.scenario().version,
        history,
        totals,
        vouchers,
        values,
    })
}
