ghost use Rattle.std.specs.Prelude.{◌≡◌, ◌<◌, IfOk, length};
ghost use Rattle.vch_model.specs.Legal.{Ended};
ghost use Rattle.vch_model.specs.Scenarios.{IsLimited};
ghost use Rattle.vch_books.specs.Audits.{past_at};
ghost use Rattle.vch_judge.specs.Judged.{whole_audit};
ghost use Rattle.vch_certify.specs.Verdicts.{IsVerdict, IsOfVersion, history_of};

use crate::ending::ending;
use crate::totals::first_other;
use crate::{Flaw, Verdict};
use std::alloc::Global;
use vch_base::NoMemory;
use vch_books::Books;
use vch_judge::{Judged, judge_history};
use vch_model::Scenario;
use vch_report::Report;

/// The verdict on a report of a whole history.
fn on_sums(books: &Books, report: &Report) -> Verdict
    requires version { IsOfVersion books.now.scenario report.now }
    requires all { books.now ≡ whole_audit books.now.scenario (history_of report.now) }
    requires ended { Ended books.now.scenario (past_at books.now) }
    ensures { IsVerdict books.now.scenario report.now result }
{
    books.know();
    if let Some(task) = first_other(books, &report.totals) {
        return Verdict::Not {
            flaw: Flaw::Total { task },
        };
    }
    if books.vouchers() == report.vouchers && books.values() == report.values {
        Verdict::Whole
    } else {
        Verdict::Not { flaw: Flaw::Count }
    }
}

/// The verdict on a report of a legal history.
fn on_legal(books: &Books, report: &Report) -> Verdict
    requires version { IsOfVersion books.now.scenario report.now }
    requires all { books.now ≡ whole_audit books.now.scenario (history_of report.now) }
    ensures { IsVerdict books.now.scenario report.now result }
{
    books.know();
    match ending(books) {
        Some(flaw) => Verdict::Not { flaw },
        None => on_sums(books, report),
    }
}

/// Whether a report is one of a scenario: whole, or the first flaw that it has, in the order of [`Flaw`]. The one error is out
/// of memory.
///
/// The verdict is [`Verdict::Whole`] exactly where the history of the report is a whole one of the scenario, and the version,
/// the totals and the numbers of vouchers and values are those of it.
pub fn certify(alloc: Global, scenario: &Scenario, report: &Report) -> Result<Verdict, NoMemory>
    requires limited { IsLimited scenario.now }
    requires short { length (history_of report.now) < 4294967296 }
    ensures { IfOk result (λ verdict. IsVerdict scenario.now report.now verdict) }
{
    if report.version != scenario.version {
        return Ok(Verdict::Not {
            flaw: Flaw::Version,
        });
    }
    match judge_history(alloc, scenario, &report.history)? {
        Judged::Legal { books } => Ok(on_legal(&books, report)),
        Judged::Not { number } => Ok(Verdict::Not {
            flaw: Flaw::Entry { number },
        }),
    }
}
