ghost use Rattle.std.specs.Prelude.{◌≡◌, ◌↔◌, ◌<◌, ◌+◌, IsTrue, MatchOption, true, Some, length, slice_get};
ghost use Rattle.vch_model.specs.Lines.{is_task};
ghost use Rattle.vch_model.specs.Text.{totals_of};
ghost use Rattle.vch_books.specs.Audits.{past_at};
ghost use Rattle.vch_certify.specs.Endings.{total_of};
ghost use Rattle.vch_certify.specs.Verdicts.{IsFirstOther};

use vch_books::Books;
use vch_model::{Total, TotalList};

/// Whether a total is that of a task.
fn is_total(books: &Books, total: &Total, task: u32) -> bool
    requires { is_task books.now.scenario task ≡ true }
    ensures { IsTrue result ↔ (total.now ≡ total_of books.now.scenario (past_at books.now) task) }
{
    total.ledger == u128::from(books.ledger(task))
        && total.held == u128::from(books.held(task))
        && total.out == u128::from(books.out(task))
}

/// Whether the total at a place is there, and that of its task.
#[tactic(auto, using(crate::proofs::TaskTotals::none_behind))]
fn is_right(books: &Books, totals: &TotalList, i: usize) -> bool
    requires inside { i < length books.now.scenario.flags }
    ensures { IsTrue result ↔ (slice_get totals.now i ≡ Some (total_of books.now.scenario (past_at books.now) (i + 1))) }
{
    books.know();
    if i >= totals.len() {
        return false;
    }
    is_total(books, totals.at(i), i as u32 + 1)
}

/// The lowest task whose total differs, or nothing where none does. One that is missing or too many differs.
pub fn first_other(books: &Books, totals: &TotalList) -> Option<u32>
    ensures { MatchOption result (totals.now ≡ totals_of books.now.scenario (past_at books.now)) (λ task. IsFirstOther totals.now (totals_of books.now.scenario (past_at books.now)) task) }
{
    books.know();
    let tasks = books.scenario().flags.len();
    for i in 0..tasks {
        if !is_right(books, totals, i) {
            return Some(i as u32 + 1);
        }
    }
    if totals.len() > tasks {
        return Some(tasks as u32 + 1);
    }
    None
}
