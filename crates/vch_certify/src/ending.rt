ghost use Rattle.vch_books.specs.Audits.{past_at};
ghost use Rattle.vch_certify.specs.Endings.{IsEnding};

use crate::Flaw;
use vch_books::Books;

/// The first flaw of what has to be over at the end of a legal history, or nothing where all is.
#[tactic(auto, using(crate::proofs::Phases::phases_few))]
pub fn ending(books: &Books) -> Option<Flaw>
    ensures { IsEnding books.now.scenario (past_at books.now) result }
{
    books.know();
    if let Some(uncalled) = books.first_uncalled() {
        return Some(Flaw::Call {
            task: uncalled.task,
            number: uncalled.number,
        });
    }
    let ended = books.phases();
    if (ended as usize) < books.scenario().phases.len() {
        return Some(Flaw::Phase { phase: ended + 1 });
    }
    match books.first_left() {
        Some(made) => Some(Flaw::Left { made }),
        None => None,
    }
}
