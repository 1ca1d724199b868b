ghost use Rattle.std.specs.Prelude.{◌≡◌, ◌<◌, ◌≤◌, length, IfOk, Err, false};
ghost use Rattle.vch_base.specs.declared.limits.TheConstants.{ARRAY_BYTES};
ghost use Rattle.vch_base.specs.declared.codes.TheConstants.{KERN_INVALID_ARGUMENT};
ghost use Rattle.vch_model.specs.Voucher.{Voucher};
ghost use Rattle.vch_judge.specs.Creates.{IsGoing, IsEvaluated, IsCreated};
ghost use Rattle.vch_judge.specs.Formed.{IsFormed};

use crate::formed::{Formed, voucher_of};
use crate::record::{Record, asks_manager, evaluate};
use std::alloc::Global;
use vch_base::codes::KERN_INVALID_ARGUMENT;
use vch_base::{Code, NoMemory};
use vch_books::{Books, Numbers};
use vch_recipe::{Step, next_recipe};

/// What the records of a create make: a voucher or a code, and whether one of them asked a manager before.
#[derive(Clone, Copy, Debug)]
pub struct Evaluation {
    pub outcome: Result<Formed, Code>,
    pub asked: bool,
}

/// How a create goes on at a place of its bytes.
#[derive(Clone, Copy, Debug)]
pub enum Going {
    /// Behind a record that has no code.
    On {
        formed: Formed,
        asked: bool,
        next: usize,
    },
    /// Not at all.
    Over {
        evaluation: Evaluation,
    },
}

/// It is over with a code, which no record that asks a manager has.
fn cut() -> Going
    ensures { result ≡ Going.Over (record { outcome = Err (record { number = KERN_INVALID_ARGUMENT }); asked = false }) }
{
    Going::Over {
        evaluation: Evaluation {
            outcome: Err(Code::of(KERN_INVALID_ARGUMENT)),
            asked: false,
        },
    }
}

/// The record of a create at a place.
fn go_on(
    books: &Books,
    alloc: Global,
    task: u32,
    bytes: &[u8],
    at: usize,
    formed: Formed,
) -> Result<Going, NoMemory>
    requires inside { at ≤ length bytes.now }
    ensures { (map : Voucher) → IsFormed books.now formed map → IfOk result (λ going. IsGoing books.now task bytes.now at map going) }
{
    match next_recipe(bytes, at) {
        Step::One {
            key,
            command,
            previous,
            content,
            next,
        } => {
            let given = Record {
                key,
                command,
                previous,
                content,
            };
            let asked = asks_manager(books, task, given);
            match evaluate(books, alloc, task, given, formed)? {
                Ok(formed) => Ok(Going::On {
                    formed,
                    asked,
                    next,
                }),
                Err(code) => Ok(Going::Over {
                    evaluation: Evaluation {
                        outcome: Err(code),
                        asked,
                    },
                }),
            }
        }
        Step::End => Ok(Going::Over {
            evaluation: Evaluation {
                outcome: Ok(formed),
                asked: false,
            },
        }),
        _ => Ok(cut()),
    }
}

/// What the records of a create make.
pub fn evaluate_all(
    books: &Books,
    alloc: Global,
    task: u32,
    bytes: &[u8],
) -> Result<Evaluation, NoMemory>
    requires some { 0 < length bytes.now }
    ensures { IfOk result (λ evaluation. IsEvaluated books.now task bytes.now evaluation) }
{
    let mut at = 0;
    let mut formed = Formed::empty();
    let mut asked = false;
    loop {
        match go_on(books, alloc, task, bytes, at, formed)? {
            Going::On {
                formed: more,
                asked: asks,
                next,
            } => {
                formed = more;
                asked = asked || asks;
                at = next;
            }
            Going::Over { evaluation } => {
                return Ok(Evaluation {
                    outcome: evaluation.outcome,
                    asked: asked || evaluation.asked,
                });
            }
        }
    }
}

/// What a create makes of some bytes, not too many.
pub fn created(
    books: &Books,
    alloc: Global,
    task: u32,
    bytes: &[u8],
) -> Result<Result<Option<Numbers>, Code>, NoMemory>
    requires some { 0 < length bytes.now }
    requires few { length bytes.now ≤ ARRAY_BYTES }
    ensures { IfOk result (λ made. IsCreated books.now task bytes.now made) }
{
    match evaluate_all(books, alloc, task, bytes)?.outcome {
        Ok(formed) => Ok(Ok(voucher_of(books, formed))),
        Err(code) => Ok(Err(code)),
    }
}
