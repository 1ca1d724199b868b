ghost use Rattle.std.specs.Prelude.{◌≡◌, IfOk, None, Ok, Err, false};
ghost use Rattle.std.specs.Option.{option_copied};
ghost use Rattle.vch_base.specs.Managers as managers;
ghost use Rattle.vch_model.specs.Eval as eval;
ghost use Rattle.vch_base.specs.declared.codes.TheConstants as codes;
ghost use Rattle.vch_base.specs.declared.key.Key.TheVariants as keys;
ghost use Rattle.vch_plain.specs.Answers.{HaveTask, HasAnswer, replied};

use crate::copy::copy_value;
use crate::transfers::{preprocessed, received};
use std::alloc::Global;
use vch_base::codes::KERN_INVALID_ARGUMENT;
use vch_base::commands::{
    AUTO_REDEEM, BANK_CREATE, IMPORTANCE_SELF, REDEEM, SEND_PREPROCESS, USER_DATA_STORE,
};
use vch_base::{Bytes, Chain, Code, Key, NoMemory, Value};

/// What a manager answers: a value, none, or a code.
#[derive(Drop)]
pub enum Answer {
    Value { value: Value },
    Nothing,
    Refused { code: Code },
}

/// The refusal of a command that the manager does not have, or of content where there may be none.
fn refused() -> Answer
    ensures same { replied result ≡ Err codes.KERN_INVALID_ARGUMENT }
    ensures task { HasAnswer result }
{
    Answer::Refused {
        code: Code::of(KERN_INVALID_ARGUMENT),
    }
}

/// The answer with a value that is there already, or with none.
fn again(alloc: Global, previous: Option<&Value>) -> Result<Answer, NoMemory>
    requires { HaveTask (option_copied previous) }
    ensures same { IfOk result (λ made. replied made ≡ Ok (option_copied previous.entry)) }
    ensures task { IfOk result HasAnswer }
{
    match previous {
        Some(value) => Ok(Answer::Value {
            value: copy_value(alloc, value)?,
        }),
        None => Ok(Answer::Nothing),
    }
}

/// What a manager of user data answers: it stores the content.
fn stored(alloc: Global, command: u32, content: &[u8]) -> Result<Answer, NoMemory>
    ensures same { IfOk result (λ made. replied made ≡ managers.stored command content.now) }
    ensures task { IfOk result HasAnswer }
{
    if command != USER_DATA_STORE {
        return Ok(refused());
    }
    let bytes = Bytes::of(alloc, content)?;
    Ok(Answer::Value {
        value: Value::User { bytes },
    })
}

/// What a manager answers to AUTO_REDEEM, as one that knows no flag.
fn redeemed(alloc: Global, task: u32, previous: Option<&Value>) -> Result<Answer, NoMemory>
    requires { HaveTask (option_copied previous) }
    ensures same { IfOk result (λ made. replied made ≡ Ok (managers.mapped (managers.received false task) (option_copied previous.entry))) }
    ensures task { IfOk result HasAnswer }
{
    match previous {
        Some(value) => Ok(Answer::Value {
            value: received(alloc, false, task, value)?,
        }),
        None => Ok(Answer::Nothing),
    }
}

/// What the bank answers to SEND_PREPROCESS.
fn sent(alloc: Global, task: u32, previous: Option<&Value>) -> Result<Answer, NoMemory>
    requires { HaveTask (option_copied previous) }
    ensures same { IfOk result (λ made. replied made ≡ Ok (managers.mapped (managers.preprocessed task) (option_copied previous.entry))) }
    ensures task { IfOk result HasAnswer }
{
    match previous {
        Some(value) => Ok(Answer::Value {
            value: preprocessed(alloc, task, value)?,
        }),
        None => Ok(Answer::Nothing),
    }
}

/// What importance answers to its own commands.
fn of_importance(
    alloc: Global,
    task: u32,
    command: u32,
    previous: Option<&Value>,
    content: &[u8],
) -> Result<Answer, NoMemory>
    requires { HaveTask (option_copied previous) }
    ensures same { IfOk result (λ made. replied made ≡ managers.own_answer keys.Importance None task command (option_copied previous.entry) content.now) }
    ensures task { IfOk result HasAnswer }
{
    match command {
        IMPORTANCE_SELF if content.is_empty() => Ok(Answer::Value {
            value: Value::Chain {
                list: Chain::one(task),
            },
        }),
        AUTO_REDEEM if content.is_empty() => redeemed(alloc, task, previous),
        _ => Ok(refused()),
    }
}

/// What the bank answers to its own commands.
fn of_bank(
    alloc: Global,
    task: u32,
    command: u32,
    previous: Option<&Value>,
    content: &[u8],
) -> Result<Answer, NoMemory>
    requires { HaveTask (option_copied previous) }
    ensures same { IfOk result (λ made. replied made ≡ managers.own_answer keys.Bank None task command (option_copied previous.entry) content.now) }
    ensures task { IfOk result HasAnswer }
{
    match command {
        BANK_CREATE if content.is_empty() => Ok(Answer::Value {
            value: Value::Default,
        }),
        AUTO_REDEEM if content.is_empty() => redeemed(alloc, task, previous),
        SEND_PREPROCESS if content.is_empty() => sent(alloc, task, previous),
        _ => Ok(refused()),
    }
}

/// What the manager of a key answers to a record's command by a task, with the previous value and the content.
pub fn answer_to(
    alloc: Global,
    key: Key,
    task: u32,
    command: u32,
    previous: Option<&Value>,
    content: &[u8],
) -> Result<Answer, NoMemory>
    requires { HaveTask (option_copied previous) }
    ensures same { IfOk result (λ made. replied made ≡ eval.answer_to key task command (option_copied previous.entry) content.now) }
    ensures task { IfOk result HasAnswer }
{
    if command == REDEEM {
        if content.is_empty() {
            return again(alloc, previous);
        }
        return Ok(refused());
    }
    match key {
        Key::Importance => of_importance(alloc, task, command, previous, content),
        Key::Bank => of_bank(alloc, task, command, previous, content),
        Key::User | Key::Test => stored(alloc, command, content),
    }
}
