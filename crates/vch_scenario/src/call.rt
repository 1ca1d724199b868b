ghost use Rattle.std.specs.Prelude.{◌≡◌, ◌≢◌, ◌<◌, ◌≤◌, ℕ, List, Result, codes};
ghost use Rattle.vch_scenario.specs.Reading.{Tells, Gives};
ghost use Rattle.vch_scenario.specs.Calls as calls;

use crate::fault::{Stop, Why};
use crate::task::up_to;
use std::alloc::Global;
use vch_model::{Call, Line, Word};
use vch_text::{
    TOP, end, front, hex_bytes, is_word, number, number_in, one_number, two_numbers, word,
};

/// A number that isn't above 4294967295.
#[tactic(auto, unfolding(crate::specs::Calls::fit))]
fn fit(n: u64) -> Result<u32, Why>
    ensures { Tells (λ x. x) result (calls.fit n) }
{
    if n < TOP {
        Ok(n as u32)
    } else {
        Err(Why::Range)
    }
}

/// The call that a word names in a text of the version.
#[tactic(auto, unfolding(crate::specs::Calls::verb_of))]
fn verb(version: u32, word: &[u8]) -> Result<Word, Why>
    ensures { Tells (λ x. x) result (calls.verb_of version word.now) }
{
    if is_word(word, b"create") {
        return Ok(Word::Create);
    }
    if is_word(word, b"drop") {
        return Ok(Word::GiveUp);
    }
    if is_word(word, b"extract") {
        return Ok(Word::Extract);
    }
    if is_word(word, b"recipes") {
        return Ok(Word::Recipes);
    }
    if is_word(word, b"send") {
        return Ok(Word::Send);
    }
    if is_word(word, b"recv") {
        return Ok(Word::Recv);
    }
    if is_word(word, b"extern") {
        return Ok(Word::Extern);
    }
    if is_word(word, b"charge") {
        return Ok(Word::Charge);
    }
    if is_word(word, b"ledger") {
        return Ok(Word::Ledger);
    }
    if is_word(word, b"assertions") {
        return Ok(Word::Assertions);
    }
    if is_word(word, b"live") {
        return Ok(Word::Live);
    }
    if version == 2 && is_word(word, b"exit") {
        return Ok(Word::Exit);
    }
    Err(Why::Form)
}

/// Which of two words it is.
#[tactic(auto, unfolding(crate::specs::Calls::either_of))]
fn either(first: &[u8], second: &[u8], word: &[u8]) -> Result<bool, Why>
    ensures { Tells (λ x. x) result (calls.either_of first.now second.now word.now) }
{
    if is_word(word, first) {
        Ok(true)
    } else if is_word(word, second) {
        Ok(false)
    } else {
        Err(Why::Form)
    }
}

/// `drop NAME`, behind its word.
#[tactic(auto, unfolding(crate::specs::Calls::give_up_of))]
fn give_up(rest: &[u8]) -> Result<Call, Why>
    ensures { Tells (λ x. x) result (calls.give_up_of rest.now) }
{
    let name = one_number(rest).ok_or(Why::Form)?;
    Ok(Call::GiveUp { name: fit(name)? })
}

/// `extract NAME KEY`, behind its word.
#[tactic(auto, unfolding(crate::specs::Calls::extract_of))]
fn extract(rest: &[u8]) -> Result<Call, Why>
    ensures { Tells (λ x. x) result (calls.extract_of rest.now) }
{
    let (name, key) = two_numbers(rest).ok_or(Why::Form)?;
    Ok(Call::Extract {
        name: fit(name)?,
        key: fit(key)?,
    })
}

/// `recipes NAME`, behind its word.
#[tactic(auto, unfolding(crate::specs::Calls::recipes_of))]
fn recipes(rest: &[u8]) -> Result<Call, Why>
    ensures { Tells (λ x. x) result (calls.recipes_of rest.now) }
{
    let name = one_number(rest).ok_or(Why::Form)?;
    Ok(Call::Recipes { name: fit(name)? })
}

/// `send TO copy NAME ID` or `send TO move NAME ID`, behind its word.
#[tactic(auto, unfolding(crate::specs::Calls::send_of))]
fn send(rest: &[u8]) -> Result<Call, Why>
    ensures { Tells (λ x. x) result (calls.send_of rest.now) }
{
    let (to, rest) = number_in(rest).ok_or(Why::Form)?;
    let (way, rest) = word(rest).ok_or(Why::Form)?;
    let moving = either(b"move", b"copy", way)?;
    let (name, id) = two_numbers(rest).ok_or(Why::Form)?;
    Ok(Call::Send {
        to: fit(to)?,
        moving,
        name: fit(name)?,
        id: fit(id)?,
    })
}

/// `extern NAME add N` or `extern NAME drop N`, behind its word.
#[tactic(auto, unfolding(crate::specs::Calls::extern_of))]
fn external(rest: &[u8]) -> Result<Call, Why>
    ensures { Tells (λ x. x) result (calls.extern_of rest.now) }
{
    let (name, rest) = number_in(rest).ok_or(Why::Form)?;
    let (way, rest) = word(rest).ok_or(Why::Form)?;
    let adding = either(b"add", b"drop", way)?;
    let n = one_number(rest).ok_or(Why::Form)?;
    Ok(Call::Extern {
        name: fit(name)?,
        adding,
        n: fit(n)?,
    })
}

/// `charge NAME N`, behind its word.
#[tactic(auto, unfolding(crate::specs::Calls::charge_of))]
fn charge(rest: &[u8]) -> Result<Call, Why>
    ensures { Tells (λ x. x) result (calls.charge_of rest.now) }
{
    let (name, n) = two_numbers(rest).ok_or(Why::Form)?;
    Ok(Call::Charge {
        name: fit(name)?,
        n: fit(n)?,
    })
}

/// The call, where nothing stands behind its word.
#[tactic(auto, unfolding(crate::specs::Calls::bare_of))]
fn bare(call: Call, rest: &[u8]) -> Result<Call, Why>
    ensures { Tells (λ x. x) result (calls.bare_of call rest.now) }
{
    end(rest).ok_or(Why::Form)?;
    Ok(call)
}

/// `create HEX`, behind its word.
#[tactic(auto, unfolding(crate::specs::Calls::create_of))]
fn create(alloc: Global, rest: &[u8]) -> Result<Call, Stop>
    ensures { Gives (λ x. x) result (calls.create_of rest.now) }
{
    let (digits, rest) = word(rest).ok_or(Why::Form)?;
    end(rest).ok_or(Why::Form)?;
    let bytes = hex_bytes(alloc, digits)?;
    Ok(Call::Create { bytes })
}

/// What stands behind the word of a call that keeps no bytes.
fn small_call(verb: Word, rest: &[u8]) -> Result<Call, Why>
    requires { verb ≢ Word.Create }
    ensures { Tells (λ x. x) result (calls.call_by verb rest.now) }
{
    match verb {
        Word::Create => unreachable!(),
        Word::GiveUp => give_up(rest),
        Word::Extract => extract(rest),
        Word::Recipes => recipes(rest),
        Word::Send => send(rest),
        Word::Recv => bare(Call::Recv, rest),
        Word::Extern => external(rest),
        Word::Charge => charge(rest),
        Word::Ledger => bare(Call::Ledger, rest),
        Word::Assertions => bare(Call::Assertions, rest),
        Word::Live => bare(Call::Live, rest),
        Word::Exit => bare(Call::Exit, rest),
    }
}

/// What stands behind the word of a call.
fn call_by(alloc: Global, verb: Word, rest: &[u8]) -> Result<Call, Stop>
    ensures { Gives (λ x. x) result (calls.call_by verb rest.now) }
{
    match verb {
        Word::Create => create(alloc, rest),
        _ => Ok(small_call(verb, rest)?),
    }
}

/// What stands behind the task in a line.
#[tactic(auto, unfolding(crate::specs::Calls::call_of))]
fn call(alloc: Global, version: u32, rest: &[u8]) -> Result<Call, Stop>
    ensures { Gives (λ x. x) result (calls.call_of version rest.now) }
{
    let (name, rest) = word(rest).ok_or(Why::Form)?;
    let verb = verb(version, name)?;
    call_by(alloc, verb, rest)
}

/// A call line of the version, where there are so many tasks.
#[tactic(auto, unfolding(crate::specs::Calls::line_of))]
pub fn line_of(alloc: Global, version: u32, tasks: u32, line: &[u8]) -> Result<Line, Stop>
    ensures { Gives (λ x. x) result (calls.line_of version tasks line.now) }
{
    let (t, rest) = front(b' ', line);
    let t = number(t).ok_or(Why::Form)?;
    let call = call(alloc, version, rest)?;
    let task = up_to(tasks, t)?;
    Ok(Line { task, call })
}
