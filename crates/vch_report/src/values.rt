ghost use Rattle.std.specs.Prelude.{◌≡◌, ℕ, List, Option};
ghost use Rattle.vch_text.specs.Reading.{Finds};
ghost use Rattle.vch_report.specs.Values as values;
ghost use Rattle.vch_report.specs.Reading.{Gives};

use crate::fault::Stop;
use crate::numerals::{after, bytes_in, ordinal, ordinal_in};
use std::alloc::Global;
use vch_base::{Chain, Value};
use vch_model::Entry;
use vch_text::{end, front, is_word, word};

/// The list of one to eight tasks that a word spells, with a comma between two of them.
fn chain(word: &[u8]) -> Option<Chain>
    ensures { Finds (λ x. x) result (values.chain_of word.now) }
{
    let (first, mut rest) = front(b',', word);
    let mut list = Chain::one(ordinal(first)?);
    while let [_, more @ ..] = rest {
        let (next, left) = front(b',', more);
        let task = ordinal(next)?;
        if list.len() == 8 {
            return None;
        }
        list = list.with(task);
        rest = left;
    }
    Some(list)
}

/// `user HEX`, behind a key of user data.
#[tactic(auto, unfolding(crate::specs::Values::user_of))]
fn user(alloc: Global, key: u32, rest: &[u8]) -> Result<Entry, Stop>
    ensures { Gives (λ x. x) result (values.user_of key rest.now) }
{
    let Some(rest) = after(b"user", rest) else {
        return Err(Stop::Fault);
    };
    let bytes = bytes_in(alloc, rest)?;
    Ok(Entry::Made {
        key,
        value: Value::User { bytes },
    })
}

/// `list T,T,T`, behind the key 2.
#[tactic(auto, unfolding(crate::specs::Values::list_of))]
fn list(rest: &[u8]) -> Option<Entry>
    ensures { Finds (λ x. x) result (values.list_of rest.now) }
{
    let rest = after(b"list", rest)?;
    let (tasks, rest) = word(rest)?;
    end(rest)?;
    let list = chain(tasks)?;
    Some(Entry::Made {
        key: 2,
        value: Value::Chain { list },
    })
}

/// `T`, behind the word `task`.
#[tactic(auto, unfolding(crate::specs::Values::task_of))]
fn task(rest: &[u8]) -> Option<Entry>
    ensures { Finds (λ x. x) result (values.task_of rest.now) }
{
    let (task, rest) = ordinal_in(rest)?;
    end(rest)?;
    Some(Entry::Made {
        key: 3,
        value: Value::Task { task },
    })
}

/// `H M`, behind the word `account`.
#[tactic(auto, unfolding(crate::specs::Values::account_of))]
fn account(rest: &[u8]) -> Option<Entry>
    ensures { Finds (λ x. x) result (values.account_of rest.now) }
{
    let (holder, rest) = ordinal_in(rest)?;
    let (merchant, rest) = ordinal_in(rest)?;
    end(rest)?;
    Some(Entry::Made {
        key: 3,
        value: Value::Account { holder, merchant },
    })
}

/// `task T` or `account H M`, behind the key 3.
#[tactic(auto, unfolding(crate::specs::Values::bank_of))]
fn bank(rest: &[u8]) -> Option<Entry>
    ensures { Finds (λ x. x) result (values.bank_of rest.now) }
{
    let (name, rest) = word(rest)?;
    if is_word(name, b"task") {
        return task(rest);
    }
    if is_word(name, b"account") {
        return account(rest);
    }
    None
}

/// A key and a value of it, behind the word `made`.
#[tactic(auto, unfolding(crate::specs::Values::made_of))]
pub fn made(alloc: Global, rest: &[u8]) -> Result<Entry, Stop>
    ensures { Gives (λ x. x) result (values.made_of rest.now) }
{
    let Some((key, rest)) = word(rest) else {
        return Err(Stop::Fault);
    };
    if is_word(key, b"7") {
        return user(alloc, 7, rest);
    }
    if is_word(key, b"8") {
        return user(alloc, 8, rest);
    }
    if is_word(key, b"2") {
        return list(rest).ok_or(Stop::Fault);
    }
    if is_word(key, b"3") {
        return bank(rest).ok_or(Stop::Fault);
    }
    Err(Stop::Fault)
}
