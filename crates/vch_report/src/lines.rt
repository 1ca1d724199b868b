ghost use Rattle.std.specs.Prelude.{◌≡◌, ℕ, List, Option};
ghost use Rattle.vch_text.specs.Reading.{Finds};
ghost use Rattle.vch_report.specs.Lines as lines;
ghost use Rattle.vch_report.specs.Reading.{Gives};

use crate::fault::Stop;
use crate::item::Item;
use crate::numerals::{after, amount_in, count_in, ordinal_in};
use crate::replies::call;
use crate::values::made;
use std::alloc::Global;
use vch_model::{Entry, Total};
use vch_text::{end, front, is_word, word};

/// `E`, behind the word `released`.
#[tactic(auto, unfolding(crate::specs::Lines::released_of))]
fn released(rest: &[u8]) -> Option<Entry>
    ensures { Finds (λ x. x) result (lines.released_of rest.now) }
{
    let (made, rest) = ordinal_in(rest)?;
    end(rest)?;
    Some(Entry::Released { made })
}

/// `E`, behind the word `released`, as an item.
#[tactic(auto, unfolding(crate::specs::Lines::release_of))]
fn release(rest: &[u8]) -> Option<Item>
    ensures { Finds (λ x. x) result (lines.release_of rest.now) }
{
    let entry = released(rest)?;
    Some(Item::Step { entry })
}

/// Nothing, behind the word `phase`.
#[tactic(auto, unfolding(crate::specs::Lines::phase_of))]
fn phase(rest: &[u8]) -> Option<Item>
    ensures { Finds (λ x. x) result (lines.phase_of rest.now) }
{
    end(rest)?;
    Some(Item::Step {
        entry: Entry::Phase,
    })
}

/// `T NAME`, behind the word `gone`.
#[tactic(auto, unfolding(crate::specs::Lines::gone_of))]
fn gone(rest: &[u8]) -> Option<Item>
    ensures { Finds (λ x. x) result (lines.gone_of rest.now) }
{
    let (task, rest) = ordinal_in(rest)?;
    let (name, rest) = ordinal_in(rest)?;
    end(rest)?;
    Some(Item::Step {
        entry: Entry::Gone { task, name },
    })
}

/// `T`, behind the word `lost`.
#[tactic(auto, unfolding(crate::specs::Lines::lost_of))]
fn lost(rest: &[u8]) -> Option<Item>
    ensures { Finds (λ x. x) result (lines.lost_of rest.now) }
{
    let (task, rest) = ordinal_in(rest)?;
    end(rest)?;
    Some(Item::Step {
        entry: Entry::Lost { task },
    })
}

/// `T ledger X held Y out Z`, behind the word `task`.
#[tactic(auto, unfolding(crate::specs::Lines::total_of))]
fn total(rest: &[u8]) -> Option<Item>
    ensures { Finds (λ x. x) result (lines.total_of rest.now) }
{
    let (task, rest) = ordinal_in(rest)?;
    let rest = after(b"ledger", rest)?;
    let (ledger, rest) = amount_in(rest)?;
    let rest = after(b"held", rest)?;
    let (held, rest) = amount_in(rest)?;
    let rest = after(b"out", rest)?;
    let (out, rest) = amount_in(rest)?;
    end(rest)?;
    Some(Item::Task {
        task,
        total: Total { ledger, held, out },
    })
}

/// `V values W`, behind the word `vouchers`.
#[tactic(auto, unfolding(crate::specs::Lines::counts_of))]
fn counts(rest: &[u8]) -> Option<Item>
    ensures { Finds (λ x. x) result (lines.counts_of rest.now) }
{
    let (vouchers, rest) = count_in(rest)?;
    let rest = after(b"values", rest)?;
    let (values, rest) = count_in(rest)?;
    end(rest)?;
    Some(Item::Counts { vouchers, values })
}

/// A version of the text.
#[tactic(auto, unfolding(crate::specs::Lines::version_of))]
fn version(word: &[u8]) -> Option<u32>
    ensures { Finds (λ x. x) result (lines.version_of word.now) }
{
    if is_word(word, b"1") {
        return Some(1);
    }
    if is_word(word, b"2") {
        return Some(2);
    }
    None
}

/// `V`, behind the word `report`.
#[tactic(auto, unfolding(crate::specs::Lines::title_of))]
fn title(rest: &[u8]) -> Option<Item>
    ensures { Finds (λ x. x) result (lines.title_of rest.now) }
{
    let (token, rest) = word(rest)?;
    end(rest)?;
    let version = version(token)?;
    Some(Item::Title { version })
}

/// Nothing, behind the word `end`.
#[tactic(auto, unfolding(crate::specs::Lines::last_of))]
fn last(rest: &[u8]) -> Option<Item>
    ensures { Finds (λ x. x) result (lines.last_of rest.now) }
{
    end(rest)?;
    Some(Item::End)
}

/// What stands behind a word that begins a line without bytes.
#[tactic(auto, unfolding(crate::specs::Lines::small_item))]
fn small_item(name: &[u8], rest: &[u8]) -> Option<Item>
    ensures { Finds (λ x. x) result (lines.small_item name.now rest.now) }
{
    if is_word(name, b"released") {
        return release(rest);
    }
    if is_word(name, b"gone") {
        return gone(rest);
    }
    if is_word(name, b"lost") {
        return lost(rest);
    }
    if is_word(name, b"phase") {
        return phase(rest);
    }
    if is_word(name, b"task") {
        return total(rest);
    }
    if is_word(name, b"vouchers") {
        return counts(rest);
    }
    if is_word(name, b"report") {
        return title(rest);
    }
    if is_word(name, b"end") {
        return last(rest);
    }
    None
}

/// An entry as an item.
#[tactic(auto, unfolding(crate::specs::Lines::call_item))]
fn call_item(alloc: Global, rest: &[u8]) -> Result<Item, Stop>
    ensures { Gives (λ x. x) result (lines.call_item rest.now) }
{
    let entry = call(alloc, rest)?;
    Ok(Item::Step { entry })
}

/// An entry as an item.
#[tactic(auto, unfolding(crate::specs::Lines::made_item))]
fn made_item(alloc: Global, rest: &[u8]) -> Result<Item, Stop>
    ensures { Gives (λ x. x) result (lines.made_item rest.now) }
{
    let entry = made(alloc, rest)?;
    Ok(Item::Step { entry })
}

/// What stands behind the word that a line begins with.
#[tactic(auto, unfolding(crate::specs::Lines::item_by))]
fn item_by(alloc: Global, name: &[u8], rest: &[u8]) -> Result<Item, Stop>
    ensures { Gives (λ x. x) result (lines.item_by name.now rest.now) }
{
    if is_word(name, b"call") {
        return call_item(alloc, rest);
    }
    if is_word(name, b"made") {
        return made_item(alloc, rest);
    }
    small_item(name, rest).ok_or(Stop::Fault)
}

/// What a line is, wherever it stands. It looks at each byte a few times, and takes no memory but
/// for the bytes of a value or a reply.
#[tactic(auto, unfolding(crate::specs::Lines::item_of))]
pub fn item(alloc: Global, line: &[u8]) -> Result<Item, Stop>
    ensures { Gives (λ x. x) result (lines.item_of line.now) }
{
    let (name, rest) = front(b' ', line);
    item_by(alloc, name, rest)
}
