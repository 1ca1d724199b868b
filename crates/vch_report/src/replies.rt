ghost use Rattle.std.specs.Prelude.{◌≡◌, ◌≢◌, ℕ, List, Option};
ghost use Rattle.vch_text.specs.Reading.{Finds};
ghost use Rattle.vch_report.specs.Replies as replies;
ghost use Rattle.vch_report.specs.Reading.{Gives};

use crate::fault::Stop;
use crate::numerals::{amount_in, bytes_in, count_in, ordinal_in, small_in};
use std::alloc::Global;
use vch_base::Code;
use vch_base::codes::{
    KERN_FAILURE, KERN_INVALID_ARGUMENT, KERN_INVALID_CAPABILITY, KERN_INVALID_NAME,
    KERN_NO_ACCESS, KERN_RESOURCE_SHORTAGE, MACH_RCV_TIMED_OUT, MACH_SEND_INVALID_DEST,
    MACH_SEND_INVALID_VOUCHER, MACH_SEND_TIMED_OUT, MIG_ARRAY_TOO_LARGE,
};
use vch_model::{Entry, Reply, Word};
use vch_text::{end, is_word, word};

/// The command that a word names.
#[tactic(auto, unfolding(crate::specs::Replies::verb_of))]
fn verb(word: &[u8]) -> Option<Word>
    ensures { Finds (λ x. x) result (replies.verb_of word.now) }
{
    if is_word(word, b"create") {
        return Some(Word::Create);
    }
    if is_word(word, b"drop") {
        return Some(Word::GiveUp);
    }
    if is_word(word, b"extract") {
        return Some(Word::Extract);
    }
    if is_word(word, b"recipes") {
        return Some(Word::Recipes);
    }
    if is_word(word, b"send") {
        return Some(Word::Send);
    }
    if is_word(word, b"recv") {
        return Some(Word::Recv);
    }
    if is_word(word, b"extern") {
        return Some(Word::Extern);
    }
    if is_word(word, b"charge") {
        return Some(Word::Charge);
    }
    if is_word(word, b"ledger") {
        return Some(Word::Ledger);
    }
    if is_word(word, b"assertions") {
        return Some(Word::Assertions);
    }
    if is_word(word, b"live") {
        return Some(Word::Live);
    }
    if is_word(word, b"exit") {
        return Some(Word::Exit);
    }
    None
}

/// The code of a refusal.
#[tactic(auto, unfolding(crate::specs::Replies::code_of))]
fn code(word: &[u8]) -> Option<Code>
    ensures { Finds (λ x. x) result (replies.code_of word.now) }
{
    if is_word(word, b"4") {
        return Some(Code {
            number: KERN_INVALID_ARGUMENT,
        });
    }
    if is_word(word, b"5") {
        return Some(Code {
            number: KERN_FAILURE,
        });
    }
    if is_word(word, b"6") {
        return Some(Code {
            number: KERN_RESOURCE_SHORTAGE,
        });
    }
    if is_word(word, b"8") {
        return Some(Code {
            number: KERN_NO_ACCESS,
        });
    }
    if is_word(word, b"15") {
        return Some(Code {
            number: KERN_INVALID_NAME,
        });
    }
    if is_word(word, b"20") {
        return Some(Code {
            number: KERN_INVALID_CAPABILITY,
        });
    }
    if is_word(word, b"-307") {
        return Some(Code {
            number: MIG_ARRAY_TOO_LARGE,
        });
    }
    if is_word(word, b"268435459") {
        return Some(Code {
            number: MACH_SEND_INVALID_DEST,
        });
    }
    if is_word(word, b"268435460") {
        return Some(Code {
            number: MACH_SEND_TIMED_OUT,
        });
    }
    if is_word(word, b"268435461") {
        return Some(Code {
            number: MACH_SEND_INVALID_VOUCHER,
        });
    }
    if is_word(word, b"268451843") {
        return Some(Code {
            number: MACH_RCV_TIMED_OUT,
        });
    }
    None
}

/// `NAME`, behind the code 0.
#[tactic(auto, unfolding(crate::specs::Replies::created_of))]
fn created(rest: &[u8]) -> Option<Reply>
    ensures { Finds (λ x. x) result (replies.created_of rest.now) }
{
    let (name, rest) = small_in(rest)?;
    end(rest)?;
    Some(Reply::Created { name })
}

/// Nothing, behind the code 0.
#[tactic(auto, unfolding(crate::specs::Replies::done_of))]
fn done(rest: &[u8]) -> Option<Reply>
    ensures { Finds (λ x. x) result (replies.done_of rest.now) }
{
    end(rest)?;
    Some(Reply::Done)
}

/// `SENDER ID NAME`, behind the code 0.
#[tactic(auto, unfolding(crate::specs::Replies::received_of))]
fn received(rest: &[u8]) -> Option<Reply>
    ensures { Finds (λ x. x) result (replies.received_of rest.now) }
{
    let (sender, rest) = small_in(rest)?;
    let (id, rest) = small_in(rest)?;
    let (name, rest) = small_in(rest)?;
    end(rest)?;
    Some(Reply::Received { sender, id, name })
}

/// `AMOUNT`, behind the code 0.
#[tactic(auto, unfolding(crate::specs::Replies::ledger_of))]
fn ledger(rest: &[u8]) -> Option<Reply>
    ensures { Finds (λ x. x) result (replies.ledger_of rest.now) }
{
    let (amount, rest) = amount_in(rest)?;
    end(rest)?;
    Some(Reply::Ledger { amount })
}

/// `HELD OUT`, behind the code 0.
#[tactic(auto, unfolding(crate::specs::Replies::assertions_of))]
fn assertions(rest: &[u8]) -> Option<Reply>
    ensures { Finds (λ x. x) result (replies.assertions_of rest.now) }
{
    let (held, rest) = amount_in(rest)?;
    let (out, rest) = amount_in(rest)?;
    end(rest)?;
    Some(Reply::Assertions { held, out })
}

/// `VOUCHERS VALUES`, behind the code 0.
#[tactic(auto, unfolding(crate::specs::Replies::live_of))]
fn live(rest: &[u8]) -> Option<Reply>
    ensures { Finds (λ x. x) result (replies.live_of rest.now) }
{
    let (vouchers, rest) = count_in(rest)?;
    let (values, rest) = count_in(rest)?;
    end(rest)?;
    Some(Reply::Live { vouchers, values })
}

/// `CONTENT`, behind the code 0.
#[tactic(auto, unfolding(crate::specs::Replies::content_of))]
fn content(alloc: Global, rest: &[u8]) -> Result<Reply, Stop>
    ensures { Gives (λ x. x) result (replies.content_of rest.now) }
{
    let bytes = bytes_in(alloc, rest)?;
    Ok(Reply::Content { bytes })
}

/// Whether a recipe array is the whole voucher.
#[tactic(auto, unfolding(crate::specs::Replies::mark_of))]
fn mark(word: &[u8]) -> Option<bool>
    ensures { Finds (λ x. x) result (replies.mark_of word.now) }
{
    if is_word(word, b"whole") {
        return Some(true);
    }
    if is_word(word, b"part") {
        return Some(false);
    }
    None
}

/// `whole BYTES` or `part BYTES`, behind the code 0.
#[tactic(auto, unfolding(crate::specs::Replies::recipe_of))]
fn recipe(alloc: Global, rest: &[u8]) -> Result<Reply, Stop>
    ensures { Gives (λ x. x) result (replies.recipe_of rest.now) }
{
    let Some((token, rest)) = word(rest) else {
        return Err(Stop::Fault);
    };
    let Some(whole) = mark(token) else {
        return Err(Stop::Fault);
    };
    let bytes = bytes_in(alloc, rest)?;
    Ok(Reply::Recipe { whole, bytes })
}

/// What stands behind the code 0 of a word that is answered without bytes.
fn small_answer(verb: Word, rest: &[u8]) -> Option<Reply>
    requires { (verb ≢ Word.Extract) × (verb ≢ Word.Recipes) }
    ensures { Finds (λ x. x) result (replies.answer_of verb rest.now) }
{
    match verb {
        Word::Create => created(rest),
        Word::GiveUp => done(rest),
        Word::Extract => unreachable!(),
        Word::Recipes => unreachable!(),
        Word::Send => done(rest),
        Word::Recv => received(rest),
        Word::Extern => done(rest),
        Word::Charge => done(rest),
        Word::Ledger => ledger(rest),
        Word::Assertions => assertions(rest),
        Word::Live => live(rest),
        Word::Exit => done(rest),
    }
}

/// What stands behind the code 0.
fn answer(alloc: Global, verb: Word, rest: &[u8]) -> Result<Reply, Stop>
    ensures { Gives (λ x. x) result (replies.answer_of verb rest.now) }
{
    match verb {
        Word::Extract => content(alloc, rest),
        Word::Recipes => recipe(alloc, rest),
        _ => small_answer(verb, rest).ok_or(Stop::Fault),
    }
}

/// A code other than 0, which stands alone.
#[tactic(auto, unfolding(crate::specs::Replies::refused_of))]
fn refused(word: &[u8], rest: &[u8]) -> Option<Reply>
    ensures { Finds (λ x. x) result (replies.refused_of word.now rest.now) }
{
    end(rest)?;
    let code = code(word)?;
    Some(Reply::Refused { code })
}

/// The reply to a word: its code, and for the code 0 what is shown behind it.
#[tactic(auto, unfolding(crate::specs::Replies::reply_of))]
fn reply(alloc: Global, verb: Word, rest: &[u8]) -> Result<Reply, Stop>
    ensures { Gives (λ x. x) result (replies.reply_of verb rest.now) }
{
    let Some((code, rest)) = word(rest) else {
        return Err(Stop::Fault);
    };
    if is_word(code, b"0") {
        answer(alloc, verb, rest)
    } else {
        refused(code, rest).ok_or(Stop::Fault)
    }
}

/// The task, the number and the command word of a call, and what is left behind them.
#[tactic(auto, unfolding(crate::specs::Replies::called_of))]
fn called(rest: &[u8]) -> Option<(u32, u32, Word, &[u8])>
    ensures { Finds (λ x. (x.0, x.1, x.2, x.3.now)) result (replies.called_of rest.now) }
{
    let (task, rest) = ordinal_in(rest)?;
    let (number, rest) = ordinal_in(rest)?;
    let (name, rest) = word(rest)?;
    let verb = verb(name)?;
    Some((task, number, verb, rest))
}

/// `T N WORD REPLY`, behind the word `call`.
#[tactic(auto, unfolding(crate::specs::Replies::call_of))]
pub fn call(alloc: Global, rest: &[u8]) -> Result<Entry, Stop>
    ensures { Gives (λ x. x) result (replies.call_of rest.now) }
{
    let Some((task, number, word, rest)) = called(rest) else {
        return Err(Stop::Fault);
    };
    let reply = reply(alloc, word, rest)?;
    Ok(Entry::Call {
        task,
        number,
        word,
        reply,
    })
}
