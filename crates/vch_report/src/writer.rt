ghost use Rattle.std.specs.Prelude.{◌≡◌, ◌++◌, OnOk, IfOk, length, map, ◌<◌, ◌^◌};
ghost use Rattle.std.specs.List.{flat_map, join_with_byte, AllByRecursion};
ghost use Rattle.std.specs.Fmt.{decimal};
ghost use Rattle.vch_model.specs.Text.{word_text, reply_text, value_text, entry_text, entry_line, total_line, total_lines, last_lines};
ghost use Rattle.vch_model.specs.WellFormed.{IsRanged};
ghost use Rattle.vch_report.specs.WellFormed.{IsWellFormed, Making};
ghost use Rattle.vch_report.specs.Items.{text_of};

use crate::Report;
use std::alloc::Global;
use vch_base::{Chain, NoMemory, Value};
use vch_model::{Entry, History, Reply, Total, TotalList, Word};
use vch_text::{push_hex, push_number, push_spaced, push_text};

/// The command word as it is written.
fn verb_text(word: Word) -> &'static [u8]
    ensures { result.now ≡ word_text word }
{
    match word {
        Word::Create => b"create",
        Word::GiveUp => b"drop",
        Word::Extract => b"extract",
        Word::Recipes => b"recipes",
        Word::Send => b"send",
        Word::Recv => b"recv",
        Word::Extern => b"extern",
        Word::Charge => b"charge",
        Word::Ledger => b"ledger",
        Word::Assertions => b"assertions",
        Word::Live => b"live",
        Word::Exit => b"exit",
    }
}

/// Appends a reply.
fn push_reply(out: &mut Vec<u8>, reply: &Reply) -> Result<(), NoMemory>
    ensures { OnOk result (out.new.items ≡ out.old.items ++ reply_text reply.now) }
{
    match reply {
        Reply::Created { name } => {
            push_text(out, b"0")?;
            push_spaced(out, *name)
        }
        Reply::Done => push_text(out, b"0"),
        Reply::Content { bytes } => {
            push_text(out, b"0 ")?;
            push_hex(out, bytes.as_slice())
        }
        Reply::Recipe { whole, bytes } => {
            if *whole {
                push_text(out, b"0 whole ")?;
            } else {
                push_text(out, b"0 part ")?;
            }
            push_hex(out, bytes.as_slice())
        }
        Reply::Received { sender, id, name } => {
            push_text(out, b"0")?;
            push_spaced(out, *sender)?;
            push_spaced(out, *id)?;
            push_spaced(out, *name)
        }
        Reply::Ledger { amount } => {
            push_text(out, b"0")?;
            push_spaced(out, *amount)
        }
        Reply::Assertions { held, out: outside } => {
            push_text(out, b"0")?;
            push_spaced(out, *held)?;
            push_spaced(out, *outside)
        }
        Reply::Live { vouchers, values } => {
            push_text(out, b"0")?;
            push_spaced(out, *vouchers)?;
            push_spaced(out, *values)
        }
        Reply::Refused { code } => push_number(out, code.number()),
    }
}

/// Appends the tasks of a list, with a comma between two of them.
fn push_list(out: &mut Vec<u8>, list: &Chain) -> Result<(), NoMemory>
    ensures { OnOk result (out.new.items ≡ out.old.items ++ join_with_byte 44 (map decimal list.now)) }
{
    for i in 0..list.len() {
        if i > 0 {
            push_text(out, b",")?;
        }
        push_number(out, list.at(i))?;
    }
    Ok(())
}

/// Appends a value that is made.
fn push_value(out: &mut Vec<u8>, value: &Value) -> Result<(), NoMemory>
    requires { IsRanged value.now }
    ensures { OnOk result (out.new.items ≡ out.old.items ++ value_text value.now) }
{
    match value {
        Value::User { bytes } => {
            push_text(out, b" user ")?;
            push_hex(out, bytes.as_slice())
        }
        Value::Chain { list } => {
            push_text(out, b" list ")?;
            push_list(out, list)
        }
        Value::Default => unreachable!(),
        Value::Task { task } => {
            push_text(out, b" task")?;
            push_spaced(out, *task)
        }
        Value::Account { holder, merchant } => {
            push_text(out, b" account")?;
            push_spaced(out, *holder)?;
            push_spaced(out, *merchant)
        }
    }
}

/// Appends an entry without the end of its line.
fn push_entry_text(out: &mut Vec<u8>, entry: &Entry) -> Result<(), NoMemory>
    requires { Making IsRanged entry.now }
    ensures { OnOk result (out.new.items ≡ out.old.items ++ entry_text entry.now) }
{
    match entry {
        Entry::Call {
            task,
            number,
            word,
            reply,
        } => {
            push_text(out, b"call")?;
            push_spaced(out, *task)?;
            push_spaced(out, *number)?;
            push_text(out, b" ")?;
            push_text(out, verb_text(*word))?;
            push_text(out, b" ")?;
            push_reply(out, reply)
        }
        Entry::Made { key, value } => {
            push_text(out, b"made")?;
            push_spaced(out, *key)?;
            push_value(out, value)
        }
        Entry::Released { made } => {
            push_text(out, b"released")?;
            push_spaced(out, *made)
        }
        Entry::Gone { task, name } => {
            push_text(out, b"gone")?;
            push_spaced(out, *task)?;
            push_spaced(out, *name)
        }
        Entry::Lost { task } => {
            push_text(out, b"lost")?;
            push_spaced(out, *task)
        }
        Entry::Phase => push_text(out, b"phase"),
    }
}

/// Appends the line of an entry.
fn push_entry(out: &mut Vec<u8>, entry: &Entry) -> Result<(), NoMemory>
    requires { Making IsRanged entry.now }
    ensures { OnOk result (out.new.items ≡ out.old.items ++ entry_line entry.now) }
{
    push_entry_text(out, entry)?;
    push_text(out, b"\n")
}

/// Appends the lines of the entries.
fn push_entries(out: &mut Vec<u8>, history: &History) -> Result<(), NoMemory>
    requires { AllByRecursion (Making IsRanged) history.now.entries }
    ensures { OnOk result (out.new.items ≡ out.old.items ++ flat_map entry_line history.now.entries) }
{
    for i in 0..history.len() {
        push_entry(out, history.at(i))?;
    }
    Ok(())
}

/// Appends the line of a task.
fn push_total(out: &mut Vec<u8>, task: u64, total: Total) -> Result<(), NoMemory>
    ensures { OnOk result (out.new.items ≡ out.old.items ++ total_line task total) }
{
    push_text(out, b"task")?;
    push_spaced(out, task)?;
    push_text(out, b" ledger")?;
    push_spaced(out, total.ledger)?;
    push_text(out, b" held")?;
    push_spaced(out, total.held)?;
    push_text(out, b" out")?;
    push_spaced(out, total.out)?;
    push_text(out, b"\n")
}

/// Appends the lines of the tasks.
fn push_totals(out: &mut Vec<u8>, totals: &TotalList) -> Result<(), NoMemory>
    requires { length totals.now < 2 ^ 32 }
    ensures { OnOk result (out.new.items ≡ out.old.items ++ total_lines 1 totals.now) }
{
    for i in 0..totals.len() {
        push_total(out, i as u64 + 1, *totals.at(i))?;
    }
    Ok(())
}

/// Appends the counts and the last line.
fn push_last(out: &mut Vec<u8>, vouchers: u64, values: u64) -> Result<(), NoMemory>
    ensures { OnOk result (out.new.items ≡ out.old.items ++ last_lines vouchers values) }
{
    push_text(out, b"vouchers")?;
    push_spaced(out, vouchers)?;
    push_text(out, b" values")?;
    push_spaced(out, values)?;
    push_text(out, b"\n")?;
    push_text(out, b"end\n")
}

/// The text of a report. The one error is out of memory.
///
/// It goes over the report once and appends to one buffer, in time that grows with the text. All
/// digits are made in place.
pub fn write(alloc: Global, report: &Report) -> Result<Vec<u8>, NoMemory>
    requires { IsWellFormed report.now }
    ensures { IfOk result (λ text. text.items ≡ text_of report.now) }
{
    let mut out = Vec::new(alloc);
    push_text(&mut out, b"report")?;
    push_spaced(&mut out, report.version)?;
    push_text(&mut out, b"\n")?;
    push_entries(&mut out, &report.history)?;
    push_totals(&mut out, &report.totals)?;
    push_last(&mut out, report.vouchers, report.values)?;
    Ok(out)
}
