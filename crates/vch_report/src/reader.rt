ghost use Rattle.std.specs.Prelude.{◌≡◌, ◌<◌, ℕ, length, IfOk};
ghost use Rattle.vch_report.specs.declared.report.Report.{Report};
ghost use Rattle.vch_report.specs.Reading as reading;
ghost use Rattle.vch_report.specs.Faults.{IsReport, IsRead, IsFault, IsRefused, IsFaultOf};

use crate::draft::{Draft, Place};
use crate::fault::Stop;
use crate::item::Item;
use crate::lines::item;
use crate::{Report, ReportFault};
use std::alloc::Global;
use vch_model::{Entry, History, Total, TotalList, Word};
use vch_text::next_line;

/// Adds the line of the next task to what was read.
fn with_total(draft: &mut Draft, task: u32, total: Total) -> Result<(), Stop>
    requires { length draft.old.totals < 4294967295 }
    ensures { reading.Gives (λ done. reading.kept draft.new) result (reading.with_total (reading.kept draft.old) task total) }
{
    if task as usize != draft.totals.len() + 1 {
        return Err(Stop::Fault);
    }
    draft.totals.push(total)?;
    draft.place = Place::Totals;
    Ok(())
}

/// Whether an entry is of version 2 alone: an exit, what it gives up, and a value at the key of tests.
fn is_later(entry: &Entry) -> bool
    ensures { result ≡ reading.is_later entry.now }
{
    match entry {
        Entry::Call { word, .. } => matches!(word, Word::Exit),
        Entry::Made { key, .. } => *key == 8,
        Entry::Released { .. } => false,
        Entry::Gone { .. } => true,
        Entry::Lost { .. } => true,
        Entry::Phase => false,
    }
}

/// Adds an entry to what was read, where that is one of the version.
fn with_entry(draft: &mut Draft, entry: Entry) -> Result<(), Stop>
    ensures { reading.Gives (λ done. reading.kept draft.new) result (reading.with_entry (reading.kept draft.old) entry) }
{
    if draft.version != 2 && is_later(&entry) {
        return Err(Stop::Fault);
    }
    draft.history.reserve(1)?;
    draft.history.push(entry);
    Ok(())
}

/// Adds an item to what was read, where that may stand at this place.
fn with_item(draft: &mut Draft, item: Item) -> Result<(), Stop>
    requires { length draft.old.totals < 4294967295 }
    ensures { reading.Gives (λ done. reading.kept draft.new) result (reading.with_item draft.old.place (reading.kept draft.old) item) }
{
    match (draft.place, item) {
        (Place::Title, Item::Title { version }) => {
            draft.place = Place::Entries;
            draft.version = version;
            Ok(())
        }
        (Place::Entries, Item::Step { entry }) => with_entry(draft, entry),
        (Place::Entries, Item::Task { task, total }) => with_total(draft, task, total),
        (Place::Totals, Item::Task { task, total }) => with_total(draft, task, total),
        (Place::Totals, Item::Counts { vouchers, values }) => {
            draft.place = Place::End;
            draft.vouchers = vouchers;
            draft.values = values;
            Ok(())
        }
        (Place::End, Item::End) => {
            draft.place = Place::Done;
            Ok(())
        }
        _ => Err(Stop::Fault),
    }
}

/// Adds the next line to what was read, in place. After an error what was read is of no more use.
#[tactic(auto, unfolding(crate::specs::Reading::step_of))]
fn step(alloc: Global, draft: &mut Draft, line: &[u8]) -> Result<(), Stop>
    requires { length draft.old.totals < 4294967295 }
    ensures { reading.Gives (λ done. reading.kept draft.new) result (reading.step_of (reading.kept draft.old) line.now) }
{
    let item = item(alloc, line)?;
    with_item(draft, item)
}

/// Whether the last line was read.
fn is_done(place: Place) -> bool
    ensures { result ≡ reading.is_done place }
{
    match place {
        Place::Done => true,
        _ => false,
    }
}

/// What a draft is at the end of the text, behind the last line feed.
#[tactic(auto, unfolding(crate::specs::Reading::finish))]
fn finish(number: u32, draft: Draft, rest: &[u8]) -> Result<Report, ReportFault>
    ensures { reading.Reads result (reading.finish number (reading.kept draft) rest.now) }
{
    if is_done(draft.place) && rest.is_empty() {
        Ok(Report {
            version: draft.version,
            history: draft.history,
            totals: draft.totals,
            vouchers: draft.vouchers,
            values: draft.values,
        })
    } else {
        Err(ReportFault::At { line: number })
    }
}

/// What stops the reading of the line with this number.
fn at_line(number: u32, stop: Stop) -> ReportFault
    ensures { result ≡ reading.fault_at number stop }
{
    match stop {
        Stop::Fault => ReportFault::At { line: number },
        Stop::Memory { cause } => ReportFault::from(cause),
    }
}

/// What is read of a text, line by line.
fn read_lines(alloc: Global, bytes: &[u8]) -> Result<Report, ReportFault>
    requires { length bytes.now < 4294967295 }
    ensures { reading.Reads result (reading.read_of bytes.now) }
{
    let mut draft = Draft {
        place: Place::Title,
        version: 0,
        history: History::new(alloc),
        totals: TotalList::new(alloc),
        vouchers: 0,
        values: 0,
    };
    let mut rest = bytes;
    let mut number = 1;
    while let Some((line, more)) = next_line(rest) {
        match step(alloc, &mut draft, line) {
            Ok(()) => {}
            Err(stop) => return Err(at_line(number, stop)),
        }
        rest = more;
        number += 1;
    }
    finish(number, draft, rest)
}

/// The report whose text the bytes are, or the first line that can't stand at its place: with it the
/// lines so far begin the text of no report. For input that ends inside a line that is the unfinished
/// line; for input that ends too early behind a line feed, one more than the number of lines; for
/// bytes behind the last line, the line behind it. It does not ask whether the history is legal, and
/// there may be any number of tasks.
///
/// It goes over the text once, in time that grows with its size, and takes memory only for what the
/// report keeps. The one other error is out of memory.
pub fn read(alloc: Global, bytes: &[u8]) -> Result<Report, ReportFault>
    requires { length bytes.now < 4294967295 }
    // What is read is well formed, and its text is the bytes.
    ensures found { IfOk result (λ report. IsReport bytes.now report) }
    // A well-formed report whose text is the bytes is read, unless memory runs out.
    ensures only { (report : Report) → IsReport bytes.now report → IsRead result report }
    // The line of a fault is the first that can't stand at its place.
    ensures fault { IsFaultOf result bytes.now }
    // The first line that can't stand is answered, unless memory runs out.
    ensures fault_only { (line : ℕ) → IsFault bytes.now line → IsRefused result line }
{
    read_lines(alloc, bytes)
}
