//! The summary of a generated scenario beside the report of its canonical text.
use crate::row_tests::played;
use std::alloc::Global;
use std::test::Fail;
use vch_generate::{generate, generated_is_writable};
use vch_text::next_line;

/// The canonical text of a generated scenario.
fn generated_text(alloc: Global, n: u64) -> Result<Vec<u8>, Fail> {
    generated_is_writable();
    let scenario = generate(alloc, n)?;
    Ok(vch_scenario::write(alloc, &scenario)?)
}

/// What stands behind the first place of a part of a text.
fn behind<'a>(text: &'a [u8], part: &[u8]) -> Option<&'a [u8]> {
    for at in 0..text.len() {
        if let Some(rest) = text[at..].strip_prefix(part) {
            return Some(rest);
        }
    }
    None
}

/// Whether a line tells no ledger, or a report tells the same ledger.
fn is_told(line: &[u8], report: &[u8]) -> bool {
    if !line.starts_with(b"task ") {
        return true;
    }
    match behind(report, line) {
        Some(rest) => rest.starts_with(b" held 0 out 0\n"),
        None => false,
    }
}

/// How many lines of a summary tell a ledger, where a report tells each of them; else 0.
fn ledgers_told(summary: &[u8], report: &[u8]) -> usize {
    let mut rest = summary;
    let mut count = 0usize;
    for _byte in 0..summary.len() {
        let Some((line, more)) = next_line(rest) else {
            return count;
        };
        if !is_told(line, report) {
            return 0;
        }
        if line.starts_with(b"task ") {
            count = count.saturating_add(1);
        }
        rest = more;
    }
    count
}

/// The last bytes of a text, so many or all.
fn last_of(text: &[u8], count: usize) -> &[u8] {
    &text[text.len().saturating_sub(count)..]
}

/// The totals stand in the last 1,000 bytes of the report.
#[test]
fn ledgers_of_a_summary_are_those_of_the_report(rt: HostRuntime) -> Result<(), Fail> {
    let alloc = rt.alloc();
    let summary = played(alloc, &["load", "1"], b"", 1000)?;
    let text = generated_text(alloc, 1)?;
    let report = played(alloc, &["play"], text.as_slice(), 1000000)?;
    let totals = last_of(report.written(), 1000);
    assert_eq!(rt; ledgers_told(summary.written(), totals), 8);
    Ok(())
}
