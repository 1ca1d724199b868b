//! The text of a report: written from a history and its totals, and read back.
//!
//! A report says what a run did: its entries in their order, each task's totals at the end, and how
//! many vouchers and values live. Its text is lines, with one spelling for each report.
//!
//! Its one invariant: a well-formed report has one text, and a text is that of one report at most
//! (`one_text`). So a history that is printed is the only one with that text, and whoever checks the
//! text checks the history. Each legal history has such a text, in both versions and whatever its calls
//! (`legal_reports`). The hazard is a text that says two things, or one that is altered and
//! still read: a number with a zero in front, a second space, a capital digit, a line too many. Each
//! text is a report's or has one first line that can't stand (`one_answer`), and `read` answers
//! just that.
//!
//! A [`Core`](vch_whole::Core) whose phases have ended has a report, which [`report_of`] makes: its
//! own history, what lives at its end, and totals that are read from the managers and are what the
//! history adds up.
//!
//! ```text
//! let report = report_of(alloc, &core)?;       // of a run that has ended
//! let report = read(alloc, text)?;             // or `At { line }`
//! let again = write(alloc, &report)?;          // the same bytes as `text`
//! ```
#![tactic(auto)]

mod copies;
mod draft;
mod fault;
mod item;
mod laws;
mod lines;
mod numerals;
mod of_core;
mod reader;
mod replies;
mod report;
mod values;
mod writer;

pub use fault::ReportFault;
pub use laws::{legal_reports, one_answer, one_text};
pub use of_core::report_of;
pub use reader::read;
pub use report::Report;
pub use vch_model::{Total, TotalList};
pub use writer::write;

#[cfg(test)]
mod core_tests;
#[cfg(test)]
mod tests;
