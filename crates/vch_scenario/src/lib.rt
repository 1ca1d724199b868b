//! The text of a scenario, read and written.
//!
//! A scenario is a text of lines: what the tasks are, and in phases which task makes which call. Its
//! grammar stands apart from any reader, as a relation between texts and scenarios; the canonical text
//! is one of the texts that it relates to a scenario.
//!
//! The one invariant is that each text has one answer: the one scenario that the grammar relates to it,
//! or the first line that can't stand at its place with the one reason for it. The hazard is a reader
//! that takes more than the grammar, or tells a later fault: then two programs that read the same text
//! run different scenarios. So `read` says both sides, what it takes and what it refuses, and `write`
//! gives one text that is read again:
//!
//! ```text
//! let scenario = read(alloc, text)?;              // any text of the scenario
//! let canonical = write(alloc, &scenario)?;       // the one canonical text
//! let same = read(alloc, &canonical)?;            // the same scenario again
//! ```
#![tactic(auto)]

mod call;
mod draft;
mod fault;
mod laws;
mod reader;
mod task;
#[cfg(test)]
mod tests;
mod writer;

pub use fault::{ScenarioFault, Why};
pub use laws::{one_answer, round_trip, worked_texts};
pub use reader::read;
pub use writer::write;
