//! A checker of reports: whether a report is one of a scenario, whoever made it.
//!
//! It takes the entries of the report's history one by one into books of their own, and asks of each whether it may come next:
//! neither the core nor a manager is used, and no total of the report is trusted. A verdict is `Whole` exactly where the history
//! is whole and the report is the one of it; else it carries the first flaw, in the order of [`Flaw`].
#![tactic(auto)]

mod check;
mod ending;
mod laws;
#[cfg(test)]
mod tests;
mod totals;
mod verdict;

pub use check::certify;
pub use laws::flawed_reports;
pub use verdict::{Flaw, Verdict};
