//! The top call: from the words and the bytes that are read to the bytes that are written.
//!
//! Its one invariant is that nothing is half done: the input is read to its end before it is looked at, and the text is
//! made whole before the first byte of it is written. So each status tells what was written, and why.
//!
//! `run_steady` is a proved caller: over ends that never fail there is no status 3 or 4.
#![tactic(auto)]

mod check;
mod command;
mod fault;
mod header;
mod input;
mod judging;
mod listing;
mod load;
mod outcome;
mod play;
mod recipe;
mod reports;
mod run;
mod steady;
mod two_texts;

pub use command::Command;
pub use run::run_plain;
pub use steady::run_steady;

#[cfg(test)]
mod call_tests;
#[cfg(test)]
mod cut_tests;
#[cfg(test)]
mod large_tests;
#[cfg(test)]
mod load_tests;
#[cfg(test)]
mod order_tests;
#[cfg(test)]
mod refusal_tests;
#[cfg(test)]
mod row_tests;
#[cfg(test)]
mod tests;
#[cfg(test)]
mod verdict_tests;
