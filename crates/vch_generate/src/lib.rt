//! A large scenario that is drawn from a number, and the summary of its history.
//!
//! [`generate`] gives a scenario of eight tasks and 8,192 calls, in groups of eight: a task makes a voucher of its account, its
//! importance and four bytes of user data and sends it to the next task, where it is received, charged and counted; then both give
//! it up. Which task makes it, and the bytes, are drawn from the number. So at the end everything was given back, and the ledgers
//! say which tasks were charged.
//!
//! **What is looked for**: a scenario of another number. Each group takes two draws, whatever they give, so two numbers give
//! different tasks and contents, and with them different ledgers.
//!
//! ```text
//! let scenario = generate(alloc, 1)?;
//! let count = scenario.phases.at(0).len();     // 8192
//! ```
#![tactic(auto)]

mod draws;
mod generator;
mod laws;
#[cfg(test)]
mod tests;

pub use draws::Draws;
pub use generator::generate;
pub use laws::generated_is_writable;
