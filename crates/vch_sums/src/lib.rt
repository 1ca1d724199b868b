//! What a history adds up, kept entry by entry: external counts, dues, ledgers and assertions.
//!
//! The definitions of a reply sum over the whole history. Whoever goes through a history entry by entry keeps [`Sums`] beside it
//! and asks them instead: each live value has a row, found by the number of its Made entry, and each task a ledger, what it holds
//! and what is out from it. No value's content is copied: the content of a live value stands in its Made entry.
//!
//! **The invariant** is `IsSummed`: these are the sums of the history so far. Each of [`Sums::made`], [`Sums::released`],
//! [`Sums::counted`] and [`Sums::charged`] follows an entry of its kind, where the history with it is legal; every other entry
//! changes no sum, and `passed` in `proofs/CallerLemmas` says so.
//!
//! ```rust
//! let mut sums = Sums::start(alloc, &scenario)?;
//! sums.made(&scenario, 1, &value)?;   // entry 1 made a value
//! sums.counted(1, true, 3)?;          // its external count rises by 3
//! let held = sums.held(2);            // what task 2 holds now
//! sums.released(1)?;                  // the value of entry 1 is released
//! ```
#![tactic(auto)]

mod counts;
mod laws;
mod row;
mod sums;
#[cfg(test)]
mod tests;

pub use laws::passed_entries;
pub use row::{Row, Share};
pub use sums::Sums;
