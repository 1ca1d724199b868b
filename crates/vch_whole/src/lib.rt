//! A core for every scenario: its parts, with what is true of them at every moment.
//!
//! [`Core`] is what runs scenarios of both versions and of every call. Its parts stand in a crate below and its events in crates
//! above; here it is started, read and taken from phase to phase.
//!
//! **The invariant** is `Reached` of `vch_parts`: some run of the event machine over the core's own scenario ends in a state that
//! the parts stand for, and the history of the core is that run's. So what a core tells is told in the words of the sequential
//! store after its history: the totals of a task, how many different vouchers names and messages have, and how many values live.
//!
//! **What protects it**: the caller, who has the core at hand, so under a lock where there is one. Whoever reads between two
//! events sees the end of a run, and another end after the next event:
//!
//! ```text
//! task 1                                   task 2
//! Make: the history has the value
//!                                          total, values: the value counts
//! Ask: the manager agrees, the value goes
//!                                          total, values: it counts no more
//! ```
//!
//! A proved caller:
//!
//! ```rust
//! let mut core = Core::start(alloc, scenario)?;
//! let ended = core.next_phase();
//! let values = core.values();
//! ```
#![tactic(auto)]

mod readers;
mod state;

pub use state::Core;
