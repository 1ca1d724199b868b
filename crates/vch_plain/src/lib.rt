//! Runs of a scenario on plain lists: the event machine, event by event.
//!
//! [`play_plain`] plays a scenario in turn, [`play_seed`] by the schedule of a seed, each to the end of its last phase. Every call of
//! both versions is played, and what comes out is the history, and what it adds up.
//!
//! **The one invariant**: the lists are a state of the event machine (each struct here is seen as the machine's record of the same
//! name), the moves of the schedule lead there from its start, and the sums are those of its history. Each event is one function,
//! and its clause names the machine's event.
//!
//! **What is looked for**: whether a value is held is found by going through the names, the messages and the frames of all tasks,
//! each time anew. There are no counts of holders and no tables of vouchers, so a run here checks a core that has them.
//!
//! **The hazard** is a value that its last holder has let go of, while another task makes it again:
//!
//! ```text
//! task 1                                task 2
//! LetGo: not held, so a claim
//!                                       Make: the value is live, and the claim is raced
//! Ask: raced, so refused
//!                                       Refer: the value is held; the claim is back
//! Recheck: back, but held: the claim ends, and the value stays
//! ```
//!
//! ```rust
//! let played = play_plain(alloc, &scenario)?;
//! let entries = played.history.len();
//! ```
#![tactic(auto)]

mod answers;
mod asking;
mod beginning;
mod claims;
mod copy;
mod events;
mod exits;
mod follow;
mod frames;
mod handles;
mod held;
mod leaving;
mod lets;
mod machine;
mod making;
mod mint;
mod moving;
mod names;
mod next;
mod numbers;
mod placing;
mod plans;
mod play;
mod played;
mod reading;
mod reply;
mod run;
mod seed;
mod task;
#[cfg(test)]
mod tests;
mod told;
mod transfers;
mod turn;
mod values;
mod words;
mod working;

pub use play::{play_plain, play_seed};
pub use played::Played;
