//! Whether a history is legal, entry by entry, over the books of what was taken of it.
#![tactic(auto)]

mod answer;
mod ask;
mod carry;
mod change;
mod counts;
mod create;
mod effect;
mod follow;
mod formed;
mod given;
mod judge;
mod own;
mod recipe;
mod record;
mod replies;
mod transfer;
mod want;

pub use judge::{Judged, judge_history};
