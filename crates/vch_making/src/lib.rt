//! The event Make of any call, for every key and both versions: a manager is asked for a value, and the call goes on with its
//! answer. Beside it stands how a call that is under way is refused.
//!
//! **The invariant** is `Reached` of `vch_parts`. A manager's answer gives the frame a receipt, and the manager's made count rises
//! with it; the reference is taken by a later Refer.
//!
//! **What protects it**: Make is one event with the parts at hand. Between it and its Refer other tasks go on, and a claim on the
//! value that was not asked yet is raced:
//!
//! ```text
//! task 1                                   task 2
//! LetGo: the last reference goes, a claim
//!                                          Make: the same value, a receipt; the claim is raced
//! Ask: the made count has risen, refused
//!                                          Refer: the value has a reference again
//! ```
#![tactic(auto)]

mod asking;
mod ending;
mod flying;
mod losing;
mod making;
mod question;
mod refusing;

pub use ending::{end_frame, let_all_go, word_of};
pub use making::make;
pub use question::{Question, content_at};
pub use refusing::{out_of_memory, refuse};
