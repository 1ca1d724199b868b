//! The parts of a core for every key and both versions: when they stand for a state of the event machine, which event of a
//! task is next, and the events that give values back.
//!
//! [`Parts`] has the values of all keys, the names and queues of all tasks, the calls that are under way and the history.
//! The event machine, which says what an event is, looks at every holder; the parts count references and keep indices.
//!
//! **The invariant** is `Reached` of `specs/Reached.antt`: some run of the machine over the parts' own scenario ends in a
//! state that the parts stand for. `StandsFor` of `specs/Stands.antt` says when they do:
//!
//! * each key: the manager's live values, free handles, rules and dues are those of the state and its history, and the
//!   entries and made counts fit a picture of who holds what (`KeyStands`);
//! * the bank's ledgers are those of the history (`Ledgers`);
//! * names, queues and frames are those of the state, with indices where it has handles (`Shape`);
//! * the history, the number of phases and the tally, whose questions are those that all managers were asked;
//! * room in the history for all that may come but values.
//!
//! What every state of every run keeps is not said again: that a frame with a receipt has no claim is a law of `vch_legal`,
//! and that no count passes its type one of `vch_bounds`.
//!
//! **What protects it**: each event is one call with the parts at hand, so under a lock where there is one, and nothing
//! protects a task between two of its events. This is the hazard that the marks of a claim are for:
//!
//! ```text
//! task 1                                        task 2
//! LetGo: refs 0, a claim with sync 1
//!                                               (Make: the manager's made count is 2; the claim is raced)
//! Ask: 1 is not 2, refused
//!                                               (Refer: refs 1, made 2; the claim is back)
//! Recheck: made is not 1 but refs is not 0: the claim ends, the value stays
//! ```
//!
//! A proved caller: the next event of a task, where that is one of a value.
//!
//! ```rust
//! if parts.value_kind(task).is_some() {
//!     let done = parts.value_event(task);
//! }
//! ```
#![tactic(auto)]

mod ask;
mod asking;
mod forming;
mod frame;
mod frames;
mod let_go;
mod next;
mod parts;
mod phase;
mod recheck;
mod refer;
mod start;
mod tally;
mod value;

pub use asking::Keys;
pub use forming::put_index;
pub use frame::Frame;
pub use frames::{Frames, Working, fresh_frames};
pub use let_go::claiming;
pub use parts::Parts;
