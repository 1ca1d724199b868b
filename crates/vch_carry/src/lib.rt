//! Calls that carry vouchers from task to task, and out of the last one: `send`, `recv` and `exit`. Beside them stand the calls that
//! are answered at once with an amount, or change one: `ledger`, `assertions`, `live`, `extern` and `charge`.
//!
//! A call that tells an amount leaves all but the history as it was. One that is accepted changes what is due on one value, or one
//! ledger, in the step that notes its answer, so that each due and each ledger is at every moment what the history adds up.
//!
//! A call begins with a copy of the voucher that it is about, so that all its values stay while managers are asked. Where it
//! ends, the copy goes into a message or a name. `exit` gives up one name or one message an event.
//!
//! **The invariant** is `Reached` of `vch_parts`. Each public function is one event of a task: whatever state of the event
//! machine the parts stand for, they stand for the one after its event afterwards.
//!
//! **What protects it**: each event is one call with the parts at hand, and nothing protects a task between two of its events.
//! A place in a queue is looked for twice for that reason:
//!
//! ```text
//! task 1                                   task 3
//! Begin of a send to task 2: a copy
//!                                          Begin of a send to task 2, Place: the queue is full
//! Place: the queue is full, refused
//! ```
//!
//! The events of an exit and of a receive, where each is next:
//!
//! ```rust
//! begin_exit(parts, task);
//! exit(parts, task); // a name or a message goes, or the call is answered
//!
//! begin_recv(parts, task);
//! place_recv(parts, task); // a name for the voucher, or refused where it is out of memory
//! ```
#![tactic(auto)]

mod answering;
mod charging;
mod copying;
mod counting;
mod delivering;
mod ending;
mod exits;
mod lets;
mod placing;
mod recv_begins;
mod send_begins;
mod sending;
mod telling;

pub use charging::begin_charge;
pub use counting::begin_extern;
pub use delivering::place_send;
pub use exits::{begin_exit, exit};
pub use placing::place_recv;
pub use recv_begins::begin_recv;
pub use send_begins::begin_send;
pub use sending::Sending;
pub use telling::{begin_assertions, begin_ledger, begin_live};
