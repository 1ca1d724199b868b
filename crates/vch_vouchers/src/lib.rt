//! Who has which voucher: the names and the queue of every task, over one table of vouchers.
//!
//! [`Vouchers`] is seen as a list of desks, one for each of the tasks 1, 2, 3 and so on. A desk has the names of the task, each
//! with its voucher and user references, and the task's queued messages. Slots of the table and reference counts are hidden:
//! each call says what becomes of the desks, and whether a voucher was known before or is an orphan now.
//!
//! **The invariant**: each slot that a name or a message has is live in the table, the references of a slot are the names and
//! messages that have it, and live slots have different vouchers. So two names or messages have one slot exactly where their
//! vouchers are equal, and a slot goes with the last name or message of its voucher.
//!
//! **What protects it**: each call is one step under the caller's lock, and makes room before it changes anything. Of the two
//! that give up and form one voucher, one is first:
//!
//! ```text
//! task 1 drops its last name               task 2 gets a name for an equal voucher
//!                                          name: it was known
//! drop_name: no orphan, task 2 has it
//! ```
//!
//! ```text
//! task 1 drops its last name               task 2 gets a name for an equal voucher
//! drop_name: an orphan, to be let go of
//!                                          name: it was not known
//! ```
//!
//! That equal vouchers are one, and that a task has one name for a voucher, are the kernel release's.
//!
//! A voucher that is named, sent and received:
//!
//! ```rust
//! let mut vouchers = Vouchers::new(alloc, &[4, 4])?;
//! let given = vouchers.name(1, &voucher)?; // name 1, was_known: false
//! let known = vouchers.send(2, 1, 70, &voucher)?; // true
//! let orphan = vouchers.drop_name(1, given.name); // None, since the message has it
//! let taken = vouchers.take_first(2); // sender 1, id 70, orphan: Some, the voucher
//! ```
#![tactic(auto)]

mod answers;
mod desks;
mod limits;
#[cfg(test)]
mod tests;
mod vouchers;

pub use answers::{Given, Message, Taken};
pub use vouchers::Vouchers;
