//! Made counts of many tasks, one atomic word a slot, without a lock and without waiting.
//!
//! **The word.** Below 2 to the 63 it is the number of made counts that are out. From 2 to the 63 on, the mark, the slot is
//! released for good. [`MadeRow::make`] is one fetch and add of 1, [`MadeRow::release`] one compare and exchange from the seat's
//! own count to the mark.
//!
//! **The invariant.** The word of a slot in use is the sum of all seats' own counts, and no seat knows the slot to be released;
//! of a released slot no seat has a count, and one seat released it. All seats together may do fewer than 2 to the 62 makes, so
//! a count never reaches the mark, and a marked word never comes round to 0. A seat that was dropped keeps its counts in these
//! sums: a slot of which it held one is never released.
//!
//! **What protects it.** Each change is one atomic step on one word, and a seat steps for itself alone. The race that this is
//! for is between a release and a new made count:
//!
//! ```text
//! seat a                                    seat b
//! make: own 1, the word is 1
//!                                           make: own 1, the word is 2
//! release: 2 is not 1, raced, nothing changes
//! b is joined into a: own 2
//! release: 2 is 2, the word is the mark
//!                                           a later make by any seat: dead
//! ```
//!
//! So a slot is released only by a seat that holds every made count of it at that step, and a make that returns `Made` is never
//! of a released slot. Both are laws over every step ([`only_the_holder_releases`], [`a_released_slot_stays_released`]), and
//! the clauses of `make` and `release` say which word each call met.
//!
//! A proved caller, with what each answer means to it:
//!
//! ```rust
//! let (row, mut a) = MadeRow::open(alloc, 1, 10)?; // one slot; all seats together may do ten makes
//! let mut b = row.split(&mut a, 5)?; // b goes to another thread, with half of the room
//! row.make(&mut a, 0); // Made { own: 1 }: the slot can't be released before a gives this count back
//! row.make(&mut b, 0); // Made { own: 1 }
//! if a.own(0) > 0 {
//!     row.release(&mut a, 0); // Raced { now: 2 }: another seat holds a count, and the slot stays in use
//! }
//! row.join(&mut a, b); // a has both counts and all the room
//! if a.own(0) > 0 {
//!     row.release(&mut a, 0); // Released: nobody can be racing, since a did every make or may still do it
//! }
//! row.make(&mut a, 0); // Dead: the slot is over
//! ```
#![tactic(auto)]

mod laws;
mod lists;
mod plays;
mod row;
mod seat;
#[cfg(test)]
mod tests;
mod threads;
mod view;

pub use laws::{
    a_released_slot_stays_released, no_release_leaves_the_word, only_the_holder_releases,
};
pub use row::{MadeRow, Make, Rel};
pub use seat::Seat;
