//! The store of a history, taken entry by entry, on lists with indexes and counts beside them.
//!
//! Whoever checks a history that someone else made goes through it with [`Books`]: asks what the sequential store has, decides
//! whether the next entry may come, and takes it by the one call that changes the store so. The definitions of a reply look at the
//! whole history; the books answer from what they keep.
//!
//! A voucher is the numbers of the Made entries of its values ([`Numbers`], 0 for Default). So equal vouchers are equal numbers, and no
//! content is copied: the content of a value stands in its Made entry.
//!
//! **The invariant** (`Keeps`): what was taken is legal, and the lists stand for the sequential store after it. Each number of a
//! voucher is that of a live value of its key; no two live values are equal; numbers of live values rise; each task has begun as many
//! calls as the history has of it; the sums are those of the history. Indexes and counts are in the invariants of the types that
//! keep them: an index of the contents of the live values (`Live`), and the counts of who holds what (`Tasks`, by `Holders`).
//!
//! ```rust
//! let books = Books::open(alloc, &scenario, &history)?;  // nothing was taken
//! let number = books.find(Key::User, &value);            // a live value's number, or none
//! let books = books.made(7, &value)?;                    // the next entry makes the value
//! let books = books.give(1, voucher)?;                   // the next call gives task 1 a voucher of it
//! let left = books.first_left();                         // a live value that nobody holds, or none
//! ```
#![tactic(auto)]

mod books;
mod changes;
mod content;
mod counter;
mod holders;
mod holding;
mod live;
mod made;
mod member;
mod names;
mod numbers;
mod queue;
mod rows;
mod tasks;
mod turns;

pub use books::Books;
pub use numbers::Numbers;
pub use rows::Message;
pub use turns::Uncalled;
