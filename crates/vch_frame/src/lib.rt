//! What the frame of a call under way holds: a receipt in flight, a claim, and the references to let go of.
//!
//! A frame stays with its task between two events, and other tasks go on meanwhile. What it has in hand of a value is one of
//! the types here, so that a frame is moved and written in place and takes no memory of its own:
//!
//! * [`KeyReceipt`]: a reference that the manager gave and the entry does not count yet;
//! * [`Claiming`]: a claim on an entry without references, and the manager's answer once it was asked;
//! * [`Lets`]: the entries whose references the call has still to let go of, each a [`KeyIndex`];
//! * [`Tally`]: how many claims, references and questions there were.
//!
//! **The invariant** is that of [`Lets`]: at most twelve references wait. Whoever adds one shows that there is room for it,
//! so none is dropped: a step of a call adds at most four, one of each key. They are let go of in the order in which they
//! came, since the history shows which value was released first.
//!
//! **What protects it**: a frame is its own task's alone, and no other task sees its receipt, its claim or its references.
//! The hazard is a claim that grows old, which is why [`Claiming`] keeps what it was taken at:
//!
//! ```text
//! task 1                                        task 2
//! LetGo: no reference is left, a claim is taken at made count 1
//!                                               the value is made again: made count 2
//! Ask: 1 is not 2, so the manager refuses
//! ```
//!
//! A proved caller: two references are let go of, the first one first.
//!
//! ```rust
//! let mut lets = Lets::new();
//! lets.push(KeyIndex { key: Key::User, index: 4 });
//! lets.push(KeyIndex { key: Key::Bank, index: 1 });
//! let first = lets.take_first();      // that of user data
//! ```
//!
//! Each call takes constant time, but for [`Lets::take_first`], which moves the others up: at most eleven.
#![tactic(auto)]

mod frame;
mod tally;

pub use frame::{Claiming, KeyIndex, KeyReceipt, Lets};
pub use tally::Tally;
