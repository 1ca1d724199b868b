//! Values by their handles, each value once: the list that a manager of tasks' values keeps, with an index that finds a value.
//!
//! An [`Interned`] does what `vch_base::Places` does, and is seen as the same list of live values and free handles. `Places` looks
//! through all values for one; here a hashed index has each live value with its handle, so a look-up doesn't depend on how many
//! values are live. Values are found by a tag, their kind and the tasks that they name, so user data can't stand here.
//!
//! **The invariant**: the index has exactly the tags of the live values, each with its handle, and no live value is user data. So
//! a value is found exactly where it is live, and one that went can never be found again.
//!
//! A list of two tasks that is handed out twice, and then taken back:
//!
//! ```rust
//! let mut values = Interned::new(alloc);
//! let list = Chain::one(1).with(2);
//! let first = values.hand(Value::Chain { list })?; // handle 0, fresh
//! let list = Chain::one(1).with(2);
//! let second = values.hand(Value::Chain { list })?; // handle 0, not fresh; its made count is 2
//! values.remove(0); // the next new value gets handle 0
//! ```
#![tactic(auto)]

mod interned;
mod tag;
#[cfg(test)]
mod tests;

pub use interned::Interned;
