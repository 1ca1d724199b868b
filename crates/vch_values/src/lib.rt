//! The values of all keys: the five events of a value at a key that is an argument.
//!
//! A [`Values`] has for each managed key its manager, the entries of its values, and the numbers of the Made entries of the live
//! ones. It holds no vouchers, no calls and no history: who refers to a value, and which receipts and claims are in flight, the
//! caller keeps, and each event keeps the caller's picture of its key.
//!
//! | key | manager | values | of its own |
//! |---|---|---|---|
//! | Importance | [`ImportanceManager`] | lists of one to eight tasks | external counts; what tasks hold and have out |
//! | Bank | [`BankManager`] | Default, tasks and accounts | charges, ledgers, what is due |
//! | User | [`UserManager`] | bytes | |
//! | Test | [`UserManager`] | bytes | |
//!
//! [`ImportanceManager`]: vch_importance::ImportanceManager
//! [`BankManager`]: vch_bank::BankManager
//! [`UserManager`]: vch_user::UserManager
//!
//! **The invariant**: each manager has the rules of its key, and all of them are for the same tasks. So what a manager answers is
//! what its key says, and the bank has a ledger exactly for each task whose flags importance knows.
//!
//! **What protects it**: each call is one step under the caller's lock, and no call reaches a key but its own: `self.new` is
//! `self.old` with other parts at that key. A receipt, a claim and an answer don't say which key they are of. An index and a
//! handle are numbers at one key, and the same numbers are there at others, so the caller keeps the key beside each of them:
//!
//! ```text
//! task 1                                   task 2
//! let_go at Importance: a claim on entry 0
//!                                          share at Bank: entry 0 of the bank, which is another
//! ask at Importance: the claim's own entry
//! ```
//!
//! The races of an event with others at the same key are those of `vch_value`, whose page shows them.
//!
//! That there is a manager for each key, and what the events do, is written after the kernel release; the keys of importance and
//! the bank as they are here, and the key of tests, are this project's own.
//!
//! A value of user data from its make to its end:
//!
//! ```rust
//! let mut values = Values::new(alloc, &flags)?;
//! let made = values.make(Key::User, 0, 1, USER_DATA_STORE, None, b"ab")?; // a receipt, fresh
//! let index = values.refer(Key::User, receipt);
//! let claimed = values.let_go(Key::User, index); // a claim with sync 1
//! let asked = values.ask(Key::User, claim); // agreed
//! let again = values.recheck(Key::User, asked); // None
//! ```
#![tactic(auto)]

mod made;
mod readers;
#[cfg(test)]
mod tests;
mod values;

pub use values::Values;
