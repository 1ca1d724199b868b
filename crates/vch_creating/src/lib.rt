//! The events of a `create` for every key and both versions, and of the calls that drop a name or tell what a voucher has.
//!
//! A create begins with a frame that forms the empty voucher. Each record that asks no manager is one Work, each that asks one is a
//! Make and a Refer, and Place gives the voucher a name.
//!
//! **The invariant** is `Reached` of `vch_parts`. A key that a record copies gets one reference more on the entry of the previous
//! voucher, and what stood at the key before is to be let go of by later events of the same call, also where the same index is put
//! there again.
//!
//! **What protects it**: a record is one event with the parts at hand, so the previous voucher that it copies from is held by a
//! name for as long as the event takes:
//!
//! ```text
//! task 1                                   task 2
//! Work: COPY takes a reference on the
//! entry of a voucher that its name holds
//!                                          LetGo: the entry has a reference less, and stays
//! LetGo: what stood at the key before
//! ```
#![tactic(auto)]

mod change;
mod creates;
mod drops;
mod extracting;
mod naming;
mod reciting;
mod record;
mod working;

pub use creates::begin_create;
pub use drops::begin_drop;
pub use extracting::begin_extract;
pub use naming::place_create;
pub use reciting::begin_recipes;
pub use working::work;
