//! The lines of a scenario by their tasks: a call of a task is found by its number without a look at others.
//!
//! [`Places`] says where the lines of each task stand, and [`Script`] is a scenario with them. Whoever keeps a scenario of its own
//! takes a [`Script`]; whoever is lent one makes its [`Places`] once with [`places_of`] and hands the scenario to each look-up.
//!
//! **The invariant**: the places of a task are those of its lines, phase by phase, in their order. So the n-th line of a task is the
//! one at its n-th place.
//!
//! ```rust
//! let places = places_of(alloc, &scenario)?;
//! let first = places.call(&scenario, 1, 1);        // the first call of task 1, or none
//! let more = places.has_call(&scenario, 1, 1, 0);  // whether task 1 has another one in the first phase
//! ```
#![tactic(auto)]

mod places;
mod script;

pub use places::{Places, Spot, places_of};
pub use script::Script;
