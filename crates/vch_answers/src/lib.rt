//! A call that is answered as it begins: it counts as begun, and its entry is noted, in one step.
//!
//! Most calls end so, and so do a create of no bytes, a send to no task, a drop that leaves nothing to be let go of. What such a
//! step leaves of the parts of a core is `answered_first` of `vch_moves`, of the call and its reply.
#![tactic(auto)]

mod answering;

pub use answering::{answer, out_of_memory};
