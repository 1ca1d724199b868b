//! Whole runs of a core of any scenario: one step of a task, an order of steps, in turn to the end, and by the schedule of a seed.
//!
//! Each of them is told by the runs of the event machine, in `specs/Runs.antt`: whatever state of the machine the core
//! stands for before, it stands afterwards for the one at the end of the moves that the schedule names. Memory that was
//! wanted is the one free choice, since an event answers such a want by itself, with the code 6 in the history.
//!
//! **The invariant** is that of [`vch_whole::Core`], kept by each event; the loops here add that the moves made so far are
//! the first ones of the schedule, and that what is left to do bounds how many there can be, so that a run ends.
//!
//! **What protects it**: the caller, who has the core at hand. Between two steps of one task any other may have its own, and
//! this is where the schedules differ:
//!
//! ```text
//! in turn                              by a seed
//! task 1: Begin, LetGo, Ask, Recheck   task 1: Begin, LetGo
//! task 2: Begin, Make, Refer, Place    task 2: Begin, Make       (the claim is raced)
//!                                      task 1: Ask, Recheck      (refused; the value stays)
//!                                      task 2: Refer, Place
//! ```
//!
//! The two schedules are this project's own. A proved caller:
//!
//! ```rust
//! let mut core = Core::start(alloc, scenario)?;
//! drive(&mut core, alloc, &[1, 2, 1]);
//! finish(&mut core, alloc);
//! ```
#![tactic(auto)]

mod calls;
mod carrying;
mod creating;
mod current;
mod ends;
mod events;
mod order;
mod said;
mod seed;
mod stepped;
mod turn;

pub use carrying::carry_event;
pub use creating::create_event;
pub use ends::finish;
pub use events::event;
pub use order::{are_tasks, drive};
pub use seed::drive_seed;
pub use stepped::{Stepped, step};
