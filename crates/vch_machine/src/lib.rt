//! The event machine: what the tasks' small steps do to names, queues, values and the history, and which step of a task is
//! next.
//!
//! The crate has definitions alone, all in `specs/`, and two laws. A call is carried out in events; between two
//! events of one call, any task may do its own. The machine finds that a value is not held by looking at every holder: it
//! has no counts, no slots and no lock. Bodies of code show that each of their steps is an event of it.
//!
//! The hazard that it exists for: a task lets go of the last reference of a value and asks the manager to take it back,
//! while another task makes the same value again.
//!
//! ```text
//! task 1                                task 2
//! LetGo: not held, so a claim
//!                                       Make: the value is live, so the receipt is for its handle; the claim is raced
//! Ask: raced, so refused
//!                                       Refer: the handle is held; the claim is back
//! Recheck: back, but held: the claim ends, and the value stays
//! ```
//!
//! Where Ask comes before Make it is agreed, the value is released, and the Make is of a new value.
#![tactic(auto)]

ghost use Rattle.std.specs.Prelude.{◌≡◌, ◌≢◌, ℕ, Bool, Option, Some};
ghost use Rattle.vch_model.specs.declared.lists.Scenario.{Scenario};
ghost use Rattle.vch_machine.specs.State.{Machine};
ghost use Rattle.vch_machine.specs.Events.{event};
ghost use Rattle.vch_machine.specs.Next.{next_kind};
ghost use Rattle.vch_machine.specs.Worked.{Worked};

/// A law: an event of one task never changes which event of another is next.
#[tactic(auto, using(crate::proofs::Others::others_next))]
pub fn others_next()
    ensures { (sc : Scenario) (want : Bool) (t u : ℕ) (m n : Machine) → u ≢ t
        → event sc want m t ≡ Some n → next_kind sc n u ≡ next_kind sc m u }
{}

/// A law that computes: the worked scenarios, by their schedules, give the entries that are written beside them.
#[tactic(auto, using(crate::proofs::Rows::worked))]
pub fn worked_scenarios()
    ensures { Worked }
{}
