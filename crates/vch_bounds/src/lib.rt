//! What bounds a run of the event machine: how often anything is counted, and how long its history grows.
//!
//! The laws stand on definitions alone, and are shown once for every call of both versions. A core that stands for a state of
//! the machine takes from them that none of its counters passes its type, and that the room which it reserves is enough.
//!
//! The invariant is [`Spent`](events_spend): references are paid for by the bytes and the keys that calls bring, claims by
//! references and by the names and messages that are given up, and values and handles by references. Every event keeps it,
//! since it takes from what its own task may still do and leaves other tasks as they were. All else follows from legal
//! histories: an answer gives one name or one message at most, and a value is released once.
//!
//! What a core takes from `room_is_enough`: it reserves two places a call and one a phase at its start, and two more before
//! each Make. Then each entry has room when it comes, and memory is asked for only where a value is made.
#![tactic(auto)]

ghost use Rattle.std.specs.Prelude.{◌≡◌, ◌≤◌, ◌+◌, ◌*◌, ℕ, Bool, false, List, ◌∷◌, length, Some};
ghost use Rattle.vch_model.specs.declared.entry.Entry.{Entry};
ghost use Rattle.vch_model.specs.declared.lists.Scenario.{Scenario};
ghost use Rattle.vch_model.specs.After.{store_of};
ghost use Rattle.vch_model.specs.Legal.{LegalPast, CanFollow};
ghost use Rattle.vch_model.specs.Scenarios.{IsLimited};
ghost use Rattle.vch_machine.specs.State.{Machine, start};
ghost use Rattle.vch_machine.specs.Events.{event, phase_event};
ghost use Rattle.vch_machine.specs.Schedules.{Move, run_from_start};
ghost use Rattle.vch_legal.specs.Facts.{bit};
ghost use Rattle.vch_legal.specs.Tie.{Ties};
ghost use Rattle.vch_bounds.specs.Rooms.{Counted, room_of, is_made};
ghost use Rattle.vch_bounds.specs.Spent.{Spent};
ghost use Rattle.vch_bounds.specs.Bounded.{Limited, Bounded, InNumbers};

/// A law: a legal history has so many entries of each kind at most, and so it has room where two places a call, one a phase and
/// two a Made entry were reserved. An entry that is not Made never needs more room than that; before a value is made, two more
/// places are reserved.
#[tactic(auto, using(crate::proofs::counts::Rooms::counted, crate::proofs::counts::Rooms::room_grows, crate::proofs::counts::Rooms::within, crate::proofs::counts::Rooms::one_more))]
pub fn room_is_enough()
    ensures counted { (sc : Scenario) (past : List Entry) → LegalPast sc past → Counted sc past }
    ensures grows { (sc : Scenario) (past : List Entry) (entry : Entry)
        → room_of sc (entry ∷ past) ≡ room_of sc past + 2 * bit (is_made entry) }
    ensures within { (sc : Scenario) (past : List Entry) → LegalPast sc past → length past ≤ room_of sc past }
    ensures next { (sc : Scenario) (past : List Entry) (entry : Entry) → LegalPast sc past
        → CanFollow sc past (store_of sc past) entry → is_made entry ≡ false → length past + 1 ≤ room_of sc past }
{}

/// A law: nothing is spent at the start.
pub fn start_is_spent()
    ensures { (sc : Scenario) → Spent sc (start sc) }
{}

/// A law: an event of any task keeps what bounds a run, from any state that stands, and so does an end of a phase.
pub fn events_spend()
    ensures of_task { (sc : Scenario) (want : Bool) (t : ℕ) (m n : Machine) → Ties sc m → Spent sc m
        → event sc want m t ≡ Some n → Spent sc n }
    ensures of_phase { (sc : Scenario) (m n : Machine) → Spent sc m → phase_event sc m ≡ Some n → Spent sc n }
{}

/// A law: a scenario within the limits of a text is limited.
pub fn texts_are_limited()
    ensures { (sc : Scenario) → IsLimited sc → Limited sc }
{}

/// A law: what is spent bounds a state that stands, by the calls that were begun, and in numbers.
#[tactic(auto, using(crate::proofs::runs::Runs::bounded, crate::proofs::runs::Runs::in_numbers))]
pub fn states_are_bounded()
    ensures bounded { (sc : Scenario) (m : Machine) → Limited sc → Ties sc m → Spent sc m → Bounded sc m }
    ensures numbers { (sc : Scenario) (m : Machine) → Limited sc → Ties sc m → Spent sc m → InNumbers m }
{}

/// A law: every state of every run of a limited scenario is bounded so.
pub fn runs_are_bounded()
    ensures spent { (sc : Scenario) (moves : List Move) (m : Machine) → run_from_start sc moves ≡ Some m → Spent sc m }
    ensures bounded { (sc : Scenario) (moves : List Move) (m : Machine) → Limited sc → run_from_start sc moves ≡ Some m
        → Bounded sc m }
    ensures numbers { (sc : Scenario) (moves : List Move) (m : Machine) → Limited sc → run_from_start sc moves ≡ Some m
        → InNumbers m }
{}
