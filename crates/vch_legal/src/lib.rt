//! Every run of the event machine is legal, and whole at its end.
//!
//! The theorem stands on definitions alone. Its laws are public functions with no parameters and an empty body; what they
//! say of the machine is shown in `proofs/`, by facts that every event keeps from any state that meets them.
//!
//! The hazard: between an event of one task and its next, any other task may do its own, so a value may be made again
//! while it is asked to be released. The facts of one handle (`spot_fits`) say what such a moment can look like.
#![tactic(auto)]

ghost use Rattle.std.specs.List.{AllByRecursion};
ghost use Rattle.std.specs.Prelude.{◌≡◌, ◌≤◌, ◌<◌, ◌+◌, ◌*◌, ◌^◌, ℕ, Bool, true, false, List, length, reverse, Option, Some, is_some};
ghost use Rattle.vch_model.specs.declared.entry.Entry.{Entry};
ghost use Rattle.vch_model.specs.Totals.{held, out, ledger};
ghost use Rattle.vch_legal.specs.Conserved.{each_task, accepted, dues};
ghost use Rattle.vch_base.specs.declared.limits.TheConstants.{MOST_CALLS};
ghost use Rattle.vch_model.specs.declared.call.Call.{Call};
ghost use Rattle.vch_model.specs.declared.call.Line.{Line};
ghost use Rattle.vch_model.specs.declared.lists.Scenario.{Scenario};
ghost use Rattle.vch_model.specs.After.{store_of};
ghost use Rattle.vch_machine.specs.State.{Handles, Frame, Machine, start, tasked};
ghost use Rattle.vch_base.specs.declared.kind.Kind.{Kind};
ghost use Rattle.vch_model.specs.Lines.{is_task, phases_in};
ghost use Rattle.vch_machine.specs.Next.{current, next_kind};
ghost use Rattle.vch_machine.specs.Events.{event, phase_event, all_at_rest};
ghost use Rattle.vch_machine.specs.PlainRuns.{IsPlainRun};
ghost use Rattle.vch_machine.specs.Schedules.{Move, happens, run_from_start, has_ended, in_turn, by_seed};
ghost use Rattle.vch_model.specs.Canonical.{IsWritable};
ghost use Rattle.vch_model.specs.Legal.{Legal, LegalPast, Whole};
ghost use Rattle.vch_model.specs.Scenarios.{IsIn, IsLimited, line_count};
ghost use Rattle.vch_legal.specs.Apart.{Facts, Beside};
ghost use Rattle.vch_legal.specs.Evaluated.{IsSoFar};
ghost use Rattle.vch_legal.specs.Facts.{Fits};
ghost use Rattle.vch_legal.specs.GivenBack.{EndsInExits, AllGivenBack};
ghost use Rattle.vch_legal.specs.Tie.{Ties};
ghost use Rattle.vch_legal.specs.Added.{with_added};
ghost use Rattle.vch_legal.specs.Left.{work_left, largest_call};
ghost use Rattle.vch_legal.specs.Reports.{IsByteEntry, IsReportable};

/// A law: the state at the start meets the facts.
pub fn start_fits()
    ensures { (sc : Scenario) → Fits sc (start sc) }
{}

/// A law: a state fits where it meets the facts, and what their proof keeps beside them: that few handles are to be let go,
/// that sends under way are to tasks, that exits form nothing, that values belong to their keys, that Made entries have
/// numbers of their own, and that questions are paid for by references.
#[tactic(auto, using(crate::proofs::facts::FactsApart::facts_of, crate::proofs::facts::FactsApart::beside_of, crate::proofs::facts::FactsApart::fits_both))]
pub fn facts_apart()
    ensures facts { (sc : Scenario) (m : Machine) → Fits sc m → Facts m }
    ensures beside { (sc : Scenario) (m : Machine) → Fits sc m → Beside sc m }
    ensures both { (sc : Scenario) (m : Machine) → Facts m → Beside sc m → Fits sc m }
{}

/// A law: an event of any task, from any state that meets the facts, leaves one that meets them.
pub fn event_fits()
    ensures { (sc : Scenario) (want : Bool) (t : ℕ) (m n : Machine) → Fits sc m
        → event sc want m t ≡ Some n → Fits sc n }
{}

/// A law: an end of a phase, from any state that meets the facts, leaves one that meets them.
pub fn phase_fits()
    ensures { (sc : Scenario) (m n : Machine) → Fits sc m → phase_event sc m ≡ Some n → Fits sc n }
{}

/// A law: every state of every run meets the facts.
pub fn run_fits()
    ensures { (sc : Scenario) (moves : List Move) (n : Machine) → run_from_start sc moves ≡ Some n
        → Fits sc n }
{}

/// A law: at every moment of every run, no more questions were asked than references were taken.
#[tactic(auto, using(crate::proofs::facts::Keeps::asks_at_most))]
pub fn asks_are_at_most_refers()
    ensures { (sc : Scenario) (moves : List Move) (n : Machine) → run_from_start sc moves ≡ Some n
        → n.tally.asks ≤ n.tally.refers }
{}

/// A law: the history of every run is legal. In whatever order the tasks' events fall, and wherever memory is out, each
/// entry is one that the sequential store allows there. `past` has its newest entry first.
pub fn every_run_is_legal()
    ensures { (sc : Scenario) (moves : List Move) (n : Machine) → run_from_start sc moves ≡ Some n
        → Legal (reverse n.past) sc }
{}

/// A law: where all phases of a run have ended, its history is whole: each task's calls stand in it once and in their
/// order, there is one end for each phase, and each live value but Default is held.
pub fn every_ended_run_is_whole()
    ensures { (sc : Scenario) (moves : List Move) (n : Machine) → run_from_start sc moves ≡ Some n
        → has_ended sc n ≡ true → Whole (reverse n.past) sc }
{}

/// A law: the schedule in turn gives a run of each scenario within the limits: every move that it names can happen. `wants`
/// says at which moves memory is out, and `bound` how many moves there are at most.
pub fn in_turn_is_a_run()
    ensures { (sc : Scenario) (wants : ℕ → Bool) (bound : ℕ) → IsLimited sc
        → is_some (run_from_start sc (in_turn bound wants sc (Some (start sc)))) ≡ true }
{}

/// A law: the schedule by seed gives a run: every move that it names can happen.
pub fn by_seed_is_a_run()
    ensures { (sc : Scenario) (wants : ℕ → Bool) (bound seed : ℕ)
        → is_some (run_from_start sc (by_seed bound seed wants sc (Some (start sc)))) ≡ true }
{}

/// A law: after every legal history, the assertions that all tasks hold add up to those that all tasks gave.
#[tactic(auto, using(crate::proofs::sums::Conservation::held_is_out))]
pub fn held_is_out()
    ensures { (sc : Scenario) (past : List Entry) → LegalPast sc past
        → each_task (held sc past) (length sc.flags) ≡ each_task (out sc past) (length sc.flags) }
{}

/// A law: after every legal history, the accepted charges add up to all ledgers and all that is due on live accounts.
#[tactic(auto, using(crate::proofs::sums::Ledgers::charges_are_kept))]
pub fn charges_are_kept()
    ensures { (sc : Scenario) (past : List Entry) → LegalPast sc past
        → accepted sc past ≡ each_task (ledger sc past) (length sc.flags) + dues sc past }
{}

/// A law: at every moment of every run, the assertions that all tasks hold add up to those that all tasks gave.
#[tactic(auto, using(crate::proofs::sums::RunSums::run_held_is_out))]
pub fn held_is_out_in_every_run()
    ensures { (sc : Scenario) (moves : List Move) (n : Machine) → run_from_start sc moves ≡ Some n
        → each_task (held sc n.past) (length sc.flags) ≡ each_task (out sc n.past) (length sc.flags) }
{}

/// A law: at every moment of every run, the accepted charges add up to all ledgers and all that is due on live accounts.
#[tactic(auto, using(crate::proofs::sums::RunSums::run_charges_are_kept))]
pub fn charges_are_kept_in_every_run()
    ensures { (sc : Scenario) (moves : List Move) (n : Machine) → run_from_start sc moves ≡ Some n
        → accepted sc n.past ≡ each_task (ledger sc n.past) (length sc.flags) + dues sc n.past }
{}

/// A law: every move of a run lowers what is left to do, so a run can't go on for ever: a claim begins anew only after a
/// reference was taken, and the references are bounded by the records and the messages.
pub fn every_move_lowers_what_is_left()
    ensures { (sc : Scenario) (moves : List Move) (move : Move) (m n : Machine)
        → run_from_start sc moves ≡ Some m → happens sc m move ≡ Some n → work_left sc n + 1 ≤ work_left sc m }
{}

/// A law: a run has no more moves than what was left at the start.
pub fn every_run_is_bounded()
    ensures { (sc : Scenario) (moves : List Move) (n : Machine)
        → run_from_start sc moves ≡ Some n → length moves + work_left sc n ≤ work_left sc (start sc) }
{}

/// A law: what is left at the start is bounded by the number of calls and of phases.
#[tactic(auto, using(crate::proofs::lines::LineSums::start_few))]
pub fn start_is_bounded()
    ensures { (sc : Scenario) → work_left sc (start sc) ≤ largest_call * line_count sc.phases + length sc.phases }
{}

/// A law: with a bound above what is left at the start, the schedule in turn ends with the last phase.
pub fn in_turn_ends()
    ensures { (sc : Scenario) (wants : ℕ → Bool) (bound : ℕ) (n : Machine) → IsLimited sc → work_left sc (start sc) < bound
        → run_from_start sc (in_turn bound wants sc (Some (start sc))) ≡ Some n → has_ended sc n ≡ true }
{}

/// A law: with such a bound, the schedule by seed ends with the last phase too.
pub fn by_seed_ends()
    ensures { (sc : Scenario) (wants : ℕ → Bool) (bound seed : ℕ) (n : Machine) → work_left sc (start sc) < bound
        → run_from_start sc (by_seed bound seed wants sc (Some (start sc))) ≡ Some n → has_ended sc n ≡ true }
{}

/// A law: what is next can happen, so the laws over runs are not empty. In every state that stands, the next event of a
/// task can happen, whether memory runs out in it or not, and until the last phase has ended some move can. An end of a
/// phase can happen where all tasks are at rest and a phase is left.
#[tactic(auto, using(crate::proofs::runs::Happening::next_happens, crate::proofs::runs::Happening::phase_ends, crate::proofs::runs::Happening::some_move))]
pub fn next_events_can_happen()
    ensures event_happens { (sc : Scenario) (want : Bool) (t : ℕ) (m : Machine) (kind : Kind) → Ties sc m
        → is_task sc t ≡ true → next_kind sc m t ≡ Some kind → is_some (event sc want m t) ≡ true }
    ensures phase_ends { (sc : Scenario) (m : Machine) → all_at_rest sc m ≡ true → has_ended sc m ≡ false
        → is_some (phase_event sc m) ≡ true }
    ensures some_move { (sc : Scenario) (m : Machine) → Ties sc m → has_ended sc m ≡ false
        → (move : Move) × (is_some (happens sc m move) ≡ true) }
{}

/// A law: from a state that stands, an event of any task leaves one that stands, and so does an end of a phase.
pub fn event_stands()
    ensures of_task { (sc : Scenario) (want : Bool) (t : ℕ) (m n : Machine) → Ties sc m
        → event sc want m t ≡ Some n → Ties sc n }
    ensures of_phase { (sc : Scenario) (m n : Machine) → Ties sc m → phase_event sc m ≡ Some n → Ties sc n }
{}

/// A law: every state of every run stands.
pub fn run_stands()
    ensures { (sc : Scenario) (moves : List Move) (n : Machine) → run_from_start sc moves ≡ Some n → Ties sc n }
{}

/// A law: the run in turn in which memory never runs out is one: a scenario has no two histories of it.
pub fn plain_run_is_one()
    ensures { (sc : Scenario) (first second : List Entry) → IsPlainRun sc first → IsPlainRun sc second
        → first ≡ second }
{}

/// A law: where the last phase has exits alone, and at least one of each task, all is given back at the end of every whole
/// history: no task has a name or a message, no value but Default is live, no assertion is held or given, and the ledgers
/// have all accepted charges.
pub fn all_is_given_back()
    ensures { (sc : Scenario) (history : List Entry) → EndsInExits sc → Whole history sc
        → AllGivenBack sc (reverse history) }
{}

/// A law: what a legal history tells in its report has a text: each entry is one that the version's text has, and each total
/// and count is in its range. A legal history may have made user data of numbers that are no bytes, or be too long: every run
/// has bytes alone, and fewer than 2^32 entries, so its report always has a text.
#[tactic(auto, using(crate::proofs::reports::RunReports::legal_reportable))]
pub fn legal_reports_are_well_formed()
    ensures legal { (sc : Scenario) (history : List Entry) → IsLimited sc → Legal history sc → length history < 2 ^ 32
        → AllByRecursion IsByteEntry history → IsReportable sc history }
    ensures run { (sc : Scenario) (moves : List Move) (n : Machine) → IsWritable sc → run_from_start sc moves ≡ Some n
        → IsReportable sc (reverse n.past) }
{}

/// A law: a call may be added while a scenario runs. While its last phase has not ended, a run of the scenario is one of the
/// scenario with one line more at the end of that phase, with the same states, and a legal history is one of it, with the same
/// store. The longer scenario is within the limits where the line is a call of one of its tasks and of its version, and there
/// is room for one more.
#[tactic(auto, using(crate::proofs::added::AddedRuns::run_added, crate::proofs::added::AddedRuns::legal_added, crate::proofs::added::AddedRuns::store_added))]
pub fn lines_are_added()
    ensures run { (sc : Scenario) (line : Line) (moves : List Move) (n : Machine) → run_from_start sc moves ≡ Some n
        → has_ended sc n ≡ false → run_from_start (with_added sc line) moves ≡ Some n }
    ensures legal { (sc : Scenario) (line : Line) (past : List Entry) → LegalPast sc past
        → phases_in past < length sc.phases → LegalPast (with_added sc line) past }
    ensures store { (sc : Scenario) (line : Line) (past : List Entry) → LegalPast sc past
        → phases_in past < length sc.phases → store_of (with_added sc line) past ≡ store_of sc past }
    ensures limited { (sc : Scenario) (line : Line) → IsLimited sc → IsIn sc.version (length sc.flags) line
        → line_count sc.phases < MOST_CALLS → IsLimited (with_added sc line) }
{}

/// A law: in every state of every run, the voucher that a frame forms is what was evaluated so far, by the names and the
/// messages that its task has in the store. Of a create it is what the records before its place make of the empty map, one
/// after the other, with the keys redeemed that are done where the record there redeems all keys; of a send or a recv, the
/// voucher that it began with, with the keys asked that are done. Where the frame has a receipt, its key is the one that is
/// asked at the place, and the value at its handle is what that manager answers there.
pub fn forming_is_what_was_evaluated()
    ensures { (sc : Scenario) (moves : List Move) (n : Machine) (t : ℕ) (f : Frame) (v : Handles) (call : Call)
        → run_from_start sc moves ≡ Some n → is_task sc t ≡ true → (tasked n t).frame ≡ Some f → f.forming ≡ Some v
        → current sc n t ≡ Some call → IsSoFar sc n t f v call f.receipt }
{}
