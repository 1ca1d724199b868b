//! What calls that move vouchers do to the parts of a core: create, drop, send, recv and exit, for every key and both versions.
//!
//! The laws stand on plain data: from parts that stand for a state of the event machine, each event of such a call leads to parts
//! that stand for the state after the machine's event. A caller shows that its own step leaves the parts that a law names.
//!
//! **The invariant** is `StandsFor` of `vch_parts`. Its counts are what these events are about: a handle is held by each frame that
//! forms a voucher with it or has to let it go, and by each different voucher of names and messages. So a voucher that goes from a
//! frame to a name takes its holder with it where it is new, and leaves it to be let go of where it was known:
//!
//! ```text
//! task 1                                   task 2
//! a name has the voucher: one holder
//!                                          Work: forms the same voucher, a second holder
//!                                          Place: known, so its handles are to be let go of
//! Drop: the name goes; task 2's has it still, so nothing is let go of
//!                                          LetGo: one holder again
//! ```
//!
//! **What protects it**: each event is one step with the parts at hand, and no law speaks of a task between two of its events.
//!
//! How a caller cites a law, once its step has left `after`:
//!
//! ```text
//! refusals_stand: StandsFor scenario (refused_call before task frame call code) (refuse state task twin call code)
//! ```
#![tactic(auto)]

ghost use Rattle.std.specs.Prelude.{◌≡◌, ℕ, ◌-◌, ◌<◌, ◌≤◌, ℤ, true, false, [], ◌∷◌, List, Option, Some, None, length};
ghost use Rattle.vch_base.specs.declared.key.Key.{Key};
ghost use Rattle.vch_base.specs.Keyed.{Keyed};
ghost use Rattle.vch_model.specs.declared.call.Call.{Call};
ghost use Rattle.vch_model.specs.declared.call.Call.TheVariants as calls;
ghost use Rattle.vch_model.specs.declared.entry.Reply.{Reply};
ghost use Rattle.vch_model.specs.declared.lists.Scenario.{Scenario};
ghost use Rattle.vch_machine.specs.State as machine;
ghost use Rattle.vch_machine.specs.State.{Handles, Machine, tasked, no_handles};
ghost use Rattle.vch_machine.specs.Beginning as begins;
ghost use Rattle.vch_machine.specs.Frames as frames;
ghost use Rattle.vch_machine.specs.Frames.{refuse};
ghost use Rattle.vch_machine.specs.Naming.{handles_of, is_known};
ghost use Rattle.vch_machine.specs.Next.{nth_call};
ghost use Rattle.vch_machine.specs.Placing.{place_create, place_send, place_recv};
ghost use Rattle.vch_machine.specs.Working.{do_gone, do_lost, do_left, changed_each};
ghost use Rattle.vch_frame.specs.Pairs.{Pairwise};
ghost use Rattle.vch_values.specs.Parts.{KeyParts};
ghost use Rattle.vch_vouchers.specs.declared.answers.Message.{Message};
ghost use Rattle.vch_parts.specs.declared.frame.Frame.{Frame};
ghost use Rattle.vch_parts.specs.Plain.{Indices, Plain, part_of};
ghost use Rattle.vch_parts.specs.Shape.{IsMap, IsMessage};
ghost use Rattle.vch_parts.specs.Stands.{StandsFor};
ghost use Rattle.vch_moves.specs.Desks.{AllApart};
ghost use Rattle.vch_moves.specs.Moments.{IsFree, IsAtWork, Forms, IsAnswered};
ghost use Rattle.vch_moves.specs.Shares.{SharesAll};
ghost use Rattle.vch_moves.specs.Steps.{refused_call, created, dropped, gone, lost, left, fresh_frame, exiting_frame, received, sent, copied, queued_first, taken_first, opened, answered_first, machine_begun};
ghost use Rattle.vch_moves.specs.Works.{Workspace, ChangesEach, Alters, formed, machine_formed};

/// A law: a call that is refused lets go of the voucher that it forms, and the parts still stand for the state.
pub fn refusals_stand()
    ensures { (sc : Scenario) (c : Plain) (m : Machine) (t : ℕ) (f : Frame) (g : machine.Frame) (call : Call) (code : ℤ)
        → IsAtWork sc c m t f g → 1 ≤ c.spare
        → StandsFor sc (refused_call c t f call code) (refuse m t g call code) }
{}

/// A law: the parts stand for the state as a call begins: a create with no key; an exit; a send or a recv that copies a voucher that
/// is known; a call that is answered at once; a recv that takes a message without a voucher; and a send that queues one.
pub fn beginnings_stand()
    ensures create { (sc : Scenario) (c : Plain) (m : Machine) (t : ℕ)
        → IsFree sc c m t
        → StandsFor sc (opened c t (fresh_frame [] [])) (frames.with_frame (machine_begun m t) t (Some (begins.fresh_frame no_handles []))) }
    ensures exit { (sc : Scenario) (c : Plain) (m : Machine) (t : ℕ)
        → IsFree sc c m t
        → StandsFor sc (opened c t exiting_frame) (frames.with_frame (machine_begun m t) t (Some begins.exiting_frame)) }
    ensures copy { (sc : Scenario) (c : Plain) (m : Machine) (t : ℕ) (keyed : Keyed KeyParts) (v : Indices) (w : Handles) (ks : List Key)
        → IsFree sc c m t
        → IsMap c.keyed v w → SharesAll c.keyed v keyed → is_known m w ≡ true
        → StandsFor sc (copied c t keyed v ks) (frames.with_frame (machine_begun m t) t (Some (begins.fresh_frame w ks))) }
    ensures answer { (sc : Scenario) (c : Plain) (m : Machine) (t : ℕ) (call : Call) (reply : Reply)
        → IsFree sc c m t → IsAnswered sc c m t call reply
        → StandsFor sc (answered_first c t call reply) (frames.replied (machine_begun m t) t call reply) }
    ensures taking { (sc : Scenario) (c : Plain) (m : Machine) (t : ℕ) (call : Call) (reply : Reply)
        (queue : List Message) (r : machine.Message) (rest : List machine.Message)
        → IsFree sc c m t → IsAnswered sc c m t call reply
        → (tasked m t).queue ≡ r ∷ rest → Pairwise (IsMessage c.keyed) queue rest → r.voucher ≡ None
        → StandsFor sc (taken_first c t queue call reply) (frames.replied (begins.dequeued (machine_begun m t) t (tasked (machine_begun m t) t).queue) t call reply) }
    ensures queueing { (sc : Scenario) (c : Plain) (m : Machine) (t : ℕ) (call : Call) (reply : Reply) (to id : ℕ)
        → IsFree sc c m t → IsAnswered sc c m t call reply
        → 0 < to → to - 1 < length c.tasks
        → StandsFor sc (queued_first c t to (record { sender = t; id = id; voucher = None }) call reply)
        (frames.replied (begins.enqueued (machine_begun m t) to (record { sender = t; id = id; voucher = None })) t call reply) }
{}

/// A law: so they do as a call places the voucher that it formed: a create and a recv give it a name of the task, and a send queues
/// it, with a name that moves or one that stays. What was known before is let go of once, so that equal vouchers count as one.
pub fn placings_stand()
    ensures create { (sc : Scenario) (c : Plain) (m : Machine) (t : ℕ) (f : Frame) (g : machine.Frame) (u : Indices) (w : Handles) (call : Call)
        → IsAtWork sc c m t f g → Forms c g u w → AllApart c.keyed → 1 ≤ c.spare
        → StandsFor sc (created c t f u call) (place_create m t g w call) }
    ensures moving { (sc : Scenario) (c : Plain) (m : Machine) (t : ℕ) (f : Frame) (g : machine.Frame) (u : Indices) (w : Handles) (to name id : ℕ)
        → IsAtWork sc c m t f g → Forms c g u w → AllApart c.keyed → 1 ≤ c.spare
        → 0 < to → to - 1 < length c.tasks → nth_call sc t (part_of c t).begun ≡ Some (calls.Send to true name id)
        → StandsFor sc (sent c t f to true name id u) (place_send m t g w (calls.Send to true name id) to true name id) }
    ensures staying { (sc : Scenario) (c : Plain) (m : Machine) (t : ℕ) (f : Frame) (g : machine.Frame) (u : Indices) (w : Handles) (to name id : ℕ)
        → IsAtWork sc c m t f g → Forms c g u w → AllApart c.keyed → 1 ≤ c.spare
        → 0 < to → to - 1 < length c.tasks → nth_call sc t (part_of c t).begun ≡ Some (calls.Send to false name id)
        → StandsFor sc (sent c t f to false name id u) (place_send m t g w (calls.Send to false name id) to false name id) }
    ensures recv { (sc : Scenario) (c : Plain) (m : Machine) (t : ℕ) (f : Frame) (g : machine.Frame) (u : Indices) (w : Handles)
        (q : Message) (queue : List Message) (r : machine.Message) (rest : List machine.Message)
        → IsAtWork sc c m t f g → Forms c g u w → AllApart c.keyed → 1 ≤ c.spare
        → (tasked m t).queue ≡ r ∷ rest → IsMessage c.keyed q r → Pairwise (IsMessage c.keyed) queue rest
        → StandsFor sc (received c t f u q queue) (place_recv m t g w calls.Recv (tasked m t).queue) }
{}

/// A law: so they do as a drop gives up a user reference, and as an exit gives up a name, then a message, and is answered when
/// nothing is left. The handles of a voucher are let go of with the last name or message that has it.
pub fn leavings_stand()
    ensures drop { (sc : Scenario) (c : Plain) (m : Machine) (t : ℕ) (call : Call) (reply : Reply) (name : ℕ)
        → IsFree sc c m t → IsAnswered sc c m t call reply → AllApart c.keyed
        → StandsFor sc (dropped c t call reply name) (begins.dropped (machine_begun m t) t call reply (handles_of (tasked (machine_begun m t) t).names name) name) }
    ensures name { (sc : Scenario) (c : Plain) (m : Machine) (t : ℕ) (f : Frame) (g : machine.Frame) (name : ℕ)
        → IsAtWork sc c m t f g → AllApart c.keyed → 1 ≤ c.spare
        → StandsFor sc (gone c t f name) (do_gone m t g name) }
    ensures message { (sc : Scenario) (c : Plain) (m : Machine) (t : ℕ) (f : Frame) (g : machine.Frame)
        (q : Message) (queue : List Message) (r : machine.Message) (rest : List machine.Message)
        → IsAtWork sc c m t f g → AllApart c.keyed → 1 ≤ c.spare
        → (tasked m t).queue ≡ r ∷ rest → IsMessage c.keyed q r → Pairwise (IsMessage c.keyed) queue rest
        → StandsFor sc (lost c t f q queue) (do_lost m t g r rest) }
    ensures task { (sc : Scenario) (c : Plain) (m : Machine) (t : ℕ) (f : Frame) (g : machine.Frame)
        → IsAtWork sc c m t f g → 1 ≤ c.spare
        → g.forming ≡ None → nth_call sc t (part_of c t).begun ≡ Some calls.Exit
        → StandsFor sc (left c t f) (do_left m t g) }
{}

/// A law: so they do as a call changes the voucher that it forms at some keys, each once: a key gets a handle that is held
/// already, or none, or stays as it is; what stood there is to be let go of.
pub fn formings_stand()
    ensures { (sc : Scenario) (c : Plain) (m : Machine) (t : ℕ) (f : Frame) (g : machine.Frame) (u : Indices) (w : Handles)
        (becomes : Indices → Key → Option (Option ℕ)) (to : Key → Option (Option ℕ)) (ks : List Key) (new : Workspace) (at : ℕ) (more : List Key)
        → IsAtWork sc c m t f g → Forms c g u w → Alters c m w becomes to ks
        → ChangesEach becomes ks (record { keyed = c.keyed; map = u; lets = [] }) new
        → StandsFor sc (formed c t f at more new) (machine_formed m t g at more (changed_each to ks (record { forming = w; left = [] }))) }
{}
