//! What the sequential store replies to a call that is answered as it begins, told by the parts of a core.
//!
//! The parts have indices, slots, live values with what is due on them, and ledgers; the store has values alone, and adds all
//! else up from the history. So each reply is one equation: what the store replies is what the parts tell. It holds wherever
//! the parts stand for the state, and so in every state of every run.
//!
//! **The invariant** is that of `vch_parts`. What is new is that an accepted change of an external count, and an accepted
//! charge, change one due or one ledger, and that all dues and ledgers are then what the history with its new entry adds up.
//!
//! **What protects it**: a reply is read, and its entry noted, in the one step in which the call begins.
//!
//! A core that answers a call of the ledger:
//!
//! ```rust
//! let amount = parts.values.ledger(task);      // at_task ledgers task 0
//! let reply = Reply::Ledger { amount };        // the store's, by `balances_are_told`
//! ```
#![tactic(auto)]

ghost use Rattle.std.specs.Prelude.{◌≡◌, ◌≢◌, ◌∷◌, ℕ, Bool, true, List, length, nat_lt, Some, Ok};
ghost use Rattle.vch_base.specs.declared.codes.TheConstants.{MIG_ARRAY_TOO_LARGE};
ghost use Rattle.vch_base.specs.declared.limits.TheConstants.{ARRAY_BYTES};
ghost use Rattle.vch_base.specs.declared.key.Key.TheVariants as keys;
ghost use Rattle.vch_base.specs.Managers.{live_at};
ghost use Rattle.vch_bank.specs.Bank.{ledger_of, payer_at};
ghost use Rattle.vch_bank.specs.declared.payer.Payer.{Payer};
ghost use Rattle.vch_bank.specs.declared.payer.Payer.TheVariants as payers;
ghost use Rattle.vch_importance.specs.Assertions.{held_by, out_from, counted_by};
ghost use Rattle.vch_model.specs.declared.call.Call.TheVariants as calls;
ghost use Rattle.vch_model.specs.declared.call.Word.{Word};
ghost use Rattle.vch_model.specs.declared.entry.Entry.TheVariants as entries;
ghost use Rattle.vch_model.specs.declared.entry.Reply.TheVariants as replies;
ghost use Rattle.vch_model.specs.declared.lists.Scenario.{Scenario};
ghost use Rattle.vch_model.specs.Lines.{is_task};
ghost use Rattle.vch_model.specs.Replies.{refused, extracted, recipes_of, given_up};
ghost use Rattle.vch_model.specs.Totals.{named_voucher};
ghost use Rattle.vch_machine.specs.Beginning.{store_reply};
ghost use Rattle.vch_machine.specs.Next.{nth_call};
ghost use Rattle.vch_machine.specs.State.{Machine, seen};
ghost use Rattle.vch_frame.specs.Indices.{index_of};
ghost use Rattle.vch_values.specs.Parts.{live_in};
ghost use Rattle.vch_vouchers.specs.Desks.{Voucher, different};
ghost use Rattle.vch_parts.specs.Plain.{Plain, part_of};
ghost use Rattle.vch_parts.specs.Reached.{IsState};
ghost use Rattle.vch_replies.specs.Begins.{Begins};
ghost use Rattle.vch_replies.specs.Known.{AreApart, all_vouchers};
ghost use Rattle.vch_replies.specs.Left.{AddsUp, recounted, paid};
ghost use Rattle.vch_replies.specs.Replied.{changed, extern_told, charge_told, send_told, recv_told, is_bare};
ghost use Rattle.vch_replies.specs.Told.{named_by, values_by, handle_in};

/// A law: in a state that a run reaches, and that the parts stand for, each task may call. All other laws start there.
pub fn tasks_call()
    ensures { (sc : Scenario) (c : Plain) (m : Machine) (t : ℕ) → IsState sc c m → is_task sc t ≡ true → Begins sc c m t }
{}

/// A law: a name has the same values in the parts and in the store. A name that is not there has none in either.
pub fn names_are_told()
    ensures { (sc : Scenario) (c : Plain) (m : Machine) (t name : ℕ) → Begins sc c m t
        → named_voucher (seen m) t name ≡ values_by c t name }
{}

/// A law: `ledger` tells what the bank has for the task, and `assertions` what the manager of importance sums over its live
/// lists.
pub fn balances_are_told()
    ensures ledger { (sc : Scenario) (c : Plain) (m : Machine) (t : ℕ) → Begins sc c m t
        → store_reply sc m t calls.Ledger ≡ replies.Ledger (ledger_of c.keyed.bank.kept.ledgers t) }
    ensures assertions { (sc : Scenario) (c : Plain) (m : Machine) (t : ℕ) → Begins sc c m t
        → store_reply sc m t calls.Assertions ≡ replies.Assertions (held_by c.keyed.importance.kept t) (out_from c.keyed.importance.kept t) }
{}

/// A law: `extract` and `recipes` tell of the values that the named voucher has in the parts.
pub fn values_are_told()
    ensures extract { (sc : Scenario) (c : Plain) (m : Machine) (t name key : ℕ) → Begins sc c m t
        → store_reply sc m t (calls.Extract name key) ≡ extracted sc.version key (values_by c t name) }
    ensures recipes { (sc : Scenario) (c : Plain) (m : Machine) (t name : ℕ) → Begins sc c m t
        → store_reply sc m t (calls.Recipes name) ≡ recipes_of t (values_by c t name) }
{}

/// A law: `live` tells how many different lists of indices names and messages have, where no two entries of a key have one
/// handle, and how many values all managers have.
pub fn live_is_told()
    ensures { (sc : Scenario) (c : Plain) (m : Machine) (t : ℕ) → Begins sc c m t → AreApart c.keyed
        → store_reply sc m t calls.Live ≡ replies.Live (different (all_vouchers c.tasks)) (live_in c.keyed) }
{}

/// A law: `extern` and `charge` are answered as the managers of importance and of the bank answer for the live value of the
/// named voucher.
pub fn counts_are_told()
    ensures count { (sc : Scenario) (c : Plain) (m : Machine) (t name n : ℕ) (adding : Bool) → Begins sc c m t
        → store_reply sc m t (calls.Extern name adding n) ≡ extern_told c.keyed t adding n (named_by c t name) }
    ensures charge { (sc : Scenario) (c : Plain) (m : Machine) (t name n : ℕ) → Begins sc c m t
        → store_reply sc m t (calls.Charge name n) ≡ charge_told c.keyed t (named_by c t name) }
{}

/// A law: a drop is answered by whether the name is there; a send by its task, its name and the queue; a receive of no
/// voucher by the first message.
pub fn messages_are_told()
    ensures drop_name { (sc : Scenario) (c : Plain) (m : Machine) (t name : ℕ) → Begins sc c m t
        → store_reply sc m t (calls.GiveUp name) ≡ given_up (values_by c t name) }
    ensures send { (sc : Scenario) (c : Plain) (m : Machine) (t to name id : ℕ) (moving : Bool) → Begins sc c m t
        → store_reply sc m t (calls.Send to moving name id) ≡ send_told sc c t to name }
    ensures recv { (sc : Scenario) (c : Plain) (m : Machine) (t : ℕ) → Begins sc c m t → is_bare (part_of c t).queue ≡ true
        → store_reply sc m t calls.Recv ≡ recv_told (part_of c t).queue }
{}

/// A law: a create of no bytes gives the name 0, and one of too many is refused, in every state.
pub fn no_records_are_told()
    ensures none { (sc : Scenario) (m : Machine) (t : ℕ) (bytes : List ℕ) → length bytes ≡ 0
        → store_reply sc m t (calls.Create bytes) ≡ replies.Created 0 }
    ensures many { (sc : Scenario) (m : Machine) (t : ℕ) (bytes : List ℕ) → nat_lt ARRAY_BYTES (length bytes) ≡ true
        → store_reply sc m t (calls.Create bytes) ≡ refused MIG_ARRAY_TOO_LARGE }
{}

/// A law: an accepted change of an external count, and an accepted charge, leave on each live value and in each ledger what
/// the history with the new entry adds up. `i` is the number of the call among those of its task, and `h` the handle of the
/// value that the named voucher has at the key.
pub fn entries_add_up()
    ensures count { (sc : Scenario) (c : Plain) (m : Machine) (t i name n due h : ℕ) (adding : Bool) (word : Word) (v : Voucher) → Begins sc c m t
        → nth_call sc t i ≡ Some (calls.Extern name adding n) → named_by c t name ≡ Some v → handle_in c.keyed.importance (index_of keys.Importance v) ≡ Some h
        → counted_by (changed adding) (live_at c.keyed.importance.kept.slots h) t n ≡ Ok due
        → AddsUp sc (entries.Call t i word replies.Done ∷ m.past) (recounted c.keyed h due) }
    ensures charge { (sc : Scenario) (c : Plain) (m : Machine) (t i name n h : ℕ) (word : Word) (v : Voucher) (payer : Payer) → Begins sc c m t
        → nth_call sc t i ≡ Some (calls.Charge name n) → named_by c t name ≡ Some v → handle_in c.keyed.bank (index_of keys.Bank v) ≡ Some h
        → payer_at c.keyed.bank.kept h t ≡ payer → payer ≢ payers.Nobody
        → AddsUp sc (entries.Call t i word replies.Done ∷ m.past) (paid c.keyed h t n payer) }
{}
