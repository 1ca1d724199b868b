ghost use Rattle.std.specs.Prelude.{◌≡◌, ◌≢◌, ◌≤◌, ◌<◌, ◌+◌, ◌^◌, ◌↔◌, ℕ, ◌++◌, ◌∷◌, List, Option, Some, None, IfOk, IfSome, IsSome, IsTrue, OnErr, OnOk, not, is_some, length, max, slice_set};
ghost use Rattle.vch_base.specs.declared.key.Key.{Key};
ghost use Rattle.vch_base.specs.declared.value.Value.{Value};
ghost use Rattle.vch_base.specs.declared.value.Value.TheVariants as values;
ghost use Rattle.vch_base.specs.Keyed.{of_key, with_key};
ghost use Rattle.vch_base.specs.Managers.{Kept, Knows, Lawful, MadeBelow, answer, previous_of, live_at, value_at, made_at, count, after_release};
ghost use Rattle.vch_entry.specs.Entries as entry;
ghost use Rattle.vch_entry.specs.Entries.{Refers, AreBelow, IsApart, handle_at, entry_at, Writes, more_refs, refs_of, releasing_of};
ghost use Rattle.vch_value.specs.Picture.{Picture, Claimed, Depicts, with_claims, with_answer, referred_picture, let_go_picture, got_picture, again, takes_claim, takes_again, shared_picture};
ghost use Rattle.vch_value.specs.Calls.{LetsGo, Rechecks, IsFor, IsAnswered, Makes, got_of, previous_handle};
ghost use Rattle.vch_value.specs.Flight.{Receipt};
ghost use Rattle.vch_importance.specs.Assertions.{AllListed};
ghost use Rattle.vch_bank.specs.Bank.{AllBooked, total_of};
ghost use Rattle.vch_values.specs.Parts.{IsNew, flags_of, rules_at, tasks_at};

use crate::made::MadeNumbers;
use std::alloc::Global;
use std::marker::Model;
use vch_bank::BankManager;
use vch_base::{AttrManager, Flags, GetFault, Key, NoMemory};
use vch_entry::EntryTable;
use vch_importance::ImportanceManager;
use vch_user::UserManager;
use vch_value::{Asked, Claim, Made, Receipt, ask, let_go, make, recheck, refer, share};

/// The values of all managed keys: for each key its manager, the entries of its values, and the numbers of their Made entries.
///
/// It is seen as a table by key, with a record `KeyParts` of `specs/Parts.antt` at each. An event at a key does what the
/// function of `vch_value` of its name does with the entries and the manager of this key, and leaves all other keys as they
/// were.
#[derive(Drop)]
pub struct Values {
    pub(crate) importance: ImportanceManager,
    pub(crate) importance_entries: EntryTable,
    pub(crate) bank: BankManager,
    pub(crate) bank_entries: EntryTable,
    pub(crate) user: UserManager,
    pub(crate) user_entries: EntryTable,
    pub(crate) test: UserManager,
    pub(crate) test_entries: EntryTable,
    pub(crate) made: MadeNumbers,
}

impl Model for Values {
    ghost use Rattle.vch_base.specs.Keyed.{Keyed};
    ghost use Rattle.vch_values.specs.Parts.{AreRuled, KeyParts};

    ghost Value = { Keyed KeyParts };

    ghost view = { λ v. record {
      importance = record { entries = v.importance_entries; kept = v.importance; numbers = v.made.importance };
      bank = record { entries = v.bank_entries; kept = v.bank; numbers = v.made.bank };
      user = record { entries = v.user_entries; kept = v.user; numbers = v.made.user };
      test = record { entries = v.test_entries; kept = v.test; numbers = v.made.test };
    } };

    ghost invariant = { λ v. AreRuled (record { importance = v.importance.rules; bank = v.bank.rules; user = v.user.rules; test = v.test.rules }) };
}

impl Values {
    /// The start of all keys, for the tasks 1, 2, 3 and so on with these flags: no entry and no number, and each manager as new.
    /// The bank's has Default, at handle 0, and a ledger of 0 for each task; the others have no value. The time is linear in the
    /// number of tasks.
    ///
    /// # Errors
    ///
    /// Out of memory alone.
    pub fn new(alloc: Global, flags: &[Flags]) -> Result<Values, NoMemory>
        requires { length flags.now < 2 ^ 32 }
        ensures { IfOk result (λ made. (k : Key) → IsNew k flags.now (of_key k made)) }
    {
        let importance = ImportanceManager::new(alloc, flags)?;
        let bank = BankManager::new(alloc, flags.len() as u32)?;
        Ok(Values {
            importance,
            importance_entries: EntryTable::new(alloc),
            bank,
            bank_entries: EntryTable::new(alloc),
            user: UserManager::new(alloc),
            user_entries: EntryTable::new(alloc),
            test: UserManager::new(alloc),
            test_entries: EntryTable::new(alloc),
            made: MadeNumbers::new(alloc),
        })
    }

    /// Make: the manager of the key carries out a command for the task `by`, and the caller gets a receipt for the value.
    ///
    /// `flying` is how many receipts of this key are in flight; `previous` is the index of the entry of the previous value.
    /// The places for these receipts and the new one are made first, so that [`Values::refer`] needs no memory. The time is
    /// that of one command of the manager.
    ///
    /// # Errors
    ///
    /// The manager's refusal, or out of memory. Nothing changes then but the number of places.
    pub fn make(
        &mut self,
        key: Key,
        flying: usize,
        by: u32,
        command: u32,
        previous: Option<u32>,
        content: &[u8],
    ) -> Result<Made, GetFault>
        requires flying { flying ≤ 64 }
        requires known { Knows (of_key key self.old).kept.rules by }
        requires there { IfSome previous (λ i. IsSome (entry_at (of_key key self.old).entries.slots i)) }
        requires live { IfSome (previous_handle (of_key key self.old).entries.slots previous) (λ h. IsSome (live_at (of_key key self.old).kept.slots h)) }
        requires handles { length (of_key key self.old).kept.slots < 4294967295 }
        requires counts { MadeBelow (2 ^ 63) (of_key key self.old).kept.slots }
        ensures call { Makes (of_key key self.old).kept (answer (of_key key self.old).kept.rules by command (previous_of (of_key key self.old).kept.slots (previous_handle (of_key key self.old).entries.slots previous)) content.now) result (of_key key self.new).kept }
        ensures entries { ((of_key key self.new).entries.slots ≡ (of_key key self.old).entries.slots) × ((of_key key self.old).entries.spare ≤ (of_key key self.new).entries.spare) }
        ensures room { OnOk result (flying + 1 ≤ (of_key key self.new).entries.spare) }
        ensures spare { OnOk result ((of_key key self.new).entries.spare ≡ max (of_key key self.old).entries.spare (flying + 1)) }
        ensures least { (of_key key self.new).entries.spare ≤ max (of_key key self.old).entries.spare (flying + 1) }
        ensures stands { (p : Picture) → length p.receipts ≡ flying
            → Depicts p (of_key key self.old).entries (of_key key self.old).kept
            → Depicts (got_picture (got_of result) p) (of_key key self.new).entries (of_key key self.new).kept }
        ensures others { self.new ≡ with_key key (of_key key self.new) self.old }
        ensures rules { (of_key key self.new).kept.rules ≡ (of_key key self.old).kept.rules }
        ensures numbers { (of_key key self.new).numbers ≡ (of_key key self.old).numbers }
    {
        match key {
            Key::Importance => make(
                &mut self.importance_entries,
                &mut self.importance,
                flying,
                by,
                command,
                previous,
                content,
            ),
            Key::Bank => make(
                &mut self.bank_entries,
                &mut self.bank,
                flying,
                by,
                command,
                previous,
                content,
            ),
            Key::User => make(
                &mut self.user_entries,
                &mut self.user,
                flying,
                by,
                command,
                previous,
                content,
            ),
            Key::Test => make(
                &mut self.test_entries,
                &mut self.test,
                flying,
                by,
                command,
                previous,
                content,
            ),
        }
    }

    /// Refer: a receipt of the key becomes a holder, and the index of its entry is returned.
    ///
    /// It takes no memory, since [`Values::make`] made the place. The time is that of one look-up, and of one insertion where
    /// there is a new entry.
    pub fn refer(&mut self, key: Key, receipt: Receipt) -> u32
        requires room { 1 ≤ (of_key key self.old).entries.spare }
        requires counts { (i : ℕ) → handle_at (of_key key self.old).entries.slots i ≡ Some receipt.handle
            → AreBelow (2 ^ 63) (entry_at (of_key key self.old).entries.slots i) }
        ensures call { Refers (of_key key self.old).entries receipt.handle receipt.persist result (of_key key self.new).entries }
        ensures stands { (p : Picture) (kept : Kept) (before after : List Receipt)
            → p.receipts ≡ before ++ receipt ∷ after
            → Depicts p (of_key key self.old).entries kept
            → Depicts (referred_picture receipt.handle (before ++ after) p) (of_key key self.new).entries kept }
        ensures others { self.new ≡ with_key key (of_key key self.new) self.old }
        ensures kept { (of_key key self.new).kept ≡ (of_key key self.old).kept }
        ensures numbers { (of_key key self.new).numbers ≡ (of_key key self.old).numbers }
    {
        match key {
            Key::Importance => refer(&mut self.importance_entries, receipt),
            Key::Bank => refer(&mut self.bank_entries, receipt),
            Key::User => refer(&mut self.user_entries, receipt),
            Key::Test => refer(&mut self.test_entries, receipt),
        }
    }

    /// LetGo: a holder at the key goes. With the last one the entry is claimed, unless it is persistent or claimed already, and
    /// the caller gets the claim: it has to ask about it at the same key. It takes constant time and no memory.
    pub fn let_go(&mut self, key: Key, index: u32) -> Option<Claim>
        requires there { IsSome (entry_at (of_key key self.old).entries.slots index) }
        requires counts { 1 ≤ refs_of (entry_at (of_key key self.old).entries.slots index) }
        ensures call { LetsGo (of_key key self.old).entries index result (of_key key self.new).entries }
        ensures stands { (p : Picture) (kept : Kept) (h : ℕ) (before after : List ℕ)
            → handle_at (of_key key self.old).entries.slots index ≡ Some h → p.holders ≡ before ++ h ∷ after
            → Depicts p (of_key key self.old).entries kept
            → Depicts (let_go_picture h result (before ++ after) p) (of_key key self.new).entries kept }
        ensures row { (p : Picture) (kept : Kept) (h : ℕ) (before after : List ℕ)
            → handle_at (of_key key self.old).entries.slots index ≡ Some h → p.holders ≡ before ++ h ∷ after
            → Depicts p (of_key key self.old).entries kept → is_some result ≡ takes_claim h (before ++ after) p kept }
        ensures others { self.new ≡ with_key key (of_key key self.new) self.old }
        ensures kept { (of_key key self.new).kept ≡ (of_key key self.old).kept }
        ensures numbers { (of_key key self.new).numbers ≡ (of_key key self.old).numbers }
    {
        match key {
            Key::Importance => let_go(&mut self.importance_entries, index),
            Key::Bank => let_go(&mut self.bank_entries, index),
            Key::User => let_go(&mut self.user_entries, index),
            Key::Test => let_go(&mut self.test_entries, index),
        }
    }

    /// Ask: the manager of the key is asked about a claim that was taken at this key. It agrees exactly where nothing was made
    /// since the claim was taken.
    ///
    /// One release of the manager, of the claim's `sync`. It takes no memory. An agreed handle may have a value again before
    /// [`Values::recheck`].
    pub fn ask(&mut self, key: Key, claim: Claim) -> Asked
        requires there { IsSome (entry_at (of_key key self.old).entries.slots claim.index) }
        requires live { IfSome (handle_at (of_key key self.old).entries.slots claim.index) (λ h. IsSome (live_at (of_key key self.old).kept.slots h)) }
        requires other { IfSome (handle_at (of_key key self.old).entries.slots claim.index) (λ h. value_at (of_key key self.old).kept.slots h ≢ Some values.Default) }
        requires room { (of_key key self.old).kept.asked < 2 ^ 63 }
        ensures claim { (result.index ≡ claim.index) × (result.sync ≡ claim.sync) }
        ensures agrees { IfSome (handle_at (of_key key self.old).entries.slots claim.index) (λ h. IsTrue result.agreed ↔ (made_at (of_key key self.old).kept.slots h ≡ claim.sync)) }
        ensures leaves { IfSome (handle_at (of_key key self.old).entries.slots claim.index) (λ h. (of_key key self.new).kept ≡ after_release (of_key key self.old).kept h result.agreed) }
        ensures stands { (p : Picture) (c : Claimed) (before after : List Claimed)
            → p.claims ≡ before ++ c ∷ after → IsFor (of_key key self.old).entries claim c → c.answered ≡ None
            → Depicts p (of_key key self.old).entries (of_key key self.old).kept
            → Depicts (with_claims p (before ++ with_answer result.agreed c ∷ after)) (of_key key self.old).entries (of_key key self.new).kept }
        ensures row { (p : Picture) (c : Claimed) (before after : List Claimed) → p.claims ≡ before ++ c ∷ after
            → IsFor (of_key key self.old).entries claim c → c.answered ≡ None
            → Depicts p (of_key key self.old).entries (of_key key self.old).kept → result.agreed ≡ not c.raced }
        ensures others { self.new ≡ with_key key (of_key key self.new) self.old }
        ensures entries { (of_key key self.new).entries ≡ (of_key key self.old).entries }
        ensures rules { (of_key key self.new).kept.rules ≡ (of_key key self.old).kept.rules }
        ensures numbers { (of_key key self.new).numbers ≡ (of_key key self.old).numbers }
    {
        match key {
            Key::Importance => ask(&self.importance_entries, &mut self.importance, claim),
            Key::Bank => ask(&self.bank_entries, &mut self.bank, claim),
            Key::User => ask(&self.user_entries, &mut self.user, claim),
            Key::Test => ask(&self.test_entries, &mut self.test, claim),
        }
    }

    /// Recheck: an answer of the key's manager is looked at. Where a reference came meanwhile and went again, the entry is
    /// claimed again. It takes constant time and no memory.
    pub fn recheck(&mut self, key: Key, asked: Asked) -> Option<Claim>
        requires releasing { IsTrue (releasing_of (entry_at (of_key key self.old).entries.slots asked.index)) }
        requires within { asked.sync ≤ entry.made_of (entry_at (of_key key self.old).entries.slots asked.index) }
        ensures call { Rechecks (of_key key self.old).entries asked result (of_key key self.new).entries }
        ensures stands { (p : Picture) (kept : Kept) (c : Claimed) (before after : List Claimed)
            → p.claims ≡ before ++ c ∷ after → IsAnswered (of_key key self.old).entries asked c
            → Depicts p (of_key key self.old).entries kept
            → Depicts (with_claims p (before ++ again c.handle result p.receipts after)) (of_key key self.new).entries kept }
        ensures row { (p : Picture) (kept : Kept) (c : Claimed) (before after : List Claimed)
            → p.claims ≡ before ++ c ∷ after → IsAnswered (of_key key self.old).entries asked c
            → Depicts p (of_key key self.old).entries kept → is_some result ≡ takes_again c p }
        ensures others { self.new ≡ with_key key (of_key key self.new) self.old }
        ensures kept { (of_key key self.new).kept ≡ (of_key key self.old).kept }
        ensures numbers { (of_key key self.new).numbers ≡ (of_key key self.old).numbers }
    {
        match key {
            Key::Importance => recheck(&mut self.importance_entries, asked),
            Key::Bank => recheck(&mut self.bank_entries, asked),
            Key::User => recheck(&mut self.user_entries, asked),
            Key::Test => recheck(&mut self.test_entries, asked),
        }
    }

    /// One more holder at the key of a handle that has one: a reference by index, without the manager. It takes constant time
    /// and no memory.
    pub fn share(&mut self, key: Key, index: u32)
        requires there { IsSome (entry_at (of_key key self.old).entries.slots index) }
        requires counts { refs_of (entry_at (of_key key self.old).entries.slots index) < 2 ^ 63 }
        ensures call { IfSome (entry_at (of_key key self.old).entries.slots index) (λ e. Writes (of_key key self.old).entries.slots (of_key key self.new).entries.slots index (Some (more_refs e))) }
        ensures spare { (of_key key self.new).entries.spare ≡ (of_key key self.old).entries.spare }
        ensures stands { (p : Picture) (kept : Kept) (h : ℕ) → handle_at (of_key key self.old).entries.slots index ≡ Some h
            → 0 < count h p.holders → Depicts p (of_key key self.old).entries kept
            → Depicts (shared_picture h p) (of_key key self.new).entries kept }
        ensures others { self.new ≡ with_key key (of_key key self.new) self.old }
        ensures kept { (of_key key self.new).kept ≡ (of_key key self.old).kept }
        ensures numbers { (of_key key self.new).numbers ≡ (of_key key self.old).numbers }
    {
        match key {
            Key::Importance => share(&mut self.importance_entries, index),
            Key::Bank => share(&mut self.bank_entries, index),
            Key::User => share(&mut self.user_entries, index),
            Key::Test => share(&mut self.test_entries, index),
        }
    }

    /// What is true of each key at every moment: the manager's laws; no two entries have one handle; and the manager answers as
    /// the key's, for the same tasks as all others. It does nothing.
    pub fn know(&self)
        ensures lawful { (k : Key) → Lawful (of_key k self.now).kept }
        ensures apart { (k : Key) → IsApart (of_key k self.now).entries.slots }
        ensures rules { (k : Key) → (of_key k self.now).kept.rules ≡ rules_at k (flags_of self.now) }
        ensures answers { (k : Key) (by command : ℕ) (previous : Option Value) (content : List ℕ)
            → answer (of_key k self.now).kept.rules by command previous content
            ≡ answer (record { row = k; tasks = tasks_at k (flags_of self.now) }) by command previous content }
    {
        let _ = &self.made;
        self.know_managers();
        self.know_entries();
    }

    fn know_managers(&self)
        ensures { (k : Key) → Lawful (of_key k self.now).kept }
    {
        self.importance.know();
        self.bank.know();
        self.user.know();
        self.test.know();
    }

    fn know_entries(&self)
        ensures { (k : Key) → IsApart (of_key k self.now).entries.slots }
    {
        self.importance_entries.know();
        self.bank_entries.know();
        self.user_entries.know();
        self.test_entries.know();
    }

    /// The manager of importance knows the tasks; each of its live values is a list of one to eight tasks, whose first and last
    /// are known, with an external count of at most 4294967295. It does nothing.
    pub fn know_lists(&self)
        ensures tasks { self.now.importance.kept.rules.tasks ≡ Some (flags_of self.now) }
        ensures listed { AllListed (Some (flags_of self.now)) self.now.importance.kept.slots }
    {
        self.importance.know_lists();
    }

    /// The bank has a ledger for each task; each of its live values names tasks that have a ledger, and only on accounts something
    /// is due; and all that was charged is below 2 to the 128. It does nothing.
    pub fn know_books(&self)
        ensures ledgers { length self.now.bank.kept.ledgers ≡ length (flags_of self.now) }
        ensures booked { AllBooked (length self.now.bank.kept.ledgers) self.now.bank.kept.slots }
        ensures small { total_of self.now.bank.kept < 2 ^ 128 }
    {
        self.bank.know_books();
    }
}
