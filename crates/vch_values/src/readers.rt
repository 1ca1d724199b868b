ghost use Rattle.std.specs.Prelude.{◌≡◌, ◌≢◌, ◌<◌, ◌+◌, ◌^◌, ◌++◌, ◌↔◌, ◌≤◌, ℕ, Some, IfErr, IfOk, IsErr, IsSome, OnErr, OnOk, length, slice_set};
ghost use Rattle.vch_base.specs.declared.codes.TheConstants.{KERN_INVALID_ARGUMENT};
ghost use Rattle.vch_base.specs.declared.key.Key.TheVariants as keys;
ghost use Rattle.vch_base.specs.declared.value.Value.TheVariants as values;
ghost use Rattle.vch_base.specs.Keyed.{of_key, with_key};
ghost use Rattle.vch_base.specs.Managers.{content_at, due_at, live_at, value_at};
ghost use Rattle.vch_entry.specs.Entries.{entry_at, handle_at};
ghost use Rattle.vch_importance.specs.Assertions.{Counts, counted_by, fewer, held_by, more, out_from};
ghost use Rattle.vch_bank.specs.Bank.{charged, ledger_of, payer_at, total_of};
ghost use Rattle.vch_bank.specs.declared.payer.Payer.TheVariants as payers;
ghost use Rattle.vch_values.specs.Parts.{HasBytes, asked_in, live_in, number_at};

use crate::Values;
use vch_base::{AttrManager, Chain, Code, Key, NoMemory, Value};

impl Values {
    /// The handle of the entry at an index of a key. Constant time.
    pub fn handle(&self, key: Key, index: u32) -> u32
        requires { IsSome (entry_at (of_key key self.now).entries.slots index) }
        ensures { handle_at (of_key key self.now).entries.slots index ≡ Some result }
    {
        match key {
            Key::Importance => self.importance_entries.handle(index),
            Key::Bank => self.bank_entries.handle(index),
            Key::User => self.user_entries.handle(index),
            Key::Test => self.test_entries.handle(index),
        }
    }

    /// How many handles of a key were ever used: the next new value gets one of them, or the one behind them. Constant time.
    pub fn handles(&self, key: Key) -> usize
        ensures { result ≡ length (of_key key self.now).kept.slots }
    {
        match key {
            Key::Importance => self.importance.handles(),
            Key::Bank => self.bank.handles(),
            Key::User => self.user.handles(),
            Key::Test => self.test.handles(),
        }
    }

    /// The number of the Made entry at a handle of a key, or 0, which is no entry's. Constant time.
    pub fn number(&self, key: Key, handle: u32) -> u32
        ensures { result ≡ number_at (of_key key self.now).numbers handle }
    {
        self.made.number(key, handle)
    }

    /// Makes room for the number at a handle of a key. Handles that rise one by one take constant time each on the average.
    ///
    /// # Errors
    ///
    /// Out of memory alone, which leaves all as it was.
    pub fn reserve_number(&mut self, key: Key, handle: u32) -> Result<(), NoMemory>
        ensures room { OnOk result (handle < length (of_key key self.new).numbers) }
        ensures same { (h : ℕ) → number_at (of_key key self.new).numbers h ≡ number_at (of_key key self.old).numbers h }
        ensures others { self.new ≡ with_key key (of_key key self.new) self.old }
        ensures entries { (of_key key self.new).entries ≡ (of_key key self.old).entries }
        ensures kept { (of_key key self.new).kept ≡ (of_key key self.old).kept }
        ensures refused { OnErr result (self.new ≡ self.old) }
    {
        self.made.reserve(key, handle)
    }

    /// Writes the number at a handle of a key for which there is room. Constant time.
    pub fn set_number(&mut self, key: Key, handle: u32, number: u32)
        requires { handle < length (of_key key self.old).numbers }
        ensures sets { (of_key key self.new).numbers ≡ slice_set (of_key key self.old).numbers handle number }
        ensures others { self.new ≡ with_key key (of_key key self.new) self.old }
        ensures entries { (of_key key self.new).entries ≡ (of_key key self.old).entries }
        ensures kept { (of_key key self.new).kept ≡ (of_key key self.old).kept }
    {
        self.made.set(key, handle, number);
    }

    /// Appends the content of a value as a task sees it, as [`AttrManager::extract`] does.
    ///
    /// # Errors
    ///
    /// Out of memory alone, which leaves `out` as it was.
    pub fn extract(&self, key: Key, handle: u32, out: &mut Vec<u8>) -> Result<(), NoMemory>
        requires { IsSome (live_at (of_key key self.now).kept.slots handle) }
        ensures done { OnOk result (out.new.items ≡ out.old.items ++ content_at (of_key key self.now).kept.slots handle) }
        ensures refused { OnErr result (out.new.items ≡ out.old.items) }
    {
        match key {
            Key::Importance => self.importance.extract(handle, out),
            Key::Bank => self.bank.extract(handle, out),
            Key::User => self.user.extract(handle, out),
            Key::Test => self.test.extract(handle, out),
        }
    }

    /// A content as a value of user data or of tests. The one error is out of memory.
    pub fn user_value(&self, content: &[u8]) -> Result<Value, NoMemory>
        ensures { IfOk result (λ made. made ≡ values.User content.now) }
    {
        self.user.value(content)
    }

    /// The bytes of a value of user data or of tests, without a copy. Constant time.
    pub fn bytes(&self, key: Key, handle: u32) -> &[u8]
        requires key { HasBytes key }
        requires live { IsSome (live_at (of_key key self.now).kept.slots handle) }
        ensures { value_at (of_key key self.now).kept.slots handle ≡ Some (values.User result.now) }
    {
        match key {
            Key::User => self.user.bytes(handle),
            Key::Test => self.test.bytes(handle),
            Key::Importance | Key::Bank => unreachable!(),
        }
    }

    /// The list at a handle of importance. Constant time.
    pub fn chain(&self, handle: u32) -> &Chain
        requires { IsSome (live_at self.now.importance.kept.slots handle) }
        ensures { value_at self.now.importance.kept.slots handle ≡ Some (values.Chain result.now) }
    {
        self.importance.chain(handle)
    }

    /// The value at a handle of the bank. Constant time.
    pub fn bank_value(&self, handle: u32) -> Value
        requires { IsSome (live_at self.now.bank.kept.slots handle) }
        ensures { value_at self.now.bank.kept.slots handle ≡ Some result }
    {
        self.bank.value(handle)
    }

    /// The external count of a list of importance. Constant time.
    pub fn external(&self, handle: u32) -> u128
        requires { IsSome (live_at self.now.importance.kept.slots handle) }
        ensures count { result ≡ due_at self.now.importance.kept.slots handle }
        ensures small { result ≤ 4294967295 }
    {
        self.importance.external(handle)
    }

    /// What is due on an account of the bank; 0 for every other value, and where no value is live. Constant time.
    pub fn due(&self, handle: u32) -> u128
        ensures { result ≡ due_at self.now.bank.kept.slots handle }
    {
        self.bank.due(handle)
    }

    /// Adds to the external count of a list for the task that ends it, as [`ImportanceManager::extern_add`] does. Constant time; it
    /// takes no memory.
    ///
    /// [`ImportanceManager::extern_add`]: vch_importance::ImportanceManager::extern_add
    ///
    /// # Errors
    ///
    /// Code 4 where the list has one task alone, or another task ends it; code 5 where the count would pass 4294967295. Nothing changes.
    pub fn extern_add(&mut self, handle: u32, by: u32, n: u32) -> Result<(), Code>
        requires { IsSome (live_at self.old.importance.kept.slots handle) }
        ensures counts { Counts self.old.importance.kept handle (counted_by more (live_at self.old.importance.kept.slots handle) by n) result self.new.importance.kept }
        ensures others { self.new ≡ record self.old { importance = self.new.importance } }
        ensures entries { self.new.importance.entries ≡ self.old.importance.entries }
        ensures rules { self.new.importance.kept.rules ≡ self.old.importance.kept.rules }
        ensures numbers { self.new.importance.numbers ≡ self.old.importance.numbers }
    {
        self.importance.extern_add(handle, by, n)
    }

    /// Takes from the external count of a list for the task that ends it. Constant time; it takes no memory.
    ///
    /// # Errors
    ///
    /// Code 4 where the list has one task alone, or another task ends it; code 5 where the count is below `n`. Nothing changes.
    pub fn extern_drop(&mut self, handle: u32, by: u32, n: u32) -> Result<(), Code>
        requires { IsSome (live_at self.old.importance.kept.slots handle) }
        ensures counts { Counts self.old.importance.kept handle (counted_by fewer (live_at self.old.importance.kept.slots handle) by n) result self.new.importance.kept }
        ensures others { self.new ≡ record self.old { importance = self.new.importance } }
        ensures entries { self.new.importance.entries ≡ self.old.importance.entries }
        ensures rules { self.new.importance.kept.rules ≡ self.old.importance.kept.rules }
        ensures numbers { self.new.importance.numbers ≡ self.old.importance.numbers }
    {
        self.importance.extern_drop(handle, by, n)
    }

    /// A charge of `n` by a task on the value at a handle of the bank, as [`BankManager::charge`] makes it. Constant time; it takes
    /// no memory.
    ///
    /// [`BankManager::charge`]: vch_bank::BankManager::charge
    ///
    /// # Errors
    ///
    /// Code 4 where the value is neither the task's own nor an account of another task with it; nothing changes.
    pub fn charge(&mut self, handle: u32, by: u32, n: u32) -> Result<(), Code>
        requires there { IsSome (live_at self.old.bank.kept.slots handle) }
        requires room { total_of self.old.bank.kept + n < 2 ^ 128 }
        ensures refused { IsErr result ↔ (payer_at self.old.bank.kept handle by ≡ payers.Nobody) }
        ensures code { IfErr result (λ code. code.number ≡ KERN_INVALID_ARGUMENT) }
        ensures leaves { self.new.bank.kept ≡ charged self.old.bank.kept handle by n (payer_at self.old.bank.kept handle by) }
        ensures others { self.new ≡ record self.old { bank = self.new.bank } }
        ensures entries { self.new.bank.entries ≡ self.old.bank.entries }
        ensures rules { self.new.bank.kept.rules ≡ self.old.bank.kept.rules }
        ensures numbers { self.new.bank.numbers ≡ self.old.bank.numbers }
    {
        self.bank.charge(handle, by, n)
    }

    /// How many assertions of importance a task holds; 0 of an unknown task. Constant time.
    pub fn held(&self, task: u32) -> u128
        ensures { result ≡ held_by self.now.importance.kept task }
    {
        self.importance.held(task)
    }

    /// How many assertions of importance are out from a task; 0 of an unknown task. Constant time.
    pub fn out(&self, task: u32) -> u128
        ensures { result ≡ out_from self.now.importance.kept task }
    {
        self.importance.out(task)
    }

    /// The ledger of a task, or 0 where the task is unknown. Constant time.
    pub fn ledger(&self, task: u32) -> u128
        ensures { result ≡ ledger_of self.now.bank.kept.ledgers task }
    {
        self.bank.ledger(task)
    }

    /// All that was charged: the sum of all ledgers and of all that is due. Constant time.
    pub fn total(&self) -> u128
        ensures { result ≡ total_of self.now.bank.kept }
    {
        self.bank.total()
    }

    /// How many releases the managers of all keys were asked for. Constant time.
    pub fn asked(&self) -> u64
        requires { asked_in self.now < 2 ^ 64 }
        ensures { result ≡ asked_in self.now }
    {
        self.importance.asked() + self.bank.asked() + self.user.asked() + self.test.asked()
    }

    /// How many values are live at all keys; Default is one of them. Constant time.
    pub fn live(&self) -> u64
        requires { live_in self.now < 2 ^ 64 }
        ensures { result ≡ live_in self.now }
    {
        self.importance.live() + self.bank.live() + self.user.live() + self.test.live()
    }
}
