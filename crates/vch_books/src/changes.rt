ghost use Rattle.std.specs.Prelude.{◌≡◌, true, Some, IfOk};
ghost use Rattle.vch_base.specs.declared.key.Key.TheVariants as keys;
ghost use Rattle.vch_model.specs.Totals.{named_voucher};
ghost use Rattle.vch_model.specs.Voucher.{value_in};
ghost use Rattle.vch_model.specs.declared.call.Call.TheVariants as calls;
ghost use Rattle.vch_model.specs.declared.entry.Entry.TheVariants as entries;
ghost use Rattle.vch_model.specs.Lines.{is_task};
ghost use Rattle.vch_model.specs.Store as store;
ghost use Rattle.vch_model.specs.Store.{member, is_empty};
ghost use Rattle.vch_model.specs.After as after;
ghost use Rattle.vch_books.specs.Audits.{IsGood, IsGoodOption, IsNext, Leaves, Accepts, store_at, meant, advanced, rest_of};
ghost use Rattle.vch_books.specs.Numbered.{StandsAt, message_of, numbered_value};

use crate::Numbers;
use crate::books::Books;
use crate::rows::Message;
use vch_base::{NoMemory, Value};

impl<'a> Books<'a> {
    /// The next entry is a call of a task that changes neither the store nor a sum. It takes no memory.
    pub fn pass(mut self, task: u32) -> Books<'a>
        requires next { Leaves self task (store_at self) }
        ensures { result ≡ advanced self.entry }
    {
        self.tasks.begin_at(task);
        self.taken += 1;
        self
    }

    /// The next entry is an accepted change of the external count of the list with this number, which a name's voucher has.
    pub fn counted(
        mut self,
        task: u32,
        name: u32,
        number: u32,
        adding: bool,
        n: u32,
    ) -> Result<Books<'a>, NoMemory>
        requires next { Accepts self task (calls.Extern name adding n) }
        requires named { value_in keys.Importance (named_voucher (store_at self) task name) ≡ Some (numbered_value self.history number) }
        requires good { StandsAt self.history (store_at self).live keys.Importance (Some number) }
        ensures { IfOk result (λ made. made ≡ advanced self.entry) }
    {
        self.sums.counted(number, adding, n)?;
        self.tasks.begin_at(task);
        self.taken += 1;
        Ok(self)
    }

    /// The next entry is an accepted charge on the bank value with this number, which a name's voucher has.
    pub fn charged(
        mut self,
        task: u32,
        name: u32,
        number: u32,
        n: u32,
    ) -> Result<Books<'a>, NoMemory>
        requires next { Accepts self task (calls.Charge name n) }
        requires named { value_in keys.Bank (named_voucher (store_at self) task name) ≡ Some (numbered_value self.history number) }
        requires good { StandsAt self.history (store_at self).live keys.Bank (Some number) }
        ensures { IfOk result (λ made. made ≡ advanced self.entry) }
    {
        self.sums.charged(number, task, n)?;
        self.tasks.begin_at(task);
        self.taken += 1;
        Ok(self)
    }

    /// The next entry is a call of a task that gives it a voucher.
    pub fn give(mut self, task: u32, voucher: Numbers) -> Result<Books<'a>, NoMemory>
        requires good { IsGood self voucher }
        requires next { Leaves self task (store.given (store_at self) task (meant self voucher)) }
        ensures { IfOk result (λ made. made ≡ advanced self.entry) }
    {
        self.tasks = self.tasks.give_at(task, voucher)?;
        self.tasks.begin_at(task);
        self.taken += 1;
        Ok(self)
    }

    /// The next entry is a call of a task that takes a user reference from one of its names. It takes no memory.
    pub fn let_go(mut self, task: u32, name: u32) -> Books<'a>
        requires next { Leaves self task (after.let_go (store_at self) task name) }
        ensures { result ≡ advanced self.entry }
    {
        self.tasks.let_go_at(task, name);
        self.tasks.begin_at(task);
        self.taken += 1;
        self
    }

    /// The next entry is a call of a task that appends a message to the queue of another.
    pub fn send(mut self, task: u32, to: u32, message: Message) -> Result<Books<'a>, NoMemory>
        requires to { is_task self.scenario to ≡ true }
        requires good { IsGoodOption self message.voucher }
        requires next { Leaves self task (after.appended (store_at self) to (message_of self.history message)) }
        ensures { IfOk result (λ made. made ≡ advanced self.entry) }
    {
        self.tasks = self.tasks.append_at(to, message)?;
        self.tasks.begin_at(task);
        self.taken += 1;
        Ok(self)
    }

    /// The same, and the sender's name loses a user reference.
    pub fn send_moved(
        mut self,
        task: u32,
        to: u32,
        message: Message,
        name: u32,
    ) -> Result<Books<'a>, NoMemory>
        requires to { is_task self.scenario to ≡ true }
        requires good { IsGoodOption self message.voucher }
        requires next { Leaves self task (after.let_go (after.appended (store_at self) to (message_of self.history message)) task name) }
        ensures { IfOk result (λ made. made ≡ advanced self.entry) }
    {
        self.tasks = self.tasks.append_at(to, message)?;
        self.tasks.let_go_at(task, name);
        self.tasks.begin_at(task);
        self.taken += 1;
        Ok(self)
    }

    /// The next entry is a call of a task that takes its first message, which has no voucher. It takes no memory.
    pub fn receive(mut self, task: u32) -> Books<'a>
        requires next { Leaves self task (after.taken_first (store_at self) task (rest_of (member (store_at self) task).queue)) }
        ensures { result ≡ advanced self.entry }
    {
        self.tasks.take_first_at(task);
        self.tasks.begin_at(task);
        self.taken += 1;
        self
    }

    /// The next entry is a call of a task that takes its first message, and gives the task a voucher.
    pub fn receive_voucher(mut self, task: u32, voucher: Numbers) -> Result<Books<'a>, NoMemory>
        requires good { IsGood self voucher }
        requires next { Leaves self task (store.given (after.taken_first (store_at self) task (rest_of (member (store_at self) task).queue)) task (meant self voucher)) }
        ensures { IfOk result (λ made. made ≡ advanced self.entry) }
    {
        self.tasks.take_first_at(task);
        self.tasks = self.tasks.give_at(task, voucher)?;
        self.tasks.begin_at(task);
        self.taken += 1;
        Ok(self)
    }

    /// The next entry gives up a name. It takes no memory.
    pub fn gone(mut self, task: u32, name: u32) -> Books<'a>
        requires next { IsNext self (entries.Gone task name) }
        ensures { result ≡ advanced self.entry }
    {
        self.tasks.give_up_at(task, name);
        self.taken += 1;
        self
    }

    /// The next entry gives up a message. It takes no memory.
    pub fn lost(mut self, task: u32) -> Books<'a>
        requires next { IsNext self (entries.Lost task) }
        ensures { result ≡ advanced self.entry }
    {
        self.tasks.take_first_at(task);
        self.taken += 1;
        self
    }

    /// The next entry makes a value.
    pub fn made(mut self, key: u32, value: &Value) -> Result<Books<'a>, NoMemory>
        requires next { IsNext self (entries.Made key value.now) }
        ensures { IfOk result (λ made. made ≡ advanced self.entry) }
    {
        let scenario = self.scenario;
        let number = self.taken as u32 + 1;
        self.live.push(number)?;
        self.sums.made(scenario, number, value)?;
        self.taken += 1;
        Ok(self)
    }

    /// The next entry releases the value of a Made entry.
    pub fn released(mut self, made: u32) -> Result<Books<'a>, NoMemory>
        requires next { IsNext self (entries.Released made) }
        ensures { IfOk result (λ made. made ≡ advanced self.entry) }
    {
        self.live.remove(made);
        self.sums.released(made)?;
        self.taken += 1;
        Ok(self)
    }

    /// The next entry ends a phase. It takes no memory.
    pub fn phase(mut self) -> Books<'a>
        requires next { IsNext self entries.Phase }
        ensures { result ≡ advanced self.entry }
    {
        self.phases += 1;
        self.taken += 1;
        self
    }
}
