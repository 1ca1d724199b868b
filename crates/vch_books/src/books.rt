ghost use Rattle.std.specs.Prelude.{◌≡◌, ◌+◌, ◌<◌, ◌↔◌, ℕ, List, Option, Some, true, not, length, slice_get, is_some, IsTrue, IfOk, IfSome, MatchOption};
ghost use Rattle.std.specs.Option.{option_copied};
ghost use Rattle.vch_base.specs.Keys.{number_of};
ghost use Rattle.vch_base.specs.declared.value.Value.TheVariants as values;
ghost use Rattle.vch_model.specs.Legal.{EachTask, IsUnheld, find_made, all_held};
ghost use Rattle.vch_model.specs.Lines.{is_task, calls_in, phases_in, lines_of, lines_until, current_call};
ghost use Rattle.vch_model.specs.Replies.{all_vouchers, different};
ghost use Rattle.vch_model.specs.Scenarios.{IsLimited};
ghost use Rattle.vch_model.specs.Store as store;
ghost use Rattle.vch_model.specs.Store.{member, is_empty, is_live, gives_name};
ghost use Rattle.vch_base.specs.declared.key.Key.TheVariants as keys;
ghost use Rattle.vch_model.specs.Totals.{named_voucher, external, ledger, held, out};
ghost use Rattle.vch_model.specs.After.{taken_first};
ghost use Rattle.vch_books.specs.Audits.{IsSound, IsGood, IsGoodOption, IsLeft, IsUncalled, store_at, past_at, meant, first_of};
ghost use Rattle.vch_books.specs.Numbered.{StandsAt, numbered_value, option_voucher, option_message};

use crate::Numbers;
use crate::holding::first_unheld;
use crate::live::Live;
use crate::made::value_at;
use crate::rows::Message;
use crate::tasks::Tasks;
use crate::turns::{Uncalled, all_begun, call_now, first_short};
use std::alloc::Global;
use std::marker::Model;
use vch_base::{Key, NoMemory, Value};
use vch_model::{Call, Entry, History, Scenario};
use vch_script::{Places, places_of};
use vch_sums::Sums;

/// How many messages the queue of a task may have.
fn limit_of(scenario: &Scenario, task: u32) -> usize
    requires task { is_task scenario.now task ≡ true }
    requires limited { IsLimited scenario.now }
    ensures { result ≡ store.limit_of scenario.now task }
{
    *scenario.queues.at(task as usize - 1) as usize
}

/// The store of the entries of a history that were taken so far. It is moved with every entry, so its large parts are boxed.
#[derive(Drop)]
pub struct Books<'a> {
    pub(crate) scenario: &'a Scenario,
    pub(crate) taken: usize,
    pub(crate) tasks: Tasks,
    pub(crate) live: Box<Live<'a>>,
    pub(crate) phases: u32,
    pub(crate) places: Places,
    pub(crate) sums: Box<Sums>,
}

impl<'a> Model for Books<'a> {
    ghost use Rattle.vch_books.specs.Audits.{Audit};
    ghost use Rattle.vch_books.specs.Kept.{Keeps};

    ghost Value = { Audit };

    ghost view = { λ b. record { scenario = b.scenario.now; history = b.live.value.history; taken = b.taken } };

    ghost invariant = { λ b. Keeps (record { scenario = b.scenario.now; history = b.live.value.history; taken = b.taken }) (record { tasks = b.tasks; live = b.live.value.numbers; phases = b.phases; places = b.places; sums = b.sums.value }) };
}

impl<'a> Books<'a> {
    /// The books before the first entry. The one error is out of memory.
    pub fn open(
        alloc: Global,
        scenario: &'a Scenario,
        history: &'a History,
    ) -> Result<Books<'a>, NoMemory>
        requires limited { IsLimited scenario.now }
        requires short { length history.now.entries < 4294967296 }
        ensures { IfOk result (λ made. made ≡ record { scenario = scenario.now; history = history.now.entries; taken = 0 }) }
    {
        let live = Live::new(alloc, history);
        let live = Box::new(alloc, live)?;
        let places = places_of(alloc, scenario)?;
        let rows = Sums::start(alloc, scenario)?;
        let sums = Box::new(alloc, rows)?;
        let tasks = Tasks::nobody(alloc, scenario.flags.len())?;
        Ok(Books {
            scenario,
            taken: 0,
            tasks,
            live,
            phases: 0,
            places,
            sums,
        })
    }

    /// What was taken is legal.
    pub fn know(&self)
        ensures { IsSound self.now }
    {
        let _ = &self.taken;
    }

    /// The scenario.
    pub fn scenario(&self) -> &'a Scenario
        ensures { result.now ≡ self.now.scenario }
    {
        self.scenario
    }

    /// How many entries were taken.
    pub fn taken(&self) -> usize
        ensures { result ≡ self.now.taken }
    {
        self.taken
    }

    /// The next entry, or nothing at the end.
    pub fn next(&self) -> Option<&'a Entry>
        ensures { option_copied result ≡ slice_get self.now.history self.now.taken }
    {
        let history = self.live.history();
        if self.taken < history.len() {
            return Some(history.at(self.taken));
        }
        None
    }

    /// The voucher of a task's name, or nothing where the task has no such name.
    pub fn named(&self, task: u32, name: u32) -> Option<Numbers>
        ensures voucher { option_voucher self.now.history result ≡ named_voucher (store_at self.now) task name }
        ensures good { IsGoodOption self.now result }
    {
        self.tasks.voucher_at(task, name)
    }

    /// The first message of a task's queue, or nothing where it has none.
    pub fn first_message(&self, task: u32) -> Option<Message>
        ensures message { option_message self.now.history result ≡ first_of (member (store_at self.now) task).queue }
        ensures good { IfSome result (λ q. IsGoodOption self.now q.voucher) }
    {
        self.tasks.first_at(task)
    }

    /// Whether the queue of a task has as many messages as it may have.
    pub fn is_full(&self, task: u32) -> bool
        requires { is_task self.now.scenario task ≡ true }
        ensures { result ≡ store.is_full self.now.scenario (store_at self.now) task }
    {
        self.tasks.messages_at(task) >= limit_of(self.scenario, task)
    }

    /// The lowest name of a task, or nothing where it has none.
    pub fn lowest_name(&self, task: u32) -> Option<u32>
        ensures { result ≡ store.lowest (member (store_at self.now) task).names }
    {
        self.tasks.lowest_at(task)
    }

    /// Whether a task has a name.
    pub fn has_name(&self, task: u32) -> bool
        ensures { result ≡ not (is_empty (member (store_at self.now) task).names) }
    {
        self.tasks.has_name_at(task)
    }

    /// Whether a task has a message.
    pub fn has_message(&self, task: u32) -> bool
        ensures { result ≡ not (is_empty (member (store_at self.now) task).queue) }
    {
        self.tasks.messages_at(task) > 0
    }

    /// The name that a voucher has at a task, or gets where it is given to it; also where it is given with the task's first
    /// message.
    pub fn name_for(&self, task: u32, voucher: &Numbers) -> u32
        requires task { is_task self.now.scenario task ≡ true }
        requires good { IsGood self.now voucher.now }
        ensures given { result ≡ gives_name (store_at self.now) task (meant self.now voucher.now) }
        ensures received { (queue : List store.Message) → result ≡ gives_name (taken_first (store_at self.now) task queue) task (meant self.now voucher.now) }
    {
        self.tasks.name_for_at(task, voucher)
    }

    /// The number of a value at a key, or nothing where it is not live there; 0 of Default.
    pub fn find(&self, key: Key, value: &Value) -> Option<u32>
        ensures live { is_some result ≡ is_live (store_at self.now) (number_of key) value.now }
        ensures value { IfSome result (λ e. numbered_value self.now.history e ≡ value.now) }
        ensures stands { StandsAt self.now.history (store_at self.now).live key result }
    {
        if value.is_default() {
            return Some(0);
        }
        self.live.find(key.number(), value)
    }

    /// The value of a number, or nothing where that is Default.
    pub fn value(&self, number: u32) -> Option<&'a Value>
        ensures { MatchOption result (numbered_value self.now.history number ≡ values.Default) (λ x. numbered_value self.now.history number ≡ x.now) }
    {
        value_at(self.live.history(), number)
    }

    /// Whether the value of a Made entry is live and not held.
    pub fn is_unheld(&self, made: u32) -> bool
        ensures { IsTrue result ↔ IsUnheld (store_at self.now) (find_made (store_at self.now).live made) }
    {
        self.live.has(made) && !self.tasks.hold(made)
    }

    /// Whether each live value is held.
    pub fn all_held(&self) -> bool
        ensures { result ≡ all_held (store_at self.now) }
    {
        self.tasks.values() == self.live.len()
    }

    /// The lowest Made entry of a live value that is not held, or nothing where each is.
    pub fn first_left(&self) -> Option<u32>
        ensures { MatchOption result (all_held (store_at self.now) ≡ true) (λ e. IsLeft (store_at self.now) e) }
    {
        first_unheld(&self.live, &self.tasks)
    }

    /// How many calls of a task were taken.
    pub fn calls(&self, task: u32) -> u32
        ensures { result ≡ calls_in (past_at self.now) task }
    {
        self.tasks.begun_at(task)
    }

    /// How many ends of phases were taken.
    pub fn phases(&self) -> u32
        ensures { result ≡ phases_in (past_at self.now) }
    {
        self.phases
    }

    /// The call of a task that is to be answered next in the current phase, or nothing where there is none.
    pub fn current(&self, task: u32) -> Option<&'a Call>
        ensures call { option_copied result ≡ current_call self.now.scenario (past_at self.now) task }
        ensures task { IfSome result (λ _. is_task self.now.scenario task ≡ true) }
    {
        let begun = self.tasks.begun_at(task);
        call_now(self.scenario, &self.places, task, begun, self.phases)
    }

    /// Whether each call of the current phase was answered.
    pub fn phase_is_done(&self) -> bool
        ensures { IsTrue result ↔ EachTask (length self.now.scenario.flags) (λ t. calls_in (past_at self.now) t ≡ lines_until self.now.scenario (phases_in (past_at self.now) + 1) t) }
    {
        all_begun(self.scenario, &self.places, &self.tasks, self.phases)
    }

    /// The first line without its Call, of the lowest task that has one, or nothing where each line has its Call.
    pub fn first_uncalled(&self) -> Option<Uncalled>
        ensures { MatchOption result (EachTask (length self.now.scenario.flags) (λ t. calls_in (past_at self.now) t ≡ length (lines_of self.now.scenario t))) (λ u. IsUncalled self.now u.task u.number) }
    {
        first_short(&self.places, &self.tasks)
    }

    /// How many different vouchers names and messages have.
    pub fn vouchers(&self) -> u64
        ensures { result ≡ different (all_vouchers (store_at self.now).tasks) }
    {
        self.tasks.vouchers() as u64
    }

    /// How many values are live, with Default.
    pub fn values(&self) -> u64
        ensures { result ≡ 1 + length (store_at self.now).live }
    {
        self.live.len() as u64 + 1
    }

    /// The external count of the list with this number.
    pub fn external(&self, number: u32) -> u64
        requires { StandsAt self.now.history (store_at self.now).live keys.Importance (Some number) }
        ensures { (list : List ℕ) → numbered_value self.now.history number ≡ values.Chain list → result ≡ external self.now.scenario (past_at self.now) (values.Chain list) }
    {
        self.sums.amount(number)
    }

    /// What was credited to a task.
    pub fn ledger(&self, task: u32) -> u64
        requires { is_task self.now.scenario task ≡ true }
        ensures { result ≡ ledger self.now.scenario (past_at self.now) task }
    {
        self.sums.ledger(task)
    }

    /// The assertions that a task holds.
    pub fn held(&self, task: u32) -> u64
        requires { is_task self.now.scenario task ≡ true }
        ensures { result ≡ held self.now.scenario (past_at self.now) task }
    {
        self.sums.held(task)
    }

    /// The assertions that are out from a task.
    pub fn out(&self, task: u32) -> u64
        requires { is_task self.now.scenario task ≡ true }
        ensures { result ≡ out self.now.scenario (past_at self.now) task }
    {
        self.sums.out(task)
    }
}
