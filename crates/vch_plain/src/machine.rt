ghost use Rattle.std.specs.Prelude.{◌≡◌, ◌+◌, IfOk, OnOk, length};
ghost use Rattle.vch_machine.specs.Beginning as beginning;
ghost use Rattle.vch_machine.specs.Frames as frames;
ghost use Rattle.vch_machine.specs.Making as making;
ghost use Rattle.vch_machine.specs.Naming as naming;
ghost use Rattle.vch_machine.specs.State as machine;
ghost use Rattle.vch_plain.specs.Marks as marks;
ghost use Rattle.vch_plain.specs.Machines.{IsTaskOf, Receives, TakesMessage};

use crate::claims::{Mark, mark_tasks};
use crate::handles::{Handles, Place};
use crate::names::{name_of, one_less, one_more, without_name};
use crate::numbers::{after, after_large};
use crate::task::{Frame, Message, Named, Tasked};
use crate::values::{Living, Pools};
use crate::words::word_of;
use std::marker::Model;
use vch_base::NoMemory;
use vch_model::{Call, Entry, History, Reply};

/// How many claims were taken by a LetGo, references by a Refer, and questions asked by an Ask.
#[derive(Drop)]
pub struct Tally {
    pub claims: u64,
    pub refers: u64,
    pub asks: u64,
}

impl Model for Tally {
    ghost use Rattle.vch_machine.specs.State as machine;

    ghost Value = { machine.Tally };

    ghost view = { λ t. record { claims = t.claims; refers = t.refers; asks = t.asks } };
}

/// A message that was taken, and the name of the voucher that it gave.
#[derive(Drop)]
pub struct Received {
    pub message: Message,
    pub name: u32,
}

/// The whole state: the live values, the handles, the tasks 1, 2, 3 and so on, what happened so far with the oldest entry
/// first, and the tally.
#[derive(Drop)]
pub struct Machine {
    pub live: Vec<Living>,
    pub pools: Pools,
    pub tasks: Vec<Tasked>,
    pub history: History,
    pub tally: Tally,
}

impl Model for Machine {
    ghost use Rattle.std.specs.Prelude.{reverse};
    ghost use Rattle.vch_machine.specs.State as machine;

    ghost Value = { machine.Machine };

    ghost view = { λ m. record { live = m.live.items; pools = m.pools; tasks = m.tasks.items; past = reverse m.history.entries; tally = m.tally } };
}

impl Machine {
    /// A task by its number, from 1.
    pub fn task(&self, task: u32) -> &Tasked
        requires task { IsTaskOf self.now task }
        ensures { result.now ≡ machine.tasked self.now task }
    {
        &self.tasks[task as usize - 1]
    }

    /// How many entries the history has.
    pub fn entries(&self) -> usize
        ensures { result ≡ length self.now.past }
    {
        self.history.len()
    }

    /// Another frame of a task, or none.
    pub fn set_frame(&mut self, task: u32, frame: Option<Frame>)
        requires task { IsTaskOf self.old task }
        ensures state { self.new ≡ frames.with_frame self.old task frame }
        ensures tasks { length self.new.tasks ≡ length self.old.tasks }
    {
        let own = &mut self.tasks[task as usize - 1];
        own.frame = frame;
    }

    /// A task has begun one call more.
    pub fn begin(&mut self, task: u32) -> Result<(), NoMemory>
        requires task { IsTaskOf self.old task }
        ensures state { OnOk result (self.new ≡ machine.with_tasked self.old task (beginning.begun_one (machine.tasked self.old task))) }
        ensures tasks { OnOk result (length self.new.tasks ≡ length self.old.tasks) }
    {
        let own = &mut self.tasks[task as usize - 1];
        own.begun = after(own.begun)?;
        Ok(())
    }

    /// A name of a task has one user reference less.
    pub fn drop_name(&mut self, task: u32, name: u32)
        requires task { IsTaskOf self.old task }
        ensures state { self.new ≡ machine.with_tasked self.old task (record (machine.tasked self.old task) { names = naming.one_less (machine.tasked self.old task).names name }) }
        ensures tasks { length self.new.tasks ≡ length self.old.tasks }
    {
        let own = &mut self.tasks[task as usize - 1];
        one_less(&mut own.names, name);
    }

    /// A name of a task is gone, whatever its user references.
    pub fn forget_name(&mut self, task: u32, name: u32)
        requires task { IsTaskOf self.old task }
        ensures state { self.new ≡ machine.with_tasked self.old task (record (machine.tasked self.old task) { names = naming.without_name (machine.tasked self.old task).names name }) }
        ensures tasks { length self.new.tasks ≡ length self.old.tasks }
    {
        let own = &mut self.tasks[task as usize - 1];
        without_name(&mut own.names, name);
    }

    /// A task gets a name for a voucher, and this is the name.
    pub fn give_name(&mut self, task: u32, voucher: &Handles) -> Result<u32, NoMemory>
        requires task { IsTaskOf self.old task }
        ensures name { IfOk result (λ name. name ≡ naming.name_for (machine.tasked self.old task) (naming.name_of (machine.tasked self.old task).names voucher.now)) }
        ensures state { OnOk result (self.new ≡ machine.with_tasked self.old task (naming.with_name (machine.tasked self.old task) voucher.now (naming.name_of (machine.tasked self.old task).names voucher.now))) }
        ensures tasks { OnOk result (length self.new.tasks ≡ length self.old.tasks) }
    {
        let own = &mut self.tasks[task as usize - 1];
        named(own, voucher)
    }

    /// Takes the first message of a task's queue, where there is one.
    pub fn take_message(&mut self, task: u32) -> Option<Message>
        requires task { IsTaskOf self.old task }
        ensures state { TakesMessage self.old task result self.new }
        ensures tasks { length self.new.tasks ≡ length self.old.tasks }
    {
        let own = &mut self.tasks[task as usize - 1];
        if own.queue.is_empty() {
            return None;
        }
        Some(own.queue.remove(0))
    }

    /// Takes the first message of a task's queue, where there is one, and gives the task a name for a voucher.
    pub fn receive(&mut self, task: u32, voucher: &Handles) -> Result<Option<Received>, NoMemory>
        requires task { IsTaskOf self.old task }
        ensures state { IfOk result (λ received. Receives self.old task voucher.now received self.new) }
        ensures tasks { OnOk result (length self.new.tasks ≡ length self.old.tasks) }
    {
        let own = &mut self.tasks[task as usize - 1];
        if own.queue.is_empty() {
            return Ok(None);
        }
        let message = own.queue.remove(0);
        let name = named(own, voucher)?;
        Ok(Some(Received { message, name }))
    }

    /// Queues a message for a task.
    pub fn enqueue(&mut self, to: u32, message: Message) -> Result<(), NoMemory>
        requires task { IsTaskOf self.old to }
        ensures state { OnOk result (self.new ≡ beginning.enqueued self.old to message) }
        ensures tasks { OnOk result (length self.new.tasks ≡ length self.old.tasks) }
    {
        let own = &mut self.tasks[to as usize - 1];
        own.queue.push(message)?;
        Ok(())
    }

    /// An entry is appended to the history.
    pub fn note(&mut self, entry: Entry) -> Result<(), NoMemory>
        ensures state { OnOk result (self.new ≡ frames.noted self.old entry) }
        ensures tasks { OnOk result (length self.new.tasks ≡ length self.old.tasks) }
    {
        self.history.reserve(1)?;
        self.history.push(entry);
        Ok(())
    }

    /// A call of a task is answered.
    pub fn reply(&mut self, task: u32, call: &Call, reply: Reply) -> Result<(), NoMemory>
        requires task { IsTaskOf self.old task }
        ensures state { OnOk result (self.new ≡ frames.replied self.old task call.now reply) }
        ensures tasks { OnOk result (length self.new.tasks ≡ length self.old.tasks) }
    {
        let number = self.task(task).begun;
        self.note(Entry::Call {
            task,
            number,
            word: word_of(call),
            reply,
        })
    }

    /// Marks the claims of all tasks on a place.
    pub fn mark(&mut self, mark: Mark, place: &Place)
        ensures state { self.new ≡ making.on_claims (marks.marked mark place.now) self.old }
        ensures tasks { length self.new.tasks ≡ length self.old.tasks }
    {
        mark_tasks(&mut self.tasks, mark, place);
    }

    /// One claim more was taken.
    pub fn count_claim(&mut self) -> Result<(), NoMemory>
        ensures state { OnOk result (self.new ≡ record self.old { tally = record self.old.tally { claims = self.old.tally.claims + 1 } }) }
        ensures tasks { OnOk result (length self.new.tasks ≡ length self.old.tasks) }
    {
        let tally = &mut self.tally;
        tally.claims = after_large(tally.claims)?;
        Ok(())
    }

    /// One reference more was taken.
    pub fn count_refer(&mut self) -> Result<(), NoMemory>
        ensures state { OnOk result (self.new ≡ record self.old { tally = record self.old.tally { refers = self.old.tally.refers + 1 } }) }
        ensures tasks { OnOk result (length self.new.tasks ≡ length self.old.tasks) }
    {
        let tally = &mut self.tally;
        tally.refers = after_large(tally.refers)?;
        Ok(())
    }

    /// One question more was asked.
    pub fn count_ask(&mut self) -> Result<(), NoMemory>
        ensures state { OnOk result (self.new ≡ record self.old { tally = record self.old.tally { asks = self.old.tally.asks + 1 } }) }
        ensures tasks { OnOk result (length self.new.tasks ≡ length self.old.tasks) }
    {
        let tally = &mut self.tally;
        tally.asks = after_large(tally.asks)?;
        Ok(())
    }
}

/// A task gets a name for a voucher, or one user reference more of the name that it has for it.
fn named(own: &mut Tasked, voucher: &Handles) -> Result<u32, NoMemory>
    ensures name { IfOk result (λ name. name ≡ naming.name_for own.old (naming.name_of own.old.names voucher.now)) }
    ensures task { OnOk result (own.new ≡ naming.with_name own.old voucher.now (naming.name_of own.old.names voucher.now)) }
{
    if let Some(name) = name_of(own.names.as_slice(), voucher) {
        one_more(&mut own.names, name)?;
        return Ok(name);
    }
    let name = own.next;
    own.names.push(Named {
        name,
        voucher: *voucher,
        refs: 1,
    })?;
    own.next = after(name)?;
    Ok(name)
}
