ghost use Rattle.std.specs.Prelude.{◌≡◌, ◌≤◌, ◌<◌, ◌+◌, ◌++◌, ◌∷◌, [], length, not, nat_eq, replicate, IfOk, MatchOption};
ghost use Rattle.vch_base.specs.Tasks.{at_task, set_task};
ghost use Rattle.vch_model.specs.Store.{is_empty};
ghost use Rattle.vch_books.specs.Audits.{first_of, rest_of};
ghost use Rattle.vch_books.specs.Counts.{different_by};
ghost use Rattle.vch_books.specs.Desks as desks;
ghost use Rattle.vch_books.specs.Desks.{empty_desk, numbers_at, name_with, given};
ghost use Rattle.vch_books.specs.Holding.{all_numbers, different_numbers, held_numbers, is_one};

use crate::Numbers;
use crate::holders::Holders;
use crate::member::Member;
use crate::rows::Message;
use std::alloc::Global;
use std::marker::Model;
use vch_base::NoMemory;

/// What each task has, and the counts of who holds what.
#[derive(Drop)]
pub struct Tasks {
    members: Vec<Member>,
    holders: Box<Holders>,
}

impl Model for Tasks {
    ghost use Rattle.std.specs.Prelude.{List};
    ghost use Rattle.vch_books.specs.Desks.{Desk};
    ghost use Rattle.vch_books.specs.Holding.{AreHeld, all_numbers};

    ghost Value = { List Desk };

    ghost view = { λ t. t.members.items };

    ghost invariant = { λ t. AreHeld t.holders.value (all_numbers t.members.items) };
}

/// So many tasks without a name and a message.
fn nobody(alloc: Global, count: usize) -> Result<Vec<Member>, NoMemory>
    ensures { IfOk result (λ made. made.items ≡ replicate count empty_desk) }
{
    let mut members = Vec::new(alloc);
    for _i in 0..count {
        members.push(Member::new(alloc))?;
    }
    Ok(members)
}

impl Tasks {
    /// So many tasks without a name and a message. The one error is out of memory.
    pub fn nobody(alloc: Global, count: usize) -> Result<Tasks, NoMemory>
        ensures { IfOk result (λ made. made ≡ replicate count empty_desk) }
    {
        let members = nobody(alloc, count)?;
        let holders = Box::new(alloc, Holders::new(alloc))?;
        Ok(Tasks { members, holders })
    }

    /// How many tasks there are.
    pub fn len(&self) -> usize
        ensures { result ≡ length self.now }
    {
        self.members.len()
    }

    /// Whether a task has the number of a value other than Default. Expected constant time.
    pub fn hold(&self, number: u32) -> bool
        ensures { result ≡ is_one (held_numbers self.now) number }
    {
        self.holders.hold(number)
    }

    /// How many values other than Default tasks have. Constant time.
    pub fn values(&self) -> usize
        ensures { result ≡ different_by nat_eq (held_numbers self.now) }
    {
        self.holders.values()
    }

    /// How many different vouchers tasks have. Constant time.
    pub fn vouchers(&self) -> usize
        ensures { result ≡ different_numbers (all_numbers self.now) }
    {
        self.holders.vouchers()
    }

    /// What a task has, or nothing where there is no such task.
    fn member_at(&self, task: u32) -> Option<&Member>
        ensures { MatchOption result (at_task self.now task empty_desk ≡ empty_desk) (λ m. at_task self.now task empty_desk ≡ m.now) }
    {
        if task == 0 {
            return None;
        }
        self.members.get(task as usize - 1)
    }

    /// The voucher of a task's name.
    pub fn voucher_at(&self, task: u32, name: u32) -> Option<Numbers>
        ensures { result ≡ numbers_at (at_task self.now task empty_desk).names name }
    {
        self.member_at(task)?.voucher_of(name)
    }

    /// The lowest name of a task.
    pub fn lowest_at(&self, task: u32) -> Option<u32>
        ensures { result ≡ desks.lowest (at_task self.now task empty_desk).names }
    {
        self.member_at(task)?.lowest()
    }

    /// The first message of a task.
    pub fn first_at(&self, task: u32) -> Option<Message>
        ensures { result ≡ first_of (at_task self.now task empty_desk).queue }
    {
        self.member_at(task)?.first()
    }

    /// Whether a task has a name.
    pub fn has_name_at(&self, task: u32) -> bool
        ensures { result ≡ not (is_empty (at_task self.now task empty_desk).names) }
    {
        match self.member_at(task) {
            Some(member) => member.has_name(),
            None => false,
        }
    }

    /// How many messages a task has.
    pub fn messages_at(&self, task: u32) -> usize
        ensures { result ≡ length (at_task self.now task empty_desk).queue }
    {
        match self.member_at(task) {
            Some(member) => member.messages(),
            None => 0,
        }
    }

    /// How many calls of a task were taken.
    pub fn begun_at(&self, task: u32) -> u32
        ensures { result ≡ (at_task self.now task empty_desk).begun }
    {
        match self.member_at(task) {
            Some(member) => member.begun(),
            None => 0,
        }
    }

    /// The name that a voucher has at a task, or gets.
    pub fn name_for_at(&self, task: u32, voucher: &Numbers) -> u32
        requires { (1 ≤ task) × (task ≤ length self.now) }
        ensures { result ≡ desks.name_for (at_task self.now task empty_desk) (name_with (at_task self.now task empty_desk).names voucher.now) }
    {
        self.members[task as usize - 1].name_for(voucher)
    }

    /// One more call of a task was taken.
    pub fn begin_at(&mut self, task: u32)
        requires task { (1 ≤ task) × (task ≤ length self.old) }
        requires few { (at_task self.old task empty_desk).begun < 4294967295 }
        ensures { self.new ≡ set_task self.old task (record (at_task self.old task empty_desk) { begun = (at_task self.old task empty_desk).begun + 1 }) }
    {
        self.members[task as usize - 1].begin();
    }

    /// A voucher is given to a task. The one error is out of memory.
    pub fn give_at(mut self, task: u32, voucher: Numbers) -> Result<Tasks, NoMemory>
        requires { (1 ≤ task) × (task ≤ length self) }
        ensures { IfOk result (λ made. made ≡ set_task self task (given (at_task self task empty_desk) voucher)) }
    {
        if self.members[task as usize - 1].give(voucher)? {
            self.holders.add(voucher)?;
        }
        Ok(self)
    }

    /// A name of a task loses a user reference. It takes no memory.
    pub fn let_go_at(&mut self, task: u32, name: u32)
        requires { (1 ≤ task) × (task ≤ length self.old) }
        ensures { self.new ≡ set_task self.old task (record (at_task self.old task empty_desk) { names = desks.one_less (at_task self.old task empty_desk).names name }) }
    {
        if let Some(voucher) = self.members[task as usize - 1].let_go(name) {
            self.holders.remove(voucher);
        }
    }

    /// A name of a task goes. It takes no memory.
    pub fn give_up_at(&mut self, task: u32, name: u32)
        requires { (1 ≤ task) × (task ≤ length self.old) }
        ensures { self.new ≡ set_task self.old task (record (at_task self.old task empty_desk) { names = desks.without_name (at_task self.old task empty_desk).names name }) }
    {
        if let Some(voucher) = self.members[task as usize - 1].give_up(name) {
            self.holders.remove(voucher);
        }
    }

    /// A message more for a task. The one error is out of memory.
    pub fn append_at(mut self, task: u32, message: Message) -> Result<Tasks, NoMemory>
        requires { (1 ≤ task) × (task ≤ length self) }
        ensures { IfOk result (λ made. made ≡ set_task self task (record (at_task self task empty_desk) { queue = (at_task self task empty_desk).queue ++ message ∷ [] })) }
    {
        self.members[task as usize - 1].append(message)?;
        if let Some(voucher) = message.voucher {
            self.holders.add(voucher)?;
        }
        Ok(self)
    }

    /// The first message of a task goes. It takes no memory.
    pub fn take_first_at(&mut self, task: u32)
        requires { (1 ≤ task) × (task ≤ length self.old) }
        ensures { self.new ≡ set_task self.old task (record (at_task self.old task empty_desk) { queue = rest_of (at_task self.old task empty_desk).queue }) }
    {
        if let Some(voucher) = self.members[task as usize - 1].take_first() {
            self.holders.remove(voucher);
        }
    }
}
