ghost use Rattle.std.specs.Prelude.{◌≡◌, ◌+◌, ◌<◌, ◌++◌, ◌∷◌, [], length, not, is_some, IfOk, OnOk};
ghost use Rattle.vch_model.specs.Store.{is_empty};
ghost use Rattle.vch_books.specs.Audits.{first_of, rest_of};
ghost use Rattle.vch_books.specs.Desks as desks;
ghost use Rattle.vch_books.specs.Desks.{empty_desk, numbers_at, name_with, gone_with, first_voucher, given};

use crate::Numbers;
use crate::names::Names;
use crate::queue::Queue;
use crate::rows::{Message, Named};
use std::alloc::Global;
use std::marker::Model;
use vch_base::NoMemory;

/// What a task has: its names in the order in which they were given, the next one, its messages, the first one first, and how
/// many calls of it were taken.
#[derive(Drop)]
pub struct Member {
    names: Names,
    next: u32,
    queue: Queue,
    begun: u32,
}

impl Model for Member {
    ghost use Rattle.vch_books.specs.Desks.{Desk};

    ghost Value = { Desk };

    ghost view = { λ m. record { names = m.names; next = m.next; queue = m.queue; begun = m.begun } };
}

impl Member {
    /// No name and no message. It takes no memory.
    pub fn new(alloc: Global) -> Member
        ensures { result ≡ empty_desk }
    {
        Member {
            names: Names::new(alloc),
            next: 1,
            queue: Queue::new(alloc),
            begun: 0,
        }
    }

    /// The voucher of a name, or nothing where the name is not there.
    pub fn voucher_of(&self, name: u32) -> Option<Numbers>
        ensures { result ≡ numbers_at self.now.names name }
    {
        self.names.voucher_of(name)
    }

    /// The name that a voucher has, or gets where it is given.
    pub fn name_for(&self, voucher: &Numbers) -> u32
        ensures { result ≡ desks.name_for self.now (name_with self.now.names voucher.now) }
    {
        match self.names.name_of(voucher) {
            Some(name) => name,
            None => self.next,
        }
    }

    /// The lowest name, or nothing where there is none.
    pub fn lowest(&self) -> Option<u32>
        ensures { result ≡ desks.lowest self.now.names }
    {
        self.names.lowest()
    }

    /// Whether it has a name.
    pub fn has_name(&self) -> bool
        ensures { result ≡ not (is_empty self.now.names) }
    {
        self.names.has_any()
    }

    /// Whether it has a message.
    pub fn has_message(&self) -> bool
        ensures { result ≡ not (is_empty self.now.queue) }
    {
        self.queue.len() > 0
    }

    /// How many messages it has.
    pub fn messages(&self) -> usize
        ensures { result ≡ length self.now.queue }
    {
        self.queue.len()
    }

    /// The first message.
    pub fn first(&self) -> Option<Message>
        ensures { result ≡ first_of self.now.queue }
    {
        self.queue.first()
    }

    /// How many of its calls were taken.
    pub fn begun(&self) -> u32
        ensures { result ≡ self.now.begun }
    {
        self.begun
    }

    /// One more of its calls was taken.
    pub fn begin(&mut self)
        requires { self.old.begun < 4294967295 }
        ensures { self.new ≡ record self.old { begun = self.old.begun + 1 } }
    {
        self.begun += 1;
    }

    /// A voucher is given to it. Returns whether the voucher had no name before.
    pub fn give(&mut self, voucher: Numbers) -> Result<bool, NoMemory>
        ensures given { OnOk result (self.new ≡ given self.old voucher) }
        ensures fresh { IfOk result (λ fresh. is_some (name_with self.old.names voucher) ≡ not fresh) }
    {
        if let Some(name) = self.names.name_of(&voucher) {
            self.names.one_more(name)?;
            return Ok(false);
        }
        let name = self.next;
        let Some(next) = name.checked_add(1) else {
            return Err(NoMemory::beyond(name as u64, 1, u32::MAX as u64));
        };
        self.names.push(Named {
            name,
            voucher,
            refs: 1,
        })?;
        self.next = next;
        Ok(true)
    }

    /// A name loses a user reference, and goes with the last. Returns the voucher of a name that went.
    pub fn let_go(&mut self, name: u32) -> Option<Numbers>
        ensures less { self.new ≡ record self.old { names = desks.one_less self.old.names name } }
        ensures gone { result ≡ gone_with self.old.names name }
    {
        self.names.one_less(name)
    }

    /// A name goes, where it is there. Returns its voucher.
    pub fn give_up(&mut self, name: u32) -> Option<Numbers>
        ensures less { self.new ≡ record self.old { names = desks.without_name self.old.names name } }
        ensures gone { result ≡ numbers_at self.old.names name }
    {
        self.names.without(name)
    }

    /// One message more at the end.
    pub fn append(&mut self, message: Message) -> Result<(), NoMemory>
        ensures { OnOk result (self.new ≡ record self.old { queue = self.old.queue ++ message ∷ [] }) }
    {
        self.queue.append(message)
    }

    /// The first message goes, where there is one. Returns its voucher, where it has one.
    pub fn take_first(&mut self) -> Option<Numbers>
        ensures less { self.new ≡ record self.old { queue = rest_of self.old.queue } }
        ensures gone { result ≡ first_voucher self.old.queue }
    {
        self.queue.take_first()
    }
}
