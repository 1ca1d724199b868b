ghost use Rattle.std.specs.Prelude.{◌≡◌, ◌<◌, ◌++◌, ◌∷◌, [], length, OnOk};
ghost use Rattle.vch_books.specs.Audits.{first_of, rest_of};
ghost use Rattle.vch_books.specs.Desks.{first_voucher};

use crate::Numbers;
use crate::rows::Message;
use std::alloc::Global;
use std::marker::Model;
use vch_base::NoMemory;

/// The messages of a task, the first one first. Those that went stay in the list until none is left, so each step takes constant
/// time.
#[derive(Drop)]
pub struct Queue {
    messages: Vec<Message>,
    // How many of them went.
    gone: usize,
}

impl Model for Queue {
    ghost use Rattle.std.specs.Prelude.{◌≤◌, List, drop, length};
    ghost use Rattle.vch_books.specs.declared.rows.Message.{Message};

    ghost Value = { List Message };

    ghost view = { λ q. drop q.gone q.messages.items };

    ghost invariant = { λ q. q.gone ≤ length q.messages.items };
}

impl Queue {
    /// No message. It takes no memory.
    pub fn new(alloc: Global) -> Queue
        ensures { result ≡ [] }
    {
        Queue {
            messages: Vec::new(alloc),
            gone: 0,
        }
    }

    /// How many messages there are. Constant time.
    pub fn len(&self) -> usize
        ensures { result ≡ length self.now }
    {
        self.messages.len() - self.gone
    }

    /// The first message. Constant time.
    pub fn first(&self) -> Option<Message>
        ensures { result ≡ first_of self.now }
    {
        self.messages.get(self.gone).copied()
    }

    /// One message more at the end. Amortised constant time. The one error is out of memory.
    pub fn append(&mut self, message: Message) -> Result<(), NoMemory>
        ensures { OnOk result (self.new ≡ self.old ++ message ∷ []) }
    {
        self.messages.push(message)?;
        Ok(())
    }

    /// The first message goes. The list is emptied with the last.
    fn step(&mut self)
        requires { 0 < length self.old }
        ensures { self.new ≡ rest_of self.old }
    {
        if self.gone + 1 == self.messages.len() {
            self.messages.clear();
            self.gone = 0;
            return;
        }
        self.gone += 1;
    }

    /// The first message goes, where there is one. Returns its voucher, where it has one. Constant time; it takes no memory.
    pub fn take_first(&mut self) -> Option<Numbers>
        ensures less { self.new ≡ rest_of self.old }
        ensures gone { result ≡ first_voucher self.old }
    {
        let first = self.first()?;
        self.step();
        first.voucher
    }
}
