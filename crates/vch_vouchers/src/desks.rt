ghost use Rattle.std.specs.Prelude.{◌≡◌, ◌≢◌, ◌≤◌, ◌<◌, ◌∷◌, ◌++◌, [], OnOk, OnErr, IfOk, Some, drop, length, slice_get};
ghost use Rattle.std.specs.List.{filter};
ghost use Rattle.vch_base.specs.Tasks.{set_task};
ghost use Rattle.vch_ports.specs.Names.{Adds, by_name, by_slot, counted, given_up, is_other, looked};
ghost use Rattle.vch_vouchers.specs.Held.{AllSlotDesks, IsSlotDesk, slot_gone};
ghost use Rattle.vch_vouchers.specs.Slots.{slot_desk, with_mail};

use std::alloc::Global;
use std::marker::Model;
use vch_base::NoMemory;
use vch_ports::{Added, GiveUp, Mail, Message, Space};

/// The names of a task and its queue, by the slots of their vouchers.
#[derive(Drop)]
pub struct SlotDesk {
    pub space: Space,
    pub mail: Mail,
}

impl SlotDesk {
    /// No names and no messages. The one error is out of memory.
    pub fn new(alloc: Global, limit: u32) -> Result<SlotDesk, NoMemory>
        requires { (1 ≤ limit) × (limit ≤ 1024) }
        ensures names { IfOk result (λ made. made.space.names ≡ []) }
        ensures next { IfOk result (λ made. made.space.next ≡ 1) }
        ensures mail { IfOk result (λ made. made.mail ≡ record { messages = []; limit = limit }) }
    {
        let mail = Mail::new(alloc, limit)?;
        Ok(SlotDesk {
            space: Space::new(alloc),
            mail,
        })
    }
}

/// What the tasks 1, 2, 3 and so on have.
#[derive(Drop)]
pub struct Desks {
    items: Vec<SlotDesk>,
}

impl Model for Desks {
    ghost use Rattle.std.specs.Prelude.{List};
    ghost use Rattle.vch_vouchers.specs.declared.desks.SlotDesk.{SlotDesk};
    ghost use Rattle.vch_vouchers.specs.Held.{AllSlotDesks};

    ghost Value = { List SlotDesk };

    ghost view = { λ d. d.items.items };

    ghost invariant = { λ d. AllSlotDesks d.items.items };
}

impl Desks {
    /// No task. It takes no memory.
    pub fn new(alloc: Global) -> Desks
        ensures { result ≡ [] }
    {
        Desks {
            items: Vec::new(alloc),
        }
    }

    /// One more task. The one error is out of memory.
    pub fn push(&mut self, desk: SlotDesk) -> Result<(), NoMemory>
        requires desk { IsSlotDesk desk }
        ensures pushed { OnOk result (self.new ≡ self.old ++ desk ∷ []) }
    {
        self.items.push(desk)?;
        Ok(())
    }

    /// The names of a task and its queue.
    pub fn at(&self, task: u32) -> &SlotDesk
        requires task { (1 ≤ task) × (task ≤ length self.now) }
        ensures { result.now ≡ slot_desk self.now task }
    {
        &self.items[task as usize - 1]
    }

    /// What is true of every task at all times. It does nothing.
    pub fn know(&self)
        ensures { AllSlotDesks self.now }
    {
        let _ = &self.items;
    }

    /// Makes room for one new name of a task.
    ///
    /// # Errors
    ///
    /// Out of memory alone.
    pub fn reserve(&mut self, task: u32) -> Result<(), NoMemory>
        requires task { (1 ≤ task) × (task ≤ length self.old) }
        ensures room { OnOk result (1 ≤ (slot_desk self.new task).space.spare) }
        ensures names { (slot_desk self.new task).space.names ≡ (slot_desk self.old task).space.names }
        ensures next { (slot_desk self.new task).space.next ≡ (slot_desk self.old task).space.next }
        ensures others { self.new ≡ set_task self.old task (record (slot_desk self.old task) { space = (slot_desk self.new task).space }) }
    {
        let desk = &mut self.items[task as usize - 1];
        desk.space.reserve()
    }

    /// Gives a task a voucher by its slot. It takes no memory, since [`Desks::reserve`] made room.
    pub fn add(&mut self, task: u32, slot: u32) -> Added
        requires task { (1 ≤ task) × (task ≤ length self.old) }
        requires room { 1 ≤ (slot_desk self.old task).space.spare }
        requires next { (slot_desk self.old task).space.next < 4294967295 }
        requires references { counted (by_slot (slot_desk self.old task).space.names slot) < 4294967294 }
        ensures adds { Adds (slot_desk self.old task).space slot result (slot_desk self.new task).space }
        ensures others { self.new ≡ set_task self.old task (record (slot_desk self.old task) { space = (slot_desk self.new task).space }) }
    {
        let desk = &mut self.items[task as usize - 1];
        let answer = desk.space.add(slot);
        desk.space.know();
        answer
    }

    /// Takes one user reference from a name of a task. The slot of the name where that was its last, and nothing otherwise.
    pub fn give_up(&mut self, task: u32, name: u32) -> Option<u32>
        requires task { (1 ≤ task) × (task ≤ length self.old) }
        ensures slot { result ≡ slot_gone (by_name (slot_desk self.old task).space.names name) }
        ensures names { (slot_desk self.new task).space.names ≡ given_up (by_name (slot_desk self.old task).space.names name) name (slot_desk self.old task).space.names }
        ensures next { (slot_desk self.new task).space.next ≡ (slot_desk self.old task).space.next }
        ensures others { self.new ≡ set_task self.old task (record (slot_desk self.old task) { space = (slot_desk self.new task).space }) }
    {
        let desk = &mut self.items[task as usize - 1];
        let answer = desk.space.give_up(name);
        desk.space.know();
        match answer {
            GiveUp::Gone { slot } => Some(slot),
            GiveUp::Kept { .. } | GiveUp::Unknown => None,
        }
    }

    /// Takes a name of a task away, and returns its slot, or nothing where the task has no such name.
    pub fn remove(&mut self, task: u32, name: u32) -> Option<u32>
        requires task { (1 ≤ task) × (task ≤ length self.old) }
        ensures slot { result ≡ looked (by_name (slot_desk self.old task).space.names name) }
        ensures names { (slot_desk self.new task).space.names ≡ filter (is_other name) (slot_desk self.old task).space.names }
        ensures next { (slot_desk self.new task).space.next ≡ (slot_desk self.old task).space.next }
        ensures others { self.new ≡ set_task self.old task (record (slot_desk self.old task) { space = (slot_desk self.new task).space }) }
    {
        let desk = &mut self.items[task as usize - 1];
        let answer = desk.space.remove(name);
        desk.space.know();
        answer
    }

    /// Queues a message behind all others of a task.
    pub fn put(&mut self, task: u32, message: Message)
        requires task { (1 ≤ task) × (task ≤ length self.old) }
        requires room { length (slot_desk self.old task).mail.messages ≢ (slot_desk self.old task).mail.limit }
        ensures { self.new ≡ set_task self.old task (with_mail (slot_desk self.old task) ((slot_desk self.old task).mail.messages ++ message ∷ [])) }
    {
        self.know();
        let desk = &mut self.items[task as usize - 1];
        match desk.mail.put(message) {
            Ok(()) => (),
            Err(_) => unreachable!(),
        }
    }

    /// Takes the message that a task receives next.
    pub fn take_first(&mut self, task: u32) -> Option<Message>
        requires task { (1 ≤ task) × (task ≤ length self.old) }
        ensures message { result ≡ slice_get (slot_desk self.old task).mail.messages 0 }
        ensures left { self.new ≡ set_task self.old task (with_mail (slot_desk self.old task) (drop 1 (slot_desk self.old task).mail.messages)) }
    {
        self.know();
        let desk = &mut self.items[task as usize - 1];
        desk.mail.take_first()
    }
}
