ghost use Rattle.std.specs.Prelude.{◌≡◌, ◌≢◌, ◌↔◌, ◌≤◌, ◌<◌, ◌∷◌, ◌++◌, [], IsTrue, IfOk, OnErr, OnOk, None, Some, IfSome, IsSome, drop, length, slice_get, option_map};
ghost use Rattle.vch_base.specs.Slots.{slot_at};
ghost use Rattle.vch_base.specs.Tasks.{set_task};
ghost use Rattle.vch_table.specs.Vouchers.{live_slots};
ghost use Rattle.vch_ports.specs.Names.{by_slot, counted};
ghost use Rattle.vch_vouchers.specs.Desks.{AreDesks, AreLimits, all_vouchers, desk, different, empty_desks, given, is_known, lowest, name_for, name_with, one_less, orphaned, queued, taken_from, voucher_of, without_name};
ghost use Rattle.vch_vouchers.specs.declared.limits.TheConstants.{MOST_DESKS};
ghost use Rattle.vch_vouchers.specs.Slots.{HasRoom, Releases, slot_desk, voucher_at};

use crate::desks::{Desks, SlotDesk};
use crate::limits::MOST;
use crate::{Given, Message, Taken};
use std::alloc::Global;
use std::marker::Model;
use vch_base::NoMemory;
use vch_ports as ports;
use vch_table::{Indices, VoucherTable};

/// The names and queued messages of the tasks 1, 2, 3 and so on.
///
/// It is seen as a list with the desk of each task.
#[derive(Drop)]
pub struct Vouchers {
    table: VoucherTable,
    desks: Desks,
}

impl Model for Vouchers {
    ghost use Rattle.std.specs.Prelude.{List};
    ghost use Rattle.vch_vouchers.specs.Desks.{Desk};
    ghost use Rattle.vch_vouchers.specs.Slots.{IsHeld, desks_at};

    ghost Value = { List Desk };

    ghost view = { λ v. desks_at v.table v.desks };

    ghost invariant = { λ v. IsHeld v.table v.desks };
}

impl Vouchers {
    /// A desk without names and messages for each limit, which is the most messages that it may have. The time is linear in
    /// the sum of the limits, since queues take their memory here.
    ///
    /// # Errors
    ///
    /// Out of memory.
    pub fn new(alloc: Global, limits: &[u32]) -> Result<Vouchers, NoMemory>
        requires limits { AreLimits limits.now }
        requires few { length limits.now ≤ MOST_DESKS }
        ensures desks { IfOk result (λ made. made ≡ empty_desks limits.now) }
    {
        let mut desks = Desks::new(alloc);
        for limit in limits {
            desks.push(SlotDesk::new(alloc, *limit)?)?;
        }
        Ok(Vouchers {
            table: VoucherTable::new(alloc),
            desks,
        })
    }

    /// The voucher of a name, or none where the task has no such name. Logarithmic in the names of the task.
    pub fn voucher(&self, task: u32, name: u32) -> Option<Indices>
        requires task { (1 ≤ task) × (task ≤ length self.now) }
        ensures { result ≡ voucher_of (desk self.now task).names name }
    {
        self.table.know();
        self.desks.know();
        let slot = self.desks.at(task).space.look(name);
        voucher_in(&self.table, slot)
    }

    /// The lowest name of a task, or none where it has no name. Constant time.
    pub fn first_name(&self, task: u32) -> Option<u32>
        requires task { (1 ≤ task) × (task ≤ length self.now) }
        ensures { result ≡ lowest (desk self.now task).names }
    {
        self.desks.at(task).space.first_name()
    }

    /// The message that a task receives next, which stays queued, or none. Constant time.
    pub fn first(&self, task: u32) -> Option<Message>
        requires task { (1 ≤ task) × (task ≤ length self.now) }
        ensures { result ≡ slice_get (desk self.now task).queue 0 }
    {
        self.table.know();
        self.desks.know();
        let message = self.desks.at(task).mail.first()?;
        Some(Message {
            sender: message.sender,
            id: message.id,
            voucher: voucher_in(&self.table, message.slot),
        })
    }

    /// Whether the queue of a task has as many messages as its limit. Constant time.
    pub fn is_full(&self, task: u32) -> bool
        requires task { (1 ≤ task) × (task ≤ length self.now) }
        ensures { IsTrue result ↔ (length (desk self.now task).queue ≡ (desk self.now task).limit) }
    {
        self.desks.at(task).mail.is_full()
    }

    /// How many different vouchers the names and messages of all tasks have. Constant time.
    pub fn count(&self) -> u64
        ensures { result ≡ different (all_vouchers self.now) }
    {
        self.table.know();
        self.table.count() as u64
    }

    /// What is true of every desk at all times. It does nothing.
    pub fn know(&self)
        ensures { AreDesks self.now }
    {
        self.table.know();
        self.desks.know();
    }

    /// Gives a task a voucher: one more user reference on the name that has it, else the next name.
    ///
    /// The time is logarithmic in the names of the task, and that of two look-ups in the table.
    ///
    /// # Errors
    ///
    /// Out of memory, and so where the next name, the user references of the name or the vouchers would pass 4,294,967,294.
    pub fn name(&mut self, task: u32, voucher: &Indices) -> Result<Given, NoMemory>
        requires task { (1 ≤ task) × (task ≤ length self.old) }
        ensures name { IfOk result (λ g. g.name ≡ name_for (desk self.old task) (name_with (desk self.old task).names voucher.now)) }
        ensures known { IfOk result (λ g. g.was_known ≡ is_known self.old voucher.now) }
        ensures given { OnOk result (self.new ≡ set_task self.old task (given (desk self.old task) voucher.now)) }
        ensures refused { OnErr result (self.new ≡ self.old) }
    {
        self.table.know();
        check_name(&self.table, &self.desks, task, voucher)?;
        check_slots(&self.table)?;
        self.desks.reserve(task)?;
        self.desks.know();
        let met = self.table.meet(voucher)?;
        self.table.know();
        let added = self.desks.add(task, met.slot);
        let given = Given {
            name: added.name,
            was_known: met.was_there,
        };
        release(&mut self.table, added.was_there.then_some(met.slot));
        Ok(given)
    }

    /// Queues a message with a voucher behind all others of a task. It returns whether some name or message had the voucher
    /// before. The time is that of one look-up in the table.
    ///
    /// # Errors
    ///
    /// Out of memory, and so where the vouchers would pass 4,294,967,294.
    pub fn send(
        &mut self,
        to: u32,
        sender: u32,
        id: u32,
        voucher: &Indices,
    ) -> Result<bool, NoMemory>
        requires task { (1 ≤ to) × (to ≤ length self.old) }
        requires room { length (desk self.old to).queue ≢ (desk self.old to).limit }
        ensures known { IfOk result (λ known. known ≡ is_known self.old voucher.now) }
        ensures queued { OnOk result (self.new ≡ set_task self.old to (queued (desk self.old to) (record { sender = sender; id = id; voucher = Some voucher.now }))) }
        ensures refused { OnErr result (self.new ≡ self.old) }
    {
        check_slots(&self.table)?;
        self.table.know();
        self.desks.know();
        let met = self.table.meet(voucher)?;
        self.table.know();
        self.desks.put(
            to,
            ports::Message {
                sender,
                id,
                slot: Some(met.slot),
            },
        );
        Ok(met.was_there)
    }

    /// Queues a message without a voucher behind all others of a task. It takes no memory; constant time.
    pub fn send_bare(&mut self, to: u32, sender: u32, id: u32)
        requires task { (1 ≤ to) × (to ≤ length self.old) }
        requires room { length (desk self.old to).queue ≢ (desk self.old to).limit }
        ensures { self.new ≡ set_task self.old to (queued (desk self.old to) (record { sender = sender; id = id; voucher = None })) }
    {
        self.table.know();
        self.desks.put(
            to,
            ports::Message {
                sender,
                id,
                slot: None,
            },
        );
    }

    /// Takes one user reference from a name of a task; the name goes with the last. It returns the voucher where no name and
    /// no message has it any more. A name that is not there changes nothing. It takes no memory; linear in the names of the
    /// task.
    pub fn drop_name(&mut self, task: u32, name: u32) -> Option<Indices>
        requires task { (1 ≤ task) × (task ≤ length self.old) }
        ensures names { self.new ≡ set_task self.old task (record (desk self.old task) { names = one_less (desk self.old task).names name }) }
        ensures orphan { result ≡ orphaned self.new (voucher_of (desk self.old task).names name) }
    {
        self.table.know();
        self.desks.know();
        let slot = self.desks.give_up(task, name);
        release(&mut self.table, slot)
    }

    /// Takes a name of a task away with all its user references. It returns the voucher where no name and no message has it
    /// any more. A name that is not there changes nothing. It takes no memory; linear in the names of the task.
    pub fn remove_name(&mut self, task: u32, name: u32) -> Option<Indices>
        requires task { (1 ≤ task) × (task ≤ length self.old) }
        ensures names { self.new ≡ set_task self.old task (record (desk self.old task) { names = without_name (desk self.old task).names name }) }
        ensures orphan { result ≡ orphaned self.new (voucher_of (desk self.old task).names name) }
    {
        self.table.know();
        self.desks.know();
        let slot = self.desks.remove(task, name);
        release(&mut self.table, slot)
    }

    /// Takes the message that a task receives next, or nothing where its queue is empty, with its voucher where no name and no
    /// message has it any more. It takes no memory; constant time.
    pub fn take_first(&mut self, task: u32) -> Option<Taken>
        requires task { (1 ≤ task) × (task ≤ length self.old) }
        ensures queue { self.new ≡ set_task self.old task (record (desk self.old task) { queue = drop 1 (desk self.old task).queue }) }
        ensures taken { result ≡ taken_from self.new (slice_get (desk self.old task).queue 0) }
    {
        self.table.know();
        self.desks.know();
        let message = self.desks.take_first(task)?;
        let orphan = release(&mut self.table, message.slot);
        Some(Taken {
            sender: message.sender,
            id: message.id,
            orphan,
        })
    }
}

/// The voucher of a slot, where there is one.
fn voucher_in(table: &VoucherTable, slot: Option<u32>) -> Option<Indices>
    requires { IfSome slot (λ s. IsSome (slot_at table.now s)) }
    ensures { result ≡ option_map (voucher_at table.now) slot }
{
    Some(table.indices(slot?))
}

/// One reference less to a slot, where there is one, and its voucher where that was the last.
fn release(table: &mut VoucherTable, slot: Option<u32>) -> Option<Indices>
    requires { IfSome slot (λ s. IsSome (slot_at table.old s)) }
    ensures { Releases slot table.old result table.new }
{
    table.release(slot?)
}

/// The next name and the user references of a voucher's name can rise.
fn check_name(
    table: &VoucherTable,
    desks: &Desks,
    task: u32,
    voucher: &Indices,
) -> Result<(), NoMemory>
    requires task { (1 ≤ task) × (task ≤ length desks.now) }
    ensures next { OnOk result ((slot_desk desks.now task).space.next < 4294967295) }
    ensures references { OnOk result (HasRoom table.now voucher.now (slot_desk desks.now task).space.names) }
{
    table.know();
    let space = &desks.at(task).space;
    if space.next() > MOST {
        return Err(NoMemory::beyond(space.next() as u64, 1, u32::MAX as u64));
    }
    let Some(slot) = table.find(voucher) else {
        return Ok(());
    };
    let references = space.references(slot);
    if references >= MOST {
        return Err(NoMemory::beyond(references as u64, 2, u32::MAX as u64));
    }
    Ok(())
}

/// A new slot can be live.
fn check_slots(table: &VoucherTable) -> Result<(), NoMemory>
    ensures { OnOk result (live_slots table.now < 4294967295) }
{
    let count = table.count() as u64;
    if count >= MOST as u64 {
        return Err(NoMemory::beyond(count, 2, u32::MAX as u64));
    }
    Ok(())
}
