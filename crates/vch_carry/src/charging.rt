ghost use Rattle.std.specs.Prelude.{◌≡◌, ◌<◌, ◌+◌, ◌^◌, IsSome, IsTrue, Ok, Err};
ghost use Rattle.vch_base.specs.declared.key.Key.TheVariants as keys;
ghost use Rattle.vch_base.specs.declared.kind.Kind.TheVariants as kinds;
ghost use Rattle.vch_base.specs.Managers.{live_at};
ghost use Rattle.vch_bank.specs.Bank.{payer_at, total_of};
ghost use Rattle.vch_model.specs.declared.call.Call.TheVariants as calls;
ghost use Rattle.vch_model.specs.Lines.{is_task};
ghost use Rattle.vch_parts.specs.Reached.{Reached, MayFollow};
ghost use Rattle.vch_replies.specs.Left.{paid};
ghost use Rattle.vch_replies.specs.Replied.{paid_by};
ghost use Rattle.vch_answers.specs.Answered.{Begins};
ghost use Rattle.vch_carry.specs.Amounts.{named_handle};

use crate::counting::{handle_named, note};
use vch_answers::answer;
use vch_base::{Code, Key};
use vch_model::{Reply, Word};
use vch_parts::Parts;

/// Charges a task with `n` on a value of the bank, where the manager lets it, and gives the reply.
fn pay(parts: &mut Parts, task: u32, handle: u32, n: u32) -> Reply
    requires live { IsSome (live_at parts.old.values.bank.kept.slots handle) }
    requires room { total_of parts.old.values.bank.kept + n < 2 ^ 128 }
    ensures reply { result ≡ paid_by (payer_at parts.old.values.bank.kept handle task) }
    ensures values { parts.new ≡ record parts.old { values = paid parts.old.values handle task n (payer_at parts.old.values.bank.kept handle task) } }
{
    match parts.values.charge(handle, task, n) {
        Ok(()) => Reply::Done,
        Err(code) => Reply::Refused { code },
    }
}

/// A charge on a value of the bank: it is made or refused, and the call is answered.
fn charge(parts: &mut Parts, task: u32, name: u32, handle: u32, n: u32)
    requires reached { Reached parts.old }
    requires task { IsTrue (is_task parts.old.scenario task) }
    requires begins { Begins parts.old task (calls.Charge name n) }
    requires room { total_of parts.old.values.bank.kept + n < 2 ^ 128 }
    requires handle { named_handle parts.old task name keys.Bank ≡ Ok handle }
    ensures { MayFollow kinds.Begin task parts.old parts.new }
{
    let reply = pay(parts, task, handle, n);
    note(parts, task, Word::Charge, reply);
}

/// Refuses a charge that is on no value.
fn refuse_charge(parts: &mut Parts, task: u32, name: u32, code: Code, n: u32)
    requires reached { Reached parts.old }
    requires task { IsTrue (is_task parts.old.scenario task) }
    requires begins { Begins parts.old task (calls.Charge name n) }
    requires none { named_handle parts.old task name keys.Bank ≡ Err code.number }
    ensures { MayFollow kinds.Begin task parts.old parts.new }
{
    answer(parts, task, Word::Charge, Reply::Refused { code });
}

/// Begin of a `charge`: `n` falls on the ledger of the task, or on the account that the named voucher has at the key of the bank,
/// and the call is answered. Linear in the names of the task; it takes no memory.
pub fn begin_charge(parts: &mut Parts, task: u32, name: u32, n: u32)
    requires reached { Reached parts.old }
    requires task { IsTrue (is_task parts.old.scenario task) }
    requires begins { Begins parts.old task (calls.Charge name n) }
    ensures { MayFollow kinds.Begin task parts.old parts.new }
{
    match handle_named(parts, task, name, Key::Bank) {
        Ok(handle) => charge(parts, task, name, handle, n),
        Err(code) => refuse_charge(parts, task, name, code, n),
    }
}
