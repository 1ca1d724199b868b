//! What the sequential store replies to a call as it begins.
ghost use Rattle.std.specs.Prelude.{◌≡◌, ◌⊎◌, ◌||◌, ◌==◌, nat_lt, true, length, IfOk};
ghost use Rattle.vch_base.specs.declared.limits.TheConstants.{ARRAY_BYTES};
ghost use Rattle.vch_machine.specs.Beginning.{first_voucher, store_reply};
ghost use Rattle.vch_machine.specs.State as state;
ghost use Rattle.vch_model.specs.Replies as replies;
ghost use Rattle.vch_model.specs.declared.call.Call.TheVariants as calls;
ghost use Rattle.vch_plain.specs.Keeping.{Keeps};
ghost use Rattle.vch_plain.specs.Machines.{IsTaskOf};
ghost use Rattle.vch_plain.specs.Replied.{is_none, is_replied};

mod asked;
mod different;
mod named;
mod recipes;
mod seen;

use crate::machine::Machine;
use crate::numbers::after_large;
use crate::reply::asked::received;
use crate::reply::named::{extracted, given_up, refused};
use crate::reply::recipes::recipes_of;
use crate::reply::seen::{charged, extern_of, live_of, named, sending};
pub use different::vouchers;
pub use seen::{number_at, tasks_of};
use std::alloc::Global;
use vch_base::NoMemory;
use vch_base::codes::MIG_ARRAY_TOO_LARGE;
use vch_model::{Call, Reply, Scenario};
use vch_sums::Sums;

/// The reply to a create of no bytes or of too many.
#[tactic(auto, using(crate::proofs::SeenReplies::created_none, crate::proofs::SeenReplies::created_many))]
fn created(bytes: &[u8], machine: &Machine, scenario: &Scenario, task: u32) -> Reply
    requires { ((length bytes.now == 0) || nat_lt ARRAY_BYTES (length bytes.now)) ≡ true }
    ensures { result ≡ store_reply scenario.now machine.now task (calls.Create bytes.now) }
{
    let _ = machine;
    let _ = scenario;
    let _ = task;
    if bytes.is_empty() {
        return Reply::Created { name: 0 };
    }
    refused(MIG_ARRAY_TOO_LARGE)
}

/// The reply to a receive that takes no voucher.
fn receiving(machine: &Machine, scenario: &Scenario, task: u32) -> Reply
    requires task { IsTaskOf machine.now task }
    requires none { is_none (first_voucher (state.tasked machine.now task).queue) ≡ true }
    ensures { result ≡ store_reply scenario.now machine.now task calls.Recv }
{
    let _ = scenario;
    received(machine.task(task).queue.as_slice())
}

/// The reply to a question for what lives.
fn living(
    alloc: Global,
    machine: &Machine,
    sums: &Sums,
    scenario: &Scenario,
    task: u32,
) -> Result<Reply, NoMemory>
    requires keeps { Keeps scenario.now machine.now sums.now }
    ensures { IfOk result (λ r. r ≡ store_reply scenario.now machine.now task calls.Live) }
{
    let _ = scenario;
    let _ = task;
    let vouchers = vouchers(alloc, tasks_of(machine))?;
    let values = after_large(sums.live() as u64)?;
    Ok(Reply::Live { vouchers, values })
}

/// The reply to a drop of a name.
fn dropping(machine: &Machine, scenario: &Scenario, task: u32, name: u32) -> Reply
    requires task { IsTaskOf machine.now task }
    ensures { result ≡ store_reply scenario.now machine.now task (calls.GiveUp name) }
{
    let _ = scenario;
    given_up(&named(machine, task, name), live_of(machine))
}

/// The reply to an extract.
fn extracting(
    alloc: Global,
    machine: &Machine,
    scenario: &Scenario,
    task: u32,
    name: u32,
    key: u32,
) -> Result<Reply, NoMemory>
    requires version { (scenario.now.version ≡ 1) ⊎ (scenario.now.version ≡ 2) }
    requires task { IsTaskOf machine.now task }
    ensures { IfOk result (λ r. r ≡ store_reply scenario.now machine.now task (calls.Extract name key)) }
{
    let voucher = named(machine, task, name);
    extracted(alloc, live_of(machine), scenario.version, key, &voucher)
}

/// The reply to a request for a recipe.
fn telling_recipe(
    alloc: Global,
    machine: &Machine,
    scenario: &Scenario,
    task: u32,
    name: u32,
) -> Result<Reply, NoMemory>
    requires task { IsTaskOf machine.now task }
    ensures { IfOk result (λ r. r ≡ store_reply scenario.now machine.now task (calls.Recipes name)) }
{
    let _ = scenario;
    let voucher = named(machine, task, name);
    recipes_of(alloc, task, live_of(machine), &voucher)
}

/// The reply to a change of an external count.
fn counting(
    machine: &Machine,
    sums: &Sums,
    scenario: &Scenario,
    task: u32,
    name: u32,
    adding: bool,
    n: u32,
) -> Reply
    requires keeps { Keeps scenario.now machine.now sums.now }
    requires task { IsTaskOf machine.now task }
    ensures { result ≡ store_reply scenario.now machine.now task (calls.Extern name adding n) }
{
    let _ = scenario;
    let voucher = named(machine, task, name);
    extern_of(machine, sums, task, &voucher, adding, n)
}

/// The reply to a charge.
fn charging(machine: &Machine, scenario: &Scenario, task: u32, name: u32, n: u32) -> Reply
    requires task { IsTaskOf machine.now task }
    ensures { result ≡ store_reply scenario.now machine.now task (calls.Charge name n) }
{
    let _ = scenario;
    let _ = n;
    charged(machine, task, &named(machine, task, name))
}

/// The reply to a question for the ledger of a task.
fn telling_ledger(machine: &Machine, sums: &Sums, scenario: &Scenario, task: u32) -> Reply
    requires keeps { Keeps scenario.now machine.now sums.now }
    requires task { IsTaskOf machine.now task }
    ensures { result ≡ store_reply scenario.now machine.now task calls.Ledger }
{
    let _ = machine;
    let _ = scenario;
    Reply::Ledger {
        amount: sums.ledger(task) as u128,
    }
}

/// The reply to a question for the assertions of a task.
fn telling_assertions(machine: &Machine, sums: &Sums, scenario: &Scenario, task: u32) -> Reply
    requires keeps { Keeps scenario.now machine.now sums.now }
    requires task { IsTaskOf machine.now task }
    ensures { result ≡ store_reply scenario.now machine.now task calls.Assertions }
{
    let _ = machine;
    let _ = scenario;
    Reply::Assertions {
        held: sums.held(task) as u128,
        out: sums.out(task) as u128,
    }
}

/// What the sequential store replies to a call, where it is replied as it begins.
pub fn reply(
    alloc: Global,
    machine: &Machine,
    sums: &Sums,
    scenario: &Scenario,
    task: u32,
    call: &Call,
) -> Result<Reply, NoMemory>
    requires keeps { Keeps scenario.now machine.now sums.now }
    requires task { IsTaskOf machine.now task }
    requires replied { is_replied machine.now task call.now ≡ true }
    ensures { IfOk result (λ r. r ≡ store_reply scenario.now machine.now task call.now) }
{
    match call {
        Call::Create { bytes } => Ok(created(bytes.as_slice(), machine, scenario, task)),
        Call::GiveUp { name } => Ok(dropping(machine, scenario, task, *name)),
        Call::Extract { name, key } => extracting(alloc, machine, scenario, task, *name, *key),
        Call::Recipes { name } => telling_recipe(alloc, machine, scenario, task, *name),
        Call::Send { to, name, .. } => Ok(sending(machine, sums, scenario, task, *to, *name)),
        Call::Recv => Ok(receiving(machine, scenario, task)),
        Call::Extern { name, adding, n } => {
            Ok(counting(machine, sums, scenario, task, *name, *adding, *n))
        }
        Call::Charge { name, n } => Ok(charging(machine, scenario, task, *name, *n)),
        Call::Ledger => Ok(telling_ledger(machine, sums, scenario, task)),
        Call::Assertions => Ok(telling_assertions(machine, sums, scenario, task)),
        Call::Live => living(alloc, machine, sums, scenario, task),
        Call::Exit => Ok(Reply::Done),
    }
}
