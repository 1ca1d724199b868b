ghost use Rattle.std.specs.Prelude.{◌≡◌, ◌++◌, ◌==◌, ◌||◌, nat_lt, if◌then◌else◌, Some, None, IsSome, OnOk, true, false};
ghost use Rattle.vch_base.specs.declared.key.Key.TheVariants as keys;
ghost use Rattle.vch_base.specs.declared.limits.TheConstants.{ARRAY_BYTES};
ghost use Rattle.vch_model.specs.Lines as lines;
ghost use Rattle.vch_model.specs.declared.call.Call.TheVariants as calls;
ghost use Rattle.vch_machine.specs.Beginning as beginning;
ghost use Rattle.vch_machine.specs.Frames as frames;
ghost use Rattle.vch_machine.specs.Naming as naming;
ghost use Rattle.vch_machine.specs.State as state;
ghost use Rattle.vch_script.specs.Places.{ArePlaces};
ghost use Rattle.vch_plain.specs.Begun.{IsOther, begun, begun_create, sent_named};
ghost use Rattle.vch_plain.specs.Keeping.{Keeps};
ghost use Rattle.vch_plain.specs.Machines.{IsTaskOf, HaveLimits};
ghost use Rattle.vch_plain.specs.Replied.{is_replied};

use crate::handles::Handles;
use crate::lets::push_orphaned;
use crate::machine::Machine;
use crate::names::handles_of;
use crate::numbers::after;
use crate::placing::is_full;
use crate::reply::reply;
use crate::task::{Frame, Message};
use std::alloc::Global;
use vch_base::limits::ARRAY_BYTES;
use vch_base::{Key, NoMemory};
use vch_model::{Call, Reply, Scenario};
use vch_script::Places;
use vch_sums::Sums;

/// A call that is answered at once, and changes nothing.
fn answer_now(
    machine: &mut Machine,
    alloc: Global,
    sums: &Sums,
    scenario: &Scenario,
    task: u32,
    call: &Call,
) -> Result<(), NoMemory>
    requires keeps { Keeps scenario.now machine.old sums.now }
    requires task { IsTaskOf machine.old task }
    requires replied { is_replied machine.old task call.now ≡ true }
    ensures { OnOk result (machine.new ≡ frames.replied (begun machine.old task) task call.now (beginning.store_reply scenario.now machine.old task call.now)) }
{
    let answer = reply(alloc, machine, sums, scenario, task, call)?;
    machine.begin(task)?;
    machine.reply(task, call, answer)
}

/// A call that begins a frame.
fn begin_frame(machine: &mut Machine, task: u32, frame: Frame) -> Result<(), NoMemory>
    requires task { IsTaskOf machine.old task }
    ensures { OnOk result (machine.new ≡ frames.with_frame (begun machine.old task) task (Some frame)) }
{
    machine.begin(task)?;
    machine.set_frame(task, Some(frame));
    Ok(())
}

/// A name is dropped: one user reference is given up, and with the last of a voucher that no one else has, a frame lets its
/// places go.
fn drop_call(
    machine: &mut Machine,
    alloc: Global,
    task: u32,
    call: &Call,
    answer: Reply,
    name: u32,
) -> Result<(), NoMemory>
    requires task { IsTaskOf machine.old task }
    ensures { OnOk result (machine.new ≡ beginning.dropped machine.old task call.now answer (naming.handles_of (state.tasked machine.old task).names name) name) }
{
    let voucher = handles_of(machine.task(task).names.as_slice(), name);
    machine.drop_name(task, name);
    let mut lets = Vec::new(alloc);
    push_orphaned(&mut lets, machine, &voucher)?;
    machine.set_frame(task, Frame::leaving(alloc, lets).closed());
    machine.reply(task, call, answer)
}

/// A drop of a name.
fn begin_drop(
    machine: &mut Machine,
    alloc: Global,
    sums: &Sums,
    scenario: &Scenario,
    task: u32,
    call: &Call,
    name: u32,
) -> Result<(), NoMemory>
    requires keeps { Keeps scenario.now machine.old sums.now }
    requires task { IsTaskOf machine.old task }
    requires replied { is_replied machine.old task call.now ≡ true }
    ensures { OnOk result (machine.new ≡ beginning.dropped (begun machine.old task) task call.now (beginning.store_reply scenario.now machine.old task call.now) (naming.handles_of (state.tasked (begun machine.old task) task).names name) name) }
{
    let answer = reply(alloc, machine, sums, scenario, task, call)?;
    machine.begin(task)?;
    drop_call(machine, alloc, task, call, answer, name)
}

/// Appends a key that is to be asked, where the voucher has a value there.
fn push_key(keys: &mut Vec<Key>, key: Key, handle: Option<u32>) -> Result<(), NoMemory>
    ensures { OnOk result (keys.new.items ≡ keys.old.items ++ beginning.key_if key handle) }
{
    if handle.is_some() {
        keys.push(key)?;
    }
    Ok(())
}

/// The voucher of the first message of a task, or none.
fn first_voucher(queue: &[Message]) -> Option<Handles>
    ensures { result ≡ beginning.first_voucher queue.now }
{
    let message = queue.first()?;
    message.voucher
}

/// A recv of a voucher: importance and the bank are to be asked.
fn form_recv(
    machine: &mut Machine,
    alloc: Global,
    task: u32,
    voucher: &Handles,
) -> Result<(), NoMemory>
    requires task { IsTaskOf machine.old task }
    ensures { OnOk result (machine.new ≡ frames.with_frame (begun machine.old task) task (Some (beginning.fresh_frame voucher.now (beginning.key_if keys.Importance voucher.now.importance ++ beginning.key_if keys.Bank voucher.now.bank)))) }
{
    let mut asked = Vec::new(alloc);
    push_key(&mut asked, Key::Importance, voucher.importance)?;
    push_key(&mut asked, Key::Bank, voucher.bank)?;
    begin_frame(machine, task, Frame::fresh(alloc, voucher, asked))
}

/// A recv of no message, or of one without a voucher, is answered.
fn recv_nothing(
    machine: &mut Machine,
    task: u32,
    call: &Call,
    answer: Reply,
) -> Result<(), NoMemory>
    requires task { IsTaskOf machine.old task }
    ensures { OnOk result (machine.new ≡ frames.replied (beginning.dequeued machine.old task (state.tasked machine.old task).queue) task call.now answer) }
{
    machine.take_message(task);
    machine.reply(task, call, answer)
}

/// A recv.
#[tactic(auto, using(crate::proofs::Setting::task_own))]
fn begin_recv(
    machine: &mut Machine,
    alloc: Global,
    sums: &Sums,
    scenario: &Scenario,
    task: u32,
    call: &Call,
) -> Result<(), NoMemory>
    requires keeps { Keeps scenario.now machine.old sums.now }
    requires task { IsTaskOf machine.old task }
    requires call { call.now ≡ calls.Recv }
    ensures { OnOk result (machine.new ≡ beginning.begin_recv (begun machine.old task) task call.now (beginning.store_reply scenario.now machine.old task call.now) (beginning.first_voucher (state.tasked machine.old task).queue)) }
{
    match first_voucher(machine.task(task).queue.as_slice()) {
        Some(voucher) => form_recv(machine, alloc, task, &voucher),
        None => {
            let answer = reply(alloc, machine, sums, scenario, task, call)?;
            machine.begin(task)?;
            recv_nothing(machine, task, call, answer)
        }
    }
}

/// A send of no voucher: its message is queued where there is room.
fn send_nothing(
    machine: &mut Machine,
    scenario: &Scenario,
    task: u32,
    call: &Call,
    to: u32,
    id: u32,
    answer: Reply,
) -> Result<(), NoMemory>
    requires task { IsTaskOf machine.old task }
    requires to { IsTaskOf machine.old to }
    requires limits { HaveLimits scenario.now machine.old }
    ensures { OnOk result (machine.new ≡ frames.replied (if beginning.is_full scenario.now machine.old to then machine.old else beginning.enqueued machine.old to (record { sender = task; id = id; voucher = None })) task call.now answer) }
{
    if !is_full(scenario, machine, to) {
        machine.enqueue(
            to,
            Message {
                sender: task,
                id,
                voucher: None,
            },
        )?;
    }
    machine.reply(task, call, answer)
}

/// A send of a named voucher: the bank is to be asked.
fn form_send(
    machine: &mut Machine,
    alloc: Global,
    task: u32,
    voucher: &Handles,
) -> Result<(), NoMemory>
    requires task { IsTaskOf machine.old task }
    ensures { OnOk result (machine.new ≡ frames.with_frame (begun machine.old task) task (Some (beginning.fresh_frame voucher.now (beginning.key_if keys.Bank voucher.now.bank)))) }
{
    let mut asked = Vec::new(alloc);
    push_key(&mut asked, Key::Bank, voucher.bank)?;
    begin_frame(machine, task, Frame::fresh(alloc, voucher, asked))
}

/// Whether a number is that of a task.
fn is_task(scenario: &Scenario, task: u32) -> bool
    ensures { result ≡ lines.is_task scenario.now task }
{
    task > 0 && task as usize <= scenario.flags.len()
}

/// A send of a voucher by its name.
#[tactic(auto, using(crate::proofs::Setting::task_own))]
fn send_named(
    machine: &mut Machine,
    alloc: Global,
    sums: &Sums,
    scenario: &Scenario,
    task: u32,
    call: &Call,
    name: u32,
) -> Result<(), NoMemory>
    requires keeps { Keeps scenario.now machine.old sums.now }
    requires task { IsTaskOf machine.old task }
    requires replied { is_replied machine.old task call.now ≡ true }
    ensures { OnOk result (machine.new ≡ sent_named scenario.now machine.old task call.now (naming.handles_of (state.tasked machine.old task).names name)) }
{
    match handles_of(machine.task(task).names.as_slice(), name) {
        Some(voucher) => form_send(machine, alloc, task, &voucher),
        None => answer_now(machine, alloc, sums, scenario, task, call),
    }
}

/// A send.
fn begin_send(
    machine: &mut Machine,
    alloc: Global,
    sums: &Sums,
    scenario: &Scenario,
    task: u32,
    call: &Call,
    to: u32,
    name: u32,
    id: u32,
) -> Result<(), NoMemory>
    requires keeps { Keeps scenario.now machine.old sums.now }
    requires task { IsTaskOf machine.old task }
    requires limits { HaveLimits scenario.now machine.old }
    requires replied { is_replied machine.old task call.now ≡ true }
    ensures { OnOk result (machine.new ≡ beginning.begin_send scenario.now (begun machine.old task) task call.now to name id (beginning.store_reply scenario.now machine.old task call.now) (naming.handles_of (state.tasked machine.old task).names name)) }
{
    if !is_task(scenario, to) {
        return answer_now(machine, alloc, sums, scenario, task, call);
    }
    if name != 0 {
        return send_named(machine, alloc, sums, scenario, task, call, name);
    }
    let answer = reply(alloc, machine, sums, scenario, task, call)?;
    machine.begin(task)?;
    send_nothing(machine, scenario, task, call, to, id, answer)
}

/// A create: one of no bytes, or of too many, is answered; else its voucher is formed.
fn begin_create(
    machine: &mut Machine,
    alloc: Global,
    sums: &Sums,
    scenario: &Scenario,
    task: u32,
    call: &Call,
    size: usize,
) -> Result<(), NoMemory>
    requires keeps { Keeps scenario.now machine.old sums.now }
    requires task { IsTaskOf machine.old task }
    requires replied { is_replied machine.old task call.now ≡ ((size == 0) || nat_lt ARRAY_BYTES size) }
    ensures { OnOk result (machine.new ≡ begun_create scenario.now machine.old task call.now size) }
{
    if size == 0 || size > ARRAY_BYTES {
        return answer_now(machine, alloc, sums, scenario, task, call);
    }
    begin_frame(
        machine,
        task,
        Frame::fresh(alloc, &Handles::none(), Vec::new(alloc)),
    )
}

/// A call that only asks, counts or charges.
#[tactic(auto, using(crate::proofs::Answering::others_replied, crate::proofs::Answering::others_begin))]
fn answer_other(
    machine: &mut Machine,
    alloc: Global,
    sums: &Sums,
    scenario: &Scenario,
    task: u32,
    call: &Call,
) -> Result<(), NoMemory>
    requires keeps { Keeps scenario.now machine.old sums.now }
    requires task { IsTaskOf machine.old task }
    requires other { IsOther call.now }
    ensures { OnOk result (machine.new ≡ beginning.begin_call scenario.now false (begun machine.old task) task call.now (beginning.store_reply scenario.now machine.old task call.now)) }
{
    answer_now(machine, alloc, sums, scenario, task, call)
}

/// A call of a task begins.
#[tactic(auto, using(crate::proofs::Setting::task_own))]
fn begin_call(
    machine: &mut Machine,
    alloc: Global,
    sums: &Sums,
    scenario: &Scenario,
    task: u32,
    call: &Call,
) -> Result<(), NoMemory>
    requires keeps { Keeps scenario.now machine.old sums.now }
    requires task { IsTaskOf machine.old task }
    requires limits { HaveLimits scenario.now machine.old }
    ensures { OnOk result (machine.new ≡ beginning.begin_call scenario.now false (begun machine.old task) task call.now (beginning.store_reply scenario.now machine.old task call.now)) }
{
    match call {
        Call::Create { bytes } => begin_create(
            machine,
            alloc,
            sums,
            scenario,
            task,
            call,
            bytes.as_slice().len(),
        ),
        Call::GiveUp { name } => begin_drop(machine, alloc, sums, scenario, task, call, *name),
        Call::Send { to, name, id, .. } => {
            begin_send(machine, alloc, sums, scenario, task, call, *to, *name, *id)
        }
        Call::Recv => begin_recv(machine, alloc, sums, scenario, task, call),
        Call::Exit => begin_frame(machine, task, Frame::exiting(alloc)),
        _ => answer_other(machine, alloc, sums, scenario, task, call),
    }
}

/// Begin: a task takes its next call.
pub fn do_begin(
    machine: &mut Machine,
    alloc: Global,
    sums: &Sums,
    scenario: &Scenario,
    places: &Places,
    task: u32,
) -> Result<(), NoMemory>
    requires keeps { Keeps scenario.now machine.old sums.now }
    requires places { ArePlaces scenario.now places.now }
    requires task { IsTaskOf machine.old task }
    requires limits { HaveLimits scenario.now machine.old }
    requires can { IsSome (beginning.do_begin scenario.now false machine.old task) }
    ensures { OnOk result (beginning.do_begin scenario.now false machine.old task ≡ Some machine.new) }
{
    let number = after(machine.task(task).begun)?;
    let Some(call) = places.call(scenario, task, number) else {
        unreachable!()
    };
    begin_call(machine, alloc, sums, scenario, task, call)
}
