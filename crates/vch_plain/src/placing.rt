ghost use Rattle.std.specs.Prelude.{◌≡◌, [], OnOk, length};
ghost use Rattle.vch_machine.specs.Beginning as beginning;
ghost use Rattle.vch_machine.specs.Frames as frames;
ghost use Rattle.vch_machine.specs.Placing as placing;
ghost use Rattle.vch_machine.specs.State as state;
ghost use Rattle.vch_plain.specs.Machines.{IsTaskOf, HasLimit};

use crate::handles::Handles;
use crate::lets::{push_doubled, push_orphaned};
use crate::machine::Machine;
use crate::names::handles_of;
use crate::task::{Frame, Message};
use vch_base::NoMemory;
use vch_model::{Call, Reply, Scenario};

/// Whether the queue of a task has as many messages as it may.
pub fn is_full(scenario: &Scenario, machine: &Machine, to: u32) -> bool
    requires task { IsTaskOf machine.now to }
    requires limit { HasLimit scenario.now to }
    ensures { result ≡ beginning.is_full scenario.now machine.now to }
{
    let limit = *scenario.queues.at(to as usize - 1);
    machine.task(to).queue.len() >= limit as usize
}

/// The frame of a call that is answered now: nothing is formed any more.
fn ended(frame: Frame) -> Option<Frame>
    ensures { result ≡ placing.ended frame [] }
{
    let mut frame = frame;
    frame.forming = None;
    frame.answered = true;
    frame.keys.clear();
    frame.closed()
}

/// The end of a create: the voucher gets a name of the task.
pub fn place_create(
    machine: &mut Machine,
    task: u32,
    frame: Frame,
    voucher: &Handles,
    call: &Call,
) -> Result<(), NoMemory>
    requires task { IsTaskOf machine.old task }
    ensures { OnOk result (machine.new ≡ placing.place_create machine.old task frame voucher.now call.now) }
{
    let mut frame = frame;
    push_doubled(&mut frame.lets, machine, voucher)?;
    let name = machine.give_name(task, voucher)?;
    machine.set_frame(task, ended(frame));
    machine.reply(task, call, Reply::Created { name })
}

/// A send that moves its name takes one user reference of it.
fn move_name(machine: &mut Machine, task: u32, moving: bool, name: u32)
    requires task { IsTaskOf machine.old task }
    ensures state { machine.new ≡ placing.moved_name machine.old task moving name }
    ensures tasks { length machine.new.tasks ≡ length machine.old.tasks }
{
    if moving {
        machine.drop_name(task, name);
    }
}

/// The end of a send: the voucher is queued in a message.
pub fn place_send(
    machine: &mut Machine,
    task: u32,
    frame: Frame,
    voucher: &Handles,
    call: &Call,
    to: u32,
    moving: bool,
    name: u32,
    id: u32,
) -> Result<(), NoMemory>
    requires task { IsTaskOf machine.old task }
    requires to { IsTaskOf machine.old to }
    ensures { OnOk result (machine.new ≡ placing.place_send machine.old task frame voucher.now call.now to moving name id) }
{
    let mut frame = frame;
    push_doubled(&mut frame.lets, machine, voucher)?;
    let named = handles_of(machine.task(task).names.as_slice(), name);
    let message = Message {
        sender: task,
        id,
        voucher: Some(*voucher),
    };
    machine.enqueue(to, message)?;
    move_name(machine, task, moving, name);
    push_orphaned(&mut frame.lets, machine, &named)?;
    machine.set_frame(task, ended(frame));
    machine.reply(task, call, Reply::Done)
}

/// The end of a recv: the first message is taken, and the voucher gets a name.
pub fn place_recv(
    machine: &mut Machine,
    task: u32,
    frame: Frame,
    voucher: &Handles,
    call: &Call,
) -> Result<(), NoMemory>
    requires task { IsTaskOf machine.old task }
    ensures { OnOk result (machine.new ≡ placing.place_recv machine.old task frame voucher.now call.now (state.tasked machine.old task).queue) }
{
    let mut frame = frame;
    push_doubled(&mut frame.lets, machine, voucher)?;
    let Some(received) = machine.receive(task, voucher)? else {
        return Ok(());
    };
    let message = &received.message;
    push_orphaned(&mut frame.lets, machine, &message.voucher)?;
    machine.set_frame(task, ended(frame));
    machine.reply(
        task,
        call,
        Reply::Received {
            sender: message.sender,
            id: message.id,
            name: received.name,
        },
    )
}
