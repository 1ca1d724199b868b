ghost use Rattle.std.specs.Prelude.{◌≡◌, OnOk};
ghost use Rattle.vch_machine.specs.State as state;
ghost use Rattle.vch_machine.specs.Working as working;
ghost use Rattle.vch_plain.specs.Machines.{IsTaskOf};

use crate::lets::push_orphaned;
use crate::machine::Machine;
use crate::names::{handles_of, lowest};
use crate::task::Frame;
use vch_base::NoMemory;
use vch_model::{Call, Entry, Reply};

/// A name is given up with all its user references; its voucher's places are let go where no one has it any more.
fn do_gone(machine: &mut Machine, task: u32, frame: Frame, name: u32) -> Result<(), NoMemory>
    requires task { IsTaskOf machine.old task }
    ensures { OnOk result (machine.new ≡ working.do_gone machine.old task frame name) }
{
    let mut frame = frame;
    let voucher = handles_of(machine.task(task).names.as_slice(), name);
    machine.forget_name(task, name);
    push_orphaned(&mut frame.lets, machine, &voucher)?;
    machine.set_frame(task, Some(frame));
    machine.note(Entry::Gone { task, name })
}

/// With no name and no message left, the exit is answered.
fn do_left(machine: &mut Machine, task: u32, frame: Frame) -> Result<(), NoMemory>
    requires task { IsTaskOf machine.old task }
    ensures { OnOk result (machine.new ≡ working.do_left machine.old task frame) }
{
    let mut frame = frame;
    frame.answered = true;
    machine.set_frame(task, frame.closed());
    machine.reply(task, &Call::Exit, Reply::Done)
}

/// The first message is thrown away, where there is one.
fn exit_queue(machine: &mut Machine, task: u32, frame: Frame) -> Result<(), NoMemory>
    requires task { IsTaskOf machine.old task }
    ensures { OnOk result (machine.new ≡ working.exit_queue machine.old task frame (state.tasked machine.old task).queue) }
{
    let mut frame = frame;
    let Some(message) = machine.take_message(task) else {
        return do_left(machine, task, frame);
    };
    push_orphaned(&mut frame.lets, machine, &message.voucher)?;
    machine.set_frame(task, Some(frame));
    machine.note(Entry::Lost { task })
}

/// The event of an exit: it gives up its lowest name, else its first message, else it is answered.
pub fn do_exit(machine: &mut Machine, task: u32, frame: Frame) -> Result<(), NoMemory>
    requires task { IsTaskOf machine.old task }
    ensures { OnOk result (machine.new ≡ working.do_exit machine.old task frame) }
{
    match lowest(machine.task(task).names.as_slice()) {
        Some(name) => do_gone(machine, task, frame, name),
        None => exit_queue(machine, task, frame),
    }
}
