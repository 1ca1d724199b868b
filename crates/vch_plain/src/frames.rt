ghost use Rattle.std.specs.Prelude.{◌≡◌, OnOk};
ghost use Rattle.vch_machine.specs.Frames as frames;
ghost use Rattle.vch_plain.specs.Machines.{IsTaskOf};

use crate::lets::push_option_places;
use crate::machine::Machine;
use crate::task::Frame;
use vch_base::{Code, NoMemory};
use vch_model::{Call, Reply};

/// A call with a frame is refused: what it formed is let go.
pub fn refuse(
    machine: &mut Machine,
    task: u32,
    frame: Frame,
    call: &Call,
    code: i32,
) -> Result<(), NoMemory>
    requires task { IsTaskOf machine.old task }
    ensures { OnOk result (machine.new ≡ frames.refuse machine.old task frame call.now code) }
{
    let mut frame = frame;
    let forming = frame.forming.take();
    push_option_places(&mut frame.lets, &forming)?;
    frame.answered = true;
    frame.keys.clear();
    machine.set_frame(task, frame.closed());
    machine.reply(
        task,
        call,
        Reply::Refused {
            code: Code::of(code),
        },
    )
}
