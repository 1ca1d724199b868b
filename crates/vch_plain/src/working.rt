ghost use Rattle.std.specs.Prelude.{◌≡◌, ◌⊎◌, ◌++◌, Some, OnOk};
ghost use Rattle.vch_machine.specs.Frames.{with_frame};
ghost use Rattle.vch_machine.specs.Working as working;
ghost use Rattle.vch_plain.specs.Machines.{IsTaskOf};
ghost use Rattle.vch_plain.specs.Plans.{applied, fresh_work};

use crate::frames::refuse;
use crate::handles::Handles;
use crate::machine::Machine;
use crate::plans::{Planned, Work, carry_out, plan_record};
use crate::reading::step_at;
use crate::task::Frame;
use std::alloc::Global;
use vch_base::NoMemory;
use vch_model::Call;

/// The frame goes on behind a record that was carried out.
fn go_on(
    machine: &mut Machine,
    alloc: Global,
    version: u32,
    task: u32,
    frame: Frame,
    map: &Handles,
    planned: Planned,
) -> Result<(), NoMemory>
    requires task { IsTaskOf machine.old task }
    ensures { OnOk result (machine.new ≡ with_frame machine.old task (Some (record frame {
      forming = Some (applied version planned.plan (fresh_work map.now)).forming;
      at_byte = planned.next;
      lets = frame.lets ++ (applied version planned.plan (fresh_work map.now)).left;
    }))) }
{
    let mut frame = frame;
    let mut work = Work {
        forming: *map,
        left: Vec::new(alloc),
    };
    carry_out(&mut work, version, &planned.plan)?;
    frame.forming = Some(work.forming);
    frame.at_byte = planned.next;
    frame.lets.extend_from_slice(work.left.as_slice())?;
    machine.set_frame(task, Some(frame));
    Ok(())
}

/// Work of a create: its next record, which asks no manager.
pub fn do_work(
    machine: &mut Machine,
    alloc: Global,
    version: u32,
    task: u32,
    frame: Frame,
    map: &Handles,
    call: &Call,
) -> Result<(), NoMemory>
    requires version { (version ≡ 1) ⊎ (version ≡ 2) }
    requires task { IsTaskOf machine.old task }
    ensures { OnOk result (machine.new ≡ working.do_work version machine.old task frame map.now call.now) }
{
    let step = step_at(call, frame.at_byte);
    match plan_record(version, machine.task(task).names.as_slice(), &step, map) {
        Ok(planned) => go_on(machine, alloc, version, task, frame, map, planned),
        Err(code) => refuse(machine, task, frame, call, code.number()),
    }
}
