ghost use Rattle.std.specs.Prelude.{◌≡◌, [], ◌∷◌, IfOk};
ghost use Rattle.vch_base.specs.Managers.{no_flags};
ghost use Rattle.vch_model.specs.Canonical.{IsWritable};

use crate::{report_of, write};
use std::alloc::Global;
use vch_base::limits::USUAL_QUEUE;
use vch_base::{Flags, NoMemory};
use vch_model::{FlagList, LineList, PhaseList, QueueList, Scenario};
use vch_script::Script;
use vch_whole::Core;

/// A run of two tasks without a call.
const STILL: &str = "\
report 1
phase
phase
task 1 ledger 0 held 0 out 0
task 2 ledger 0 held 0 out 0
vouchers 0 values 1
end
";

/// A scenario of two tasks and two phases without a call.
fn still(alloc: Global) -> Result<Scenario, NoMemory>
    ensures version { IfOk result (λ sc. sc.version ≡ 1) }
    ensures flags { IfOk result (λ sc. sc.flags ≡ no_flags ∷ no_flags ∷ []) }
    ensures queues { IfOk result (λ sc. sc.queues ≡ 5 ∷ 5 ∷ []) }
    ensures phases { IfOk result (λ sc. sc.phases ≡ [] ∷ [] ∷ []) }
{
    let none = Flags {
        donor: false,
        receiver: false,
    };
    let mut flags = FlagList::new(alloc);
    flags.push(none)?;
    flags.push(none)?;
    let mut phases = PhaseList::new(alloc);
    phases.push(LineList::new(alloc))?;
    phases.push(LineList::new(alloc))?;
    let mut queues = QueueList::new(alloc);
    queues.push(USUAL_QUEUE)?;
    queues.push(USUAL_QUEUE)?;
    Ok(Scenario {
        version: 1,
        flags,
        queues,
        phases,
    })
}

/// A core at its start.
fn started(alloc: Global) -> Result<Core, NoMemory>
    ensures { IfOk result (λ core. IsWritable core.scenario) }
{
    let script = Script::new(alloc, still(alloc)?)?;
    Core::start(alloc, script)
}

#[test]
fn report_of_a_core_that_has_ended(rt: HostRuntime) {
    let alloc = rt.alloc();
    let Ok(mut core) = started(alloc) else {
        panic!(rt; "no memory");
    };
    assert!(rt; core.next_phase());
    assert!(rt; core.next_phase());
    assert!(rt; core.ended());
    let Ok(report) = report_of(alloc, &core) else {
        panic!(rt; "no memory");
    };
    let Ok(text) = write(alloc, &report) else {
        panic!(rt; "no memory");
    };
    assert_eq!(rt; text.as_slice(), STILL.as_bytes());
}
