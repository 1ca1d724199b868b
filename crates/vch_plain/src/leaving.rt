ghost use Rattle.std.specs.Prelude.{◌≡◌, OnOk, length};
ghost use Rattle.vch_machine.specs.Frames as frames;
ghost use Rattle.vch_machine.specs.Leaving as leaving;
ghost use Rattle.vch_plain.specs.Machines.{IsTaskOf};

use crate::copy::copy_frame;
use crate::handles::Place;
use crate::held::{claims, expects, holds};
use crate::machine::Machine;
use crate::mint::release;
use crate::task::{Claim, Frame};
use crate::values::is_fixed_at;
use std::alloc::Global;
use vch_base::NoMemory;

/// A claim that begins: raced where a receipt for the place is under way.
fn new_claim(machine: &Machine, place: &Place) -> Claim
    ensures { result ≡ leaving.new_claim machine.now place.now }
{
    Claim {
        place: *place,
        raced: expects(machine.tasks.as_slice(), place),
        back: false,
        answer: None,
    }
}

/// The claim of the one that let a place go last: none for Default, for a held one, and where a claim is there.
fn claim_if(machine: &Machine, place: &Place) -> Option<Claim>
    ensures { result ≡ leaving.claim_if machine.now place.now }
{
    let tasks = machine.tasks.as_slice();
    if is_fixed_at(machine.live.as_slice(), place) || holds(tasks, place) || claims(tasks, place) {
        return None;
    }
    Some(new_claim(machine, place))
}

/// One claim more is counted, where there is one.
fn count_if(machine: &mut Machine, claim: &Option<Claim>) -> Result<(), NoMemory>
    ensures state { OnOk result (machine.new ≡ frames.tallied (leaving.more_claims claim.now) machine.old) }
    ensures tasks { OnOk result (length machine.new.tasks ≡ length machine.old.tasks) }
{
    match claim {
        Some(_) => machine.count_claim(),
        None => Ok(()),
    }
}

/// LetGo: the first place of those still to be let go, which is taken off the frame already.
#[tactic(auto, using(crate::proofs::Setting::frame_again))]
pub fn do_let_go(
    machine: &mut Machine,
    alloc: Global,
    task: u32,
    frame: Frame,
    place: &Place,
) -> Result<(), NoMemory>
    requires task { IsTaskOf machine.old task }
    ensures { OnOk result (machine.new ≡ leaving.do_let_go machine.old task frame place.now frame.lets) }
{
    let mut frame = frame;
    machine.set_frame(task, Some(copy_frame(alloc, &frame)?));
    frame.claim = claim_if(machine, place);
    count_if(machine, &frame.claim)?;
    machine.set_frame(task, frame.closed());
    Ok(())
}

/// Ask: a claim that is not raced is agreed, a raced one is refused.
pub fn do_ask(machine: &mut Machine, task: u32, frame: Frame, claim: Claim) -> Result<(), NoMemory>
    requires task { IsTaskOf machine.old task }
    ensures { OnOk result (machine.new ≡ leaving.do_ask machine.old task frame claim) }
{
    let mut frame = frame;
    let mut claim = claim;
    machine.count_ask()?;
    let agreed = !claim.raced;
    if agreed {
        release(machine, &claim.place)?;
    }
    claim.answer = Some(agreed);
    frame.claim = Some(claim);
    machine.set_frame(task, Some(frame));
    Ok(())
}

/// A claim that is back on a place that is not held begins anew, else it ends.
fn again(machine: &Machine, claim: &Claim) -> Option<Claim>
    ensures { result ≡ leaving.again machine.now claim.now }
{
    if claim.back && !holds(machine.tasks.as_slice(), &claim.place) {
        return Some(new_claim(machine, &claim.place));
    }
    None
}

/// Recheck: it looks at the claim again once it was asked.
pub fn do_recheck(machine: &mut Machine, task: u32, frame: Frame, claim: &Claim)
    requires task { IsTaskOf machine.old task }
    ensures { machine.new ≡ leaving.do_recheck machine.old task frame claim.now }
{
    let mut frame = frame;
    frame.claim = again(machine, claim);
    machine.set_frame(task, frame.closed());
}
