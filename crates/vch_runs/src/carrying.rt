ghost use Rattle.std.specs.Prelude.{◌≡◌, None, Some, IfSome, IsSome, IsTrue, false};
ghost use Rattle.vch_base.specs.declared.kind.Kind.TheVariants as kinds;
ghost use Rattle.vch_model.specs.Lines.{is_task};
ghost use Rattle.vch_machine.specs.Next.{nth_call};
ghost use Rattle.vch_machine.specs.State.{is_empty};
ghost use Rattle.vch_parts.specs.Framed.{begun_of, frame_of};
ghost use Rattle.vch_parts.specs.Nexts.{value_kind};
ghost use Rattle.vch_parts.specs.Reached.{IsNext, MayFollow, Reached};
ghost use Rattle.vch_runs.specs.Called.{HasNext, IsCarryingCall, IsOpenKind, IsWordOf, carried_kind, is_creating};
ghost use Rattle.vch_runs.specs.Said.{Says, word_said};

use crate::current::{begun_call, open_call};
use crate::said::Said;
use vch_base::Kind;
use vch_carry::{
    Sending, begin_assertions, begin_charge, begin_exit, begin_extern, begin_ledger, begin_live,
    begin_recv, begin_send, exit, place_recv, place_send,
};
use vch_making::make;
use vch_parts::Parts;
use vch_whole::Core;

/// A task begins one of the eight calls.
fn begin(parts: &mut Parts, task: u32)
    requires reached { Reached parts.old }
    requires task { IsTrue (is_task parts.old.scenario task) }
    requires next { IsNext parts.old task (Some kinds.Begin) }
    requires word { IsCarryingCall parts.old task }
    ensures { MayFollow kinds.Begin task parts.old parts.new }
{
    match begun_call(parts, task) {
        Said::Send {
            to,
            moving,
            name,
            id,
        } => begin_send(
            parts,
            task,
            Sending {
                to,
                moving,
                name,
                id,
            },
        ),
        Said::Recv => begin_recv(parts, task),
        Said::Extern { name, adding, n } => begin_extern(parts, task, name, adding, n),
        Said::Charge { name, n } => begin_charge(parts, task, name, n),
        Said::Ledger => begin_ledger(parts, task),
        Said::Assertions => begin_assertions(parts, task),
        Said::Live => begin_live(parts, task),
        Said::Exit => begin_exit(parts, task),
        _ => unreachable!(),
    }
}

/// Whether all keys were asked of the call that a task has under way.
fn has_asked(parts: &Parts, task: u32) -> bool
    requires reached { Reached parts.now }
    requires task { IsTrue (is_task parts.now.scenario task) }
    ensures { IfSome (frame_of parts.now.frames task) (λ f. result ≡ is_empty f.keys) }
{
    match &parts.frames.at(task).frame {
        Some(frame) => frame.keys.is_empty(),
        None => true,
    }
}

/// The next event of a call that is under way, by whether all its keys were asked.
fn carried_kind(call: Said, asked: bool) -> Kind
    ensures { result ≡ carried_kind call asked }
{
    match call {
        Said::Exit => Kind::Work,
        _ if asked => Kind::Place,
        _ => Kind::Make,
    }
}

/// The kind of the next event of one of the eight that is under way.
fn open_kind(parts: &Parts, task: u32, call: Said) -> Kind
    requires reached { Reached parts.now }
    requires task { IsTrue (is_task parts.now.scenario task) }
    requires under_way { IsSome (frame_of parts.now.frames task) }
    requires idle { value_kind (frame_of parts.now.frames task) ≡ None }
    requires next { HasNext parts.now task }
    requires says { Says call (nth_call parts.now.scenario task (begun_of parts.now.frames task)) }
    requires word { is_creating (word_said call) ≡ false }
    ensures next { IsNext parts.now task (Some result) }
    ensures carries { IsOpenKind result }
    ensures word { IsWordOf result (word_said call) }
{
    carried_kind(call, has_asked(parts, task))
}

/// An exit goes on by one thing that it gives up, or is answered.
fn work(parts: &mut Parts, task: u32, call: Said)
    requires reached { Reached parts.old }
    requires task { IsTrue (is_task parts.old.scenario task) }
    requires next { IsNext parts.old task (Some kinds.Work) }
    requires says { Says call (nth_call parts.old.scenario task (begun_of parts.old.frames task)) }
    requires word { IsWordOf kinds.Work (word_said call) }
    requires other { is_creating (word_said call) ≡ false }
    ensures { MayFollow kinds.Work task parts.old parts.new }
{
    match call {
        Said::Exit => exit(parts, task),
        _ => unreachable!(),
    }
}

/// A send or a receive gives the voucher that it formed to the queue or to a name.
fn place(parts: &mut Parts, task: u32, call: Said)
    requires reached { Reached parts.old }
    requires task { IsTrue (is_task parts.old.scenario task) }
    requires next { IsNext parts.old task (Some kinds.Place) }
    requires says { Says call (nth_call parts.old.scenario task (begun_of parts.old.frames task)) }
    requires word { IsWordOf kinds.Place (word_said call) }
    requires other { is_creating (word_said call) ≡ false }
    ensures { MayFollow kinds.Place task parts.old parts.new }
{
    match call {
        Said::Send {
            to,
            moving,
            name,
            id,
        } => place_send(
            parts,
            task,
            Sending {
                to,
                moving,
                name,
                id,
            },
        ),
        Said::Recv => place_recv(parts, task),
        _ => unreachable!(),
    }
}

/// One of the eight that is under way goes on. Its call is read once.
fn go_on(parts: &mut Parts, task: u32) -> Kind
    requires reached { Reached parts.old }
    requires task { IsTrue (is_task parts.old.scenario task) }
    requires under_way { IsSome (frame_of parts.old.frames task) }
    requires idle { value_kind (frame_of parts.old.frames task) ≡ None }
    requires next { HasNext parts.old task }
    requires word { IsCarryingCall parts.old task }
    ensures { MayFollow result task parts.old parts.new }
{
    let call = open_call(parts, task);
    let kind = open_kind(parts, task, call);
    match kind {
        Kind::Work => work(parts, task, call),
        Kind::Make => make(parts, task),
        Kind::Place => place(parts, task, call),
        _ => unreachable!(),
    }
    kind
}

/// The next event of one of the eight calls: it is begun, or goes on.
fn parts_event(parts: &mut Parts, task: u32) -> Kind
    requires reached { Reached parts.old }
    requires task { IsTrue (is_task parts.old.scenario task) }
    requires idle { value_kind (frame_of parts.old.frames task) ≡ None }
    requires next { HasNext parts.old task }
    requires word { IsCarryingCall parts.old task }
    ensures { MayFollow result task parts.old parts.new }
{
    if parts.frames.at(task).frame.is_some() {
        return go_on(parts, task);
    }
    begin(parts, task);
    Kind::Begin
}

/// The next event of a task where that is a Begin, Work, Make or Place of one of the other eight calls: send, recv, exit, ledger,
/// assertions, live, extern and charge. It returns which kind that was. Out of memory is a reply in the history, with the code 6.
///
/// It takes the time of that event.
pub fn carry_event(core: &mut Core, task: u32) -> Kind
    requires task { IsTrue (is_task core.old.scenario task) }
    requires idle { value_kind (frame_of core.old.frames task) ≡ None }
    requires next { HasNext core.old task }
    requires word { IsCarryingCall core.old task }
    ensures { MayFollow result task core.old core.new }
{
    parts_event(&mut core.parts, task)
}
