ghost use Rattle.std.specs.Prelude.{◌≡◌, List, ℕ, None, Some, IsSome, IsTrue};
ghost use Rattle.vch_base.specs.declared.kind.Kind.TheVariants as kinds;
ghost use Rattle.vch_model.specs.declared.call.Call.TheVariants as calls;
ghost use Rattle.vch_model.specs.Lines.{is_task};
ghost use Rattle.vch_machine.specs.Next.{nth_call};
ghost use Rattle.vch_parts.specs.Framed.{begun_of, frame_of};
ghost use Rattle.vch_parts.specs.Nexts.{value_kind};
ghost use Rattle.vch_parts.specs.Reached.{IsNext, MayFollow, Reached};
ghost use Rattle.vch_runs.specs.Called.{HasNext, IsCreatingCall, IsOpenKind};

use crate::current::begun_call;
use crate::said::Said;
use std::alloc::Global;
use vch_base::Kind;
use vch_creating::{begin_create, begin_drop, begin_extract, begin_recipes, place_create, work};
use vch_making::make;
use vch_parts::Parts;
use vch_whole::Core;

/// A task begins a create, a drop, an extract or a recipes.
fn begin(parts: &mut Parts, alloc: Global, task: u32)
    requires reached { Reached parts.old }
    requires task { IsTrue (is_task parts.old.scenario task) }
    requires next { IsNext parts.old task (Some kinds.Begin) }
    requires word { IsCreatingCall parts.old task }
    ensures { MayFollow kinds.Begin task parts.old parts.new }
{
    match begun_call(parts, task) {
        Said::Create { size } => begin_create(parts, task, size),
        Said::GiveUp { name } => begin_drop(parts, task, name),
        Said::Extract { name, key } => begin_extract(parts, alloc, task, name, key),
        Said::Recipes { name } => begin_recipes(parts, alloc, task, name),
        _ => unreachable!(),
    }
}

/// The kind of the next event of one of the four that is under way, which is a create.
fn open_kind(parts: &Parts, task: u32) -> Kind
    requires reached { Reached parts.now }
    requires task { IsTrue (is_task parts.now.scenario task) }
    requires under_way { IsSome (frame_of parts.now.frames task) }
    requires idle { value_kind (frame_of parts.now.frames task) ≡ None }
    requires next { HasNext parts.now task }
    requires word { IsCreatingCall parts.now task }
    ensures next { IsNext parts.now task (Some result) }
    ensures carries { IsOpenKind result }
    ensures create { (bytes : List ℕ) × (nth_call parts.now.scenario task (begun_of parts.now.frames task) ≡ Some (calls.Create bytes)) }
{
    match parts.next_kind(task) {
        Some(kind) => kind,
        None => unreachable!(),
    }
}

/// A create that is under way goes on: by a record that asks no manager, or one that asks, or with the name of its voucher.
fn go_on(parts: &mut Parts, task: u32) -> Kind
    requires reached { Reached parts.old }
    requires task { IsTrue (is_task parts.old.scenario task) }
    requires under_way { IsSome (frame_of parts.old.frames task) }
    requires idle { value_kind (frame_of parts.old.frames task) ≡ None }
    requires next { HasNext parts.old task }
    requires word { IsCreatingCall parts.old task }
    ensures { MayFollow result task parts.old parts.new }
{
    let kind = open_kind(parts, task);
    match kind {
        Kind::Work => work(parts, task),
        Kind::Make => make(parts, task),
        Kind::Place => place_create(parts, task),
        _ => unreachable!(),
    }
    kind
}

/// The next event of one of the four calls: it is begun, or goes on.
fn parts_event(parts: &mut Parts, alloc: Global, task: u32) -> Kind
    requires reached { Reached parts.old }
    requires task { IsTrue (is_task parts.old.scenario task) }
    requires idle { value_kind (frame_of parts.old.frames task) ≡ None }
    requires next { HasNext parts.old task }
    requires word { IsCreatingCall parts.old task }
    ensures { MayFollow result task parts.old parts.new }
{
    if parts.frames.at(task).frame.is_some() {
        return go_on(parts, task);
    }
    begin(parts, alloc, task);
    Kind::Begin
}

/// The next event of a task where that is a Begin, Work, Make or Place of a create, a drop, an extract or a recipes. It returns
/// which kind that was. Out of memory is a reply in the history, with the code 6.
///
/// It takes the time of that event.
pub fn create_event(core: &mut Core, alloc: Global, task: u32) -> Kind
    requires task { IsTrue (is_task core.old.scenario task) }
    requires idle { value_kind (frame_of core.old.frames task) ≡ None }
    requires next { HasNext core.old task }
    requires word { IsCreatingCall core.old task }
    ensures { MayFollow result task core.old core.new }
{
    parts_event(&mut core.parts, alloc, task)
}
