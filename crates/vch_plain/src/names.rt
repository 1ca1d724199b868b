ghost use Rattle.std.specs.Prelude.{◌≡◌, ◌<◌, ◌+◌, ◌-◌, nat_lt, true, OnOk, IfOk, length};
ghost use Rattle.std.specs.List.{list_any};
ghost use Rattle.vch_machine.specs.Naming as naming;
ghost use Rattle.vch_model.specs.Store as store;
ghost use Rattle.vch_machine.specs.State as machine;
ghost use Rattle.vch_plain.specs.Names.{IsPosition};

use crate::handles::{Handles, Place, option_has, option_same};
use crate::numbers::after;
use crate::task::{Message, Named, Tasked};
use vch_base::NoMemory;

/// The voucher of a name, or none where the name is not there.
pub fn handles_of(names: &[Named], name: u32) -> Option<Handles>
    ensures { result ≡ naming.handles_of names.now name }
{
    for named in names {
        if named.name == name {
            return Some(named.voucher);
        }
    }
    None
}

/// The name of a voucher, or none where no name has it.
pub fn name_of(names: &[Named], voucher: &Handles) -> Option<u32>
    ensures { result ≡ naming.name_of names.now voucher.now }
{
    for named in names {
        if named.voucher.same(voucher) {
            return Some(named.name);
        }
    }
    None
}

/// Whether a name has a voucher with the value at a place.
pub fn names_hold(names: &[Named], place: &Place) -> bool
    ensures { result ≡ list_any (λ (n : machine.Named). machine.has_place n.voucher place.now) names.now }
{
    for named in names {
        if named.voucher.has(place) {
            return true;
        }
    }
    false
}

/// Whether a name has a voucher.
pub fn names_know(names: &[Named], voucher: &Handles) -> bool
    ensures { result ≡ list_any (λ (n : machine.Named). naming.same_handles n.voucher voucher.now) names.now }
{
    for named in names {
        if named.voucher.same(voucher) {
            return true;
        }
    }
    false
}

/// Whether a message has a voucher with the value at a place.
pub fn queue_holds(queue: &[Message], place: &Place) -> bool
    ensures { result ≡ list_any (λ (q : machine.Message). machine.option_has q.voucher place.now) queue.now }
{
    for message in queue {
        if option_has(&message.voucher, place) {
            return true;
        }
    }
    false
}

/// Whether a message has a voucher.
pub fn queue_knows(queue: &[Message], voucher: &Handles) -> bool
    ensures { result ≡ list_any (λ (q : machine.Message). naming.option_same q.voucher voucher.now) queue.now }
{
    for message in queue {
        if option_same(&message.voucher, voucher) {
            return true;
        }
    }
    false
}

/// The lower of a name and of one that may not be there.
fn lower(name: u32, other: Option<u32>) -> u32
    ensures { result ≡ store.lower name other }
{
    match other {
        Some(least) => name.min(least),
        None => name,
    }
}

/// The lowest name, where there is one.
pub fn lowest(names: &[Named]) -> Option<u32>
    ensures { result ≡ naming.lowest names.now }
{
    let mut found = None;
    let mut i = names.len();
    while i > 0 {
        i -= 1;
        let named = &names[i];
        found = Some(lower(named.name, found));
    }
    found
}

/// Where a name stands among the names, or none where it is not there.
fn position(names: &[Named], name: u32) -> Option<usize>
    ensures { IsPosition names.now name result }
{
    for i in 0..names.len() {
        let named = &names[i];
        if named.name == name {
            return Some(i);
        }
    }
    None
}

/// One more reference to a name that was found.
fn add_reference(named: &mut Named) -> Result<(), NoMemory>
    ensures { OnOk result (named.new ≡ record named.old { refs = named.old.refs + 1 }) }
{
    named.refs = after(named.refs)?;
    Ok(())
}

/// One more user reference of a name.
pub fn one_more(names: &mut Vec<Named>, name: u32) -> Result<(), NoMemory>
    ensures { OnOk result (names.new.items ≡ naming.one_more names.old.items name) }
{
    match position(names.as_slice(), name) {
        Some(i) => add_reference(&mut names[i]),
        None => Ok(()),
    }
}

/// Whether a name has more than one user reference.
fn is_repeated(named: &Named) -> bool
    ensures { result ≡ nat_lt 1 named.now.refs }
{
    named.refs > 1
}

/// One reference less to a name that was found and has more than one.
fn take_reference(named: &mut Named)
    requires { nat_lt 1 named.old.refs ≡ true }
    ensures { named.new ≡ record named.old { refs = named.old.refs - 1 } }
{
    named.refs -= 1;
}

/// One user reference of a name less; the name is gone with its last.
pub fn one_less(names: &mut Vec<Named>, name: u32)
    ensures { names.new.items ≡ naming.one_less names.old.items name }
{
    let Some(i) = position(names.as_slice(), name) else {
        return;
    };
    if is_repeated(&names[i]) {
        take_reference(&mut names[i]);
    } else {
        names.remove(i);
    }
}

/// Without a name, whatever its user references.
pub fn without_name(names: &mut Vec<Named>, name: u32)
    ensures { names.new.items ≡ naming.without_name names.old.items name }
{
    if let Some(i) = position(names.as_slice(), name) {
        names.remove(i);
    }
}

/// Whether a name or a message of a task has a voucher.
fn task_knows(task: &Tasked, voucher: &Handles) -> bool
    ensures { result ≡ naming.task_knows voucher.now task.now }
{
    names_know(task.names.as_slice(), voucher) || queue_knows(task.queue.as_slice(), voucher)
}

/// Whether a name or a message of some task has a voucher.
pub fn knows(tasks: &[Tasked], voucher: &Handles) -> bool
    ensures { result ≡ list_any (naming.task_knows voucher.now) tasks.now }
{
    for task in tasks {
        if task_knows(task, voucher) {
            return true;
        }
    }
    false
}
