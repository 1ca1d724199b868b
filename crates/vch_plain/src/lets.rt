ghost use Rattle.std.specs.Prelude.{◌≡◌, ◌++◌, OnOk};
ghost use Rattle.vch_machine.specs.Naming as naming;

use crate::handles::{Handles, Place};
use crate::machine::Machine;
use crate::names::knows;
use vch_base::{Key, NoMemory};

/// Appends the place of a handle of a key, where there is one.
pub fn push_item(lets: &mut Vec<Place>, key: Key, handle: Option<u32>) -> Result<(), NoMemory>
    ensures { OnOk result (lets.new.items ≡ lets.old.items ++ naming.item key handle) }
{
    if let Some(handle) = handle {
        lets.push(Place { key, handle })?;
    }
    Ok(())
}

/// Appends the places of a voucher, in rising key.
pub fn push_places(lets: &mut Vec<Place>, voucher: &Handles) -> Result<(), NoMemory>
    ensures { OnOk result (lets.new.items ≡ lets.old.items ++ naming.places voucher.now) }
{
    push_item(lets, Key::Importance, voucher.importance)?;
    push_item(lets, Key::Bank, voucher.bank)?;
    push_item(lets, Key::User, voucher.user)?;
    push_item(lets, Key::Test, voucher.test)
}

/// The same where there may be none.
pub fn push_option_places(lets: &mut Vec<Place>, voucher: &Option<Handles>) -> Result<(), NoMemory>
    ensures { OnOk result (lets.new.items ≡ lets.old.items ++ naming.option_places voucher.now) }
{
    match voucher {
        Some(handles) => push_places(lets, handles),
        None => Ok(()),
    }
}

/// Appends the places of a voucher that no name and no message has any more.
pub fn push_orphaned(
    lets: &mut Vec<Place>,
    machine: &Machine,
    voucher: &Option<Handles>,
) -> Result<(), NoMemory>
    ensures { OnOk result (lets.new.items ≡ lets.old.items ++ naming.orphaned machine.now voucher.now) }
{
    let Some(handles) = voucher else {
        return Ok(());
    };
    if knows(machine.tasks.as_slice(), handles) {
        return Ok(());
    }
    push_places(lets, handles)
}

/// Appends the places of a voucher that a name or a message has already.
pub fn push_doubled(
    lets: &mut Vec<Place>,
    machine: &Machine,
    voucher: &Handles,
) -> Result<(), NoMemory>
    ensures { OnOk result (lets.new.items ≡ lets.old.items ++ naming.doubled machine.now voucher.now) }
{
    if knows(machine.tasks.as_slice(), voucher) {
        return push_places(lets, voucher);
    }
    Ok(())
}
