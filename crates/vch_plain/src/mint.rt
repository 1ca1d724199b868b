ghost use Rattle.std.specs.Prelude.{◌≡◌, IfOk, OnOk};
ghost use Rattle.vch_base.specs.Keyed.{of_key};
ghost use Rattle.vch_machine.specs.Leaving as leaving;
ghost use Rattle.vch_machine.specs.Making as making;
ghost use Rattle.vch_plain.specs.Answers.{HasTask};

use crate::copy::copy_value;
use crate::handles::Place;
use crate::machine::Machine;
use crate::numbers::entry_number;
use crate::values::{Living, made_at, remove};
use std::alloc::Global;
use vch_base::{Key, NoMemory, Value};
use vch_model::Entry;

/// A value is made live at a new handle, and a Made entry is appended.
pub fn mint(machine: &mut Machine, alloc: Global, key: Key, value: Value) -> Result<u32, NoMemory>
    requires task { HasTask value }
    ensures handle { IfOk result (λ handle. handle ≡ making.fresh_handle (of_key key machine.old.pools)) }
    ensures state { OnOk result (machine.new ≡ making.minted machine.old key value) }
{
    let made = entry_number(machine.history.len())?;
    let handle = machine.pools.take(key)?;
    let copy = copy_value(alloc, &value)?;
    machine.live.push(Living {
        place: Place { key, handle },
        value: copy,
        made,
    })?;
    machine.note(Entry::Made {
        key: key.number(),
        value,
    })?;
    Ok(handle)
}

/// The value at a place is given back, and a Released entry with the number of its Made entry is appended.
pub fn release(machine: &mut Machine, place: &Place) -> Result<(), NoMemory>
    ensures { OnOk result (machine.new ≡ leaving.released machine.old place.now) }
{
    let made = made_at(machine.live.as_slice(), place);
    remove(&mut machine.live, place);
    machine.pools.give_back(place.key, place.handle)?;
    machine.note(Entry::Released { made })
}
