ghost use Rattle.std.specs.Prelude.{◌≡◌, ◌==◌, ◌&&◌, IfOk, OnOk};
ghost use Rattle.std.specs.Option.{option_copied};
ghost use Rattle.vch_base.specs.Keyed.{of_key, with_key};
ghost use Rattle.vch_base.specs.Keys.{number_of};
ghost use Rattle.vch_base.specs.Values as values;
ghost use Rattle.vch_machine.specs.Leaving as leaving;
ghost use Rattle.vch_machine.specs.Making as making;
ghost use Rattle.vch_machine.specs.State as machine;

use crate::handles::Place;
use crate::numbers::after;
use std::marker::Model;
use vch_base::{Key, NoMemory, Value};

/// A live value at its handle, and the number of its Made entry; Default has none, written 0.
#[derive(Drop)]
pub struct Living {
    pub place: Place,
    pub value: Value,
    pub made: u32,
}

impl Model for Living {
    ghost use Rattle.vch_machine.specs.State as machine;

    ghost Value = { machine.Living };

    ghost view = { λ l. record { place = l.place; value = l.value; made = l.made } };
}

/// The free handles of a key, the one released last at the end, and how many were ever used.
#[derive(Drop)]
pub struct Pool {
    pub free: Vec<u32>,
    pub used: u32,
}

impl Model for Pool {
    ghost use Rattle.std.specs.Prelude.{reverse};
    ghost use Rattle.vch_machine.specs.State as machine;

    ghost Value = { machine.Pool };

    ghost view = { λ p. record { free = reverse p.free.items; used = p.used } };
}

impl Pool {
    /// Takes a handle for a new value: the one released last, else one that was never used.
    fn take(&mut self) -> Result<u32, NoMemory>
        ensures handle { IfOk result (λ handle. handle ≡ making.fresh_handle self.old) }
        ensures pool { OnOk result (self.new ≡ making.fewer_free self.old) }
    {
        if let Some(handle) = self.free.pop() {
            return Ok(handle);
        }
        let handle = self.used;
        self.used = after(handle)?;
        Ok(handle)
    }

    /// A handle is free again, and the first to be used.
    fn give_back(&mut self, handle: u32) -> Result<(), NoMemory>
        ensures { OnOk result (self.new ≡ leaving.more_free self.old handle) }
    {
        self.free.push(handle)?;
        Ok(())
    }
}

/// The handles of each key.
#[derive(Drop)]
pub struct Pools {
    pub importance: Pool,
    pub bank: Pool,
    pub user: Pool,
    pub test: Pool,
}

impl Model for Pools {
    ghost use Rattle.vch_base.specs.Keyed.{Keyed};
    ghost use Rattle.vch_machine.specs.State as machine;

    ghost Value = { Keyed machine.Pool };

    ghost view = { λ p. record { importance = p.importance; bank = p.bank; user = p.user; test = p.test } };
}

impl Pools {
    /// Takes a handle of a key for a new value.
    pub fn take(&mut self, key: Key) -> Result<u32, NoMemory>
        ensures handle { IfOk result (λ handle. handle ≡ making.fresh_handle (of_key key self.old)) }
        ensures pools { OnOk result (self.new ≡ with_key key (making.fewer_free (of_key key self.old)) self.old) }
    {
        match key {
            Key::Importance => self.importance.take(),
            Key::Bank => self.bank.take(),
            Key::User => self.user.take(),
            Key::Test => self.test.take(),
        }
    }

    /// A handle of a key is free again.
    pub fn give_back(&mut self, key: Key, handle: u32) -> Result<(), NoMemory>
        ensures { OnOk result (self.new ≡ with_key key (leaving.more_free (of_key key self.old) handle) self.old) }
    {
        match key {
            Key::Importance => self.importance.give_back(handle),
            Key::Bank => self.bank.give_back(handle),
            Key::User => self.user.give_back(handle),
            Key::Test => self.test.give_back(handle),
        }
    }
}

/// Whether both values are one.
pub fn equal(one: &Value, other: &Value) -> bool
    ensures { result ≡ values.equal_values one.now other.now }
{
    one.same(other)
}

/// The live value at a place, or none.
pub fn living_at<'a>(live: &'a [Living], place: &Place) -> Option<&'a Living>
    ensures { option_copied result ≡ machine.living_at live.now place.now }
{
    for living in live {
        if living.place.same(place) {
            return Some(living);
        }
    }
    None
}

/// The number of the Made entry of the value at a place, and 0 where there is none.
pub fn made_at(live: &[Living], place: &Place) -> u32
    ensures { result ≡ leaving.made_of (machine.living_at live.now place.now) }
{
    match living_at(live, place) {
        Some(living) => living.made,
        None => 0,
    }
}

/// Whether the value at a place is Default.
pub fn is_fixed_at(live: &[Living], place: &Place) -> bool
    ensures { result ≡ leaving.is_fixed_value (machine.living_at live.now place.now) }
{
    match living_at(live, place) {
        Some(living) => living.value.is_default(),
        None => false,
    }
}

/// The value at a handle of a key, or none.
pub fn value_at(live: &[Living], key: Key, handle: Option<u32>) -> Option<&Value>
    ensures { option_copied result ≡ machine.value_at live.now key handle }
{
    let handle = handle?;
    let living = living_at(live, &Place { key, handle })?;
    Some(&living.value)
}

/// Whether a live value is this one, at this key.
fn is_value(living: &Living, key: Key, value: &Value) -> bool
    ensures { result ≡ ((number_of living.now.place.key == number_of key) && values.equal_values living.now.value value.now) }
{
    living.place.key.number() == key.number() && equal(&living.value, value)
}

/// The handle of a value at a key, or none where it is not live there.
pub fn handle_of(live: &[Living], key: Key, value: &Value) -> Option<u32>
    ensures { result ≡ machine.handle_of live.now key value.now }
{
    for living in live {
        if is_value(living, key, value) {
            return Some(living.place.handle);
        }
    }
    None
}

/// The value at a place is live no more.
pub fn remove(live: &mut Vec<Living>, place: &Place)
    ensures { live.new.items ≡ machine.without_place live.old.items place.now }
{
    live.retain(|living| !living.place.same(place));
}
