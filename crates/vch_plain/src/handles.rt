ghost use Rattle.std.specs.Prelude.{◌≡◌};
ghost use Rattle.vch_base.specs.Keyed.{of_key, with_key};
ghost use Rattle.vch_machine.specs.Naming as naming;
ghost use Rattle.vch_machine.specs.State as machine;

use std::marker::Model;
use vch_base::Key;

/// A place: a handle of a key.
#[derive(Clone, Copy, Debug)]
pub struct Place {
    pub key: Key,
    pub handle: u32,
}

impl Model for Place {
    ghost use Rattle.vch_machine.specs.State as machine;

    ghost Value = { machine.Place };

    ghost view = { λ p. record { key = p.key; handle = p.handle } };

    ghost inverse = { λ p. record { key = p.key; handle = p.handle } };
}

impl Place {
    /// Whether both are one place.
    pub fn same(&self, other: &Place) -> bool
        ensures { result ≡ machine.same_place self.now other.now }
    {
        self.key.number() == other.key.number() && self.handle == other.handle
    }
}

/// A voucher: a handle, or none, at each key.
#[derive(Clone, Copy, Debug)]
pub struct Handles {
    pub importance: Option<u32>,
    pub bank: Option<u32>,
    pub user: Option<u32>,
    pub test: Option<u32>,
}

impl Model for Handles {
    ghost use Rattle.vch_machine.specs.State as machine;

    ghost Value = { machine.Handles };

    ghost view = { λ v. record { importance = v.importance; bank = v.bank; user = v.user; test = v.test } };

    ghost inverse = { λ v. record { importance = v.importance; bank = v.bank; user = v.user; test = v.test } };
}

impl Handles {
    /// The voucher without a value.
    pub fn none() -> Handles
        ensures { result ≡ machine.no_handles }
    {
        Handles {
            importance: None,
            bank: None,
            user: None,
            test: None,
        }
    }

    /// The handle at a key, or none.
    pub fn at(&self, key: Key) -> Option<u32>
        ensures { result ≡ of_key key self.now }
    {
        match key {
            Key::Importance => self.importance,
            Key::Bank => self.bank,
            Key::User => self.user,
            Key::Test => self.test,
        }
    }

    /// Another handle, or none, at a key.
    pub fn set(&mut self, key: Key, handle: Option<u32>)
        ensures { self.new ≡ with_key key handle self.old }
    {
        match key {
            Key::Importance => self.importance = handle,
            Key::Bank => self.bank = handle,
            Key::User => self.user = handle,
            Key::Test => self.test = handle,
        }
    }

    /// Whether both have the same handles, so that they are one voucher.
    pub fn same(&self, other: &Handles) -> bool
        ensures { result ≡ naming.same_handles self.now other.now }
    {
        same_handle(self.importance, other.importance)
            && same_handle(self.bank, other.bank)
            && same_handle(self.user, other.user)
            && same_handle(self.test, other.test)
    }

    /// Whether the voucher has the value at a place.
    pub fn has(&self, place: &Place) -> bool
        ensures { result ≡ machine.has_place self.now place.now }
    {
        match self.at(place.key) {
            Some(handle) => handle == place.handle,
            None => false,
        }
    }
}

/// Whether both are none, or one handle.
pub fn same_handle(one: Option<u32>, other: Option<u32>) -> bool
    ensures { result ≡ naming.same_handle one other }
{
    match (one, other) {
        (None, None) => true,
        (Some(a), Some(b)) => a == b,
        _ => false,
    }
}

/// Whether there is a voucher, and it has the value at a place.
pub fn option_has(voucher: &Option<Handles>, place: &Place) -> bool
    ensures { result ≡ machine.option_has voucher.now place.now }
{
    match voucher {
        Some(handles) => handles.has(place),
        None => false,
    }
}

/// Whether there is a voucher, and it is this one.
pub fn option_same(voucher: &Option<Handles>, other: &Handles) -> bool
    ensures { result ≡ naming.option_same voucher.now other.now }
{
    match voucher {
        Some(handles) => handles.same(other),
        None => false,
    }
}
