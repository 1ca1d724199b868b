ghost use Rattle.std.specs.Prelude.{◌≡◌, ◌↔◌, [], IsTrue, false};
ghost use Rattle.vch_base.specs.Keys.{managed};
ghost use Rattle.vch_machine.specs.Making.{tail_keys, head_key, keys_left};
ghost use Rattle.vch_parts.specs.Asking.{marked};

use std::marker::Model;
use vch_base::Key;

/// Keys that are still to be asked, in rising order: each key is marked or not.
#[derive(Drop)]
pub struct Keys {
    importance: bool,
    bank: bool,
    user: bool,
    test: bool,
}

impl Model for Keys {
    ghost use Rattle.std.specs.Prelude.{List};
    ghost use Rattle.vch_base.specs.declared.key.Key.{Key};
    ghost use Rattle.vch_parts.specs.Asking.{marked};

    ghost Value = { List Key };

    ghost view = { λ k. marked k.importance k.bank k.user k.test };
}

impl Keys {
    /// No key.
    pub fn none() -> Keys
        ensures { result ≡ [] }
    {
        Keys {
            importance: false,
            bank: false,
            user: false,
            test: false,
        }
    }

    /// The key of importance, that of the bank, both or neither.
    pub fn of(importance: bool, bank: bool) -> Keys
        ensures { result ≡ marked importance bank false false }
    {
        Keys {
            importance,
            bank,
            user: false,
            test: false,
        }
    }

    /// The managed keys of a version.
    pub fn managed(version: u32) -> Keys
        ensures { result ≡ managed version }
    {
        Keys {
            importance: true,
            bank: true,
            user: true,
            test: version == 2,
        }
    }

    /// Whether there is no key.
    pub fn is_empty(&self) -> bool
        ensures { IsTrue result ↔ (self.now ≡ []) }
    {
        !(self.importance || self.bank || self.user || self.test)
    }

    /// The first key, or none where there is no key.
    pub fn first(&self) -> Option<Key>
        ensures { result ≡ head_key self.now }
    {
        if self.importance {
            Some(Key::Importance)
        } else if self.bank {
            Some(Key::Bank)
        } else if self.user {
            Some(Key::User)
        } else if self.test {
            Some(Key::Test)
        } else {
            None
        }
    }

    /// The first key of those that a record which redeems all keys has still to ask: the first managed key of the version where
    /// the record is not under way.
    pub fn next_of_all(&self, version: u32) -> Option<Key>
        ensures { result ≡ head_key (keys_left version self.now) }
    {
        if self.is_empty() {
            return Keys::managed(version).first();
        }
        self.first()
    }

    /// Takes the first key away, if there is one.
    pub fn drop_first(&mut self)
        ensures { self.new ≡ tail_keys self.old }
    {
        if self.importance {
            self.importance = false;
        } else if self.bank {
            self.bank = false;
        } else if self.user {
            self.user = false;
        } else {
            self.test = false;
        }
    }
}
