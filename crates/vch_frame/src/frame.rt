ghost use Rattle.std.specs.Prelude.{◌≡◌, ◌<◌, ◌++◌, ◌∷◌, [], IfSome, IfNone, IsTrue, ◌↔◌, length};

use arrayvec::ArrayVec;
use std::marker::Model;
use vch_base::Key;
use vch_value::{Asked, Claim, Receipt};

/// A receipt, and the key of its manager. It is moved and never copied.
#[derive(Debug, Drop)]
pub struct KeyReceipt {
    pub key: Key,
    pub receipt: Receipt,
}

/// An entry of a key.
#[derive(Clone, Copy, Debug, PartialEq, Eq)]
pub struct KeyIndex {
    pub key: Key,
    pub index: u32,
}

impl Default for KeyIndex {
    fn default() -> KeyIndex {
        KeyIndex {
            key: Key::User,
            index: 0,
        }
    }
}

/// What a frame has in hand of a claim: nothing, a claim that was not asked about, or a claim with its answer.
#[derive(Debug, Drop)]
pub enum Claiming {
    Nothing,
    Claimed { key: Key, claim: Claim },
    Answered { key: Key, asked: Asked },
}

/// The references that a call has still to let go of, in their order: at most twelve. They are kept in place.
#[derive(Drop)]
pub struct Lets {
    items: ArrayVec<KeyIndex, 12>,
}

impl Model for Lets {
    ghost use Rattle.std.specs.Prelude.{List, ◌≤◌, length};
    ghost use Rattle.vch_frame.specs.declared.frame.KeyIndex.{KeyIndex};

    ghost Value = { List KeyIndex };

    ghost view = { λ l. l.items.items };

    ghost invariant = { λ l. length l.items.items ≤ 12 };
}

impl Lets {
    /// Nothing to let go of.
    pub fn new() -> Lets
        ensures { result ≡ [] }
    {
        Lets {
            items: ArrayVec::new(),
        }
    }

    /// Whether there is nothing to let go of.
    pub fn is_empty(&self) -> bool
        ensures { IsTrue result ↔ (self.now ≡ []) }
    {
        self.items.is_empty()
    }

    /// Appends a reference.
    pub fn push(&mut self, item: KeyIndex)
        requires { length self.old < 12 }
        ensures { self.new ≡ self.old ++ item ∷ [] }
    {
        self.items.push(item);
    }

    /// Takes the first reference, if there is one.
    pub fn take_first(&mut self) -> Option<KeyIndex>
        ensures first { IfSome result (λ item. self.old ≡ item ∷ self.new) }
        ensures empty { IfNone result ((self.old ≡ []) × (self.new ≡ [])) }
    {
        if self.items.is_empty() {
            return None;
        }
        Some(self.items.remove(0))
    }
}
