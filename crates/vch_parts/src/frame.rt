ghost use Rattle.std.specs.Prelude.{◌≡◌, Some};
ghost use Rattle.vch_parts.specs.Plain as plain;
ghost use Rattle.vch_parts.specs.Moves.{moved_on};
ghost use Rattle.vch_parts.specs.Nexts as nexts;

use crate::Keys;
use vch_base::{ALL_KEYS, Kind};
use vch_frame::{Claiming, KeyReceipt, Lets};
use vch_model::Call;
use vch_recipe::{Step, next_recipe};
use vch_table::Indices;

/// What one call still has to do.
///
/// `forming` is the voucher that it makes: none once the call is answered, and always none for an `exit`. `answered` tells
/// whether its reply was given. For a `create`, `at` is the place of the next record in bytes, and 0 for any other call.
/// `keys` are those still to be asked: of a `send` or `recv`, or of a record that redeems all keys and is under way. A
/// frame has at most one receipt or one claim in hand, and no other frame sees either.
#[derive(Drop)]
pub struct Frame {
    pub forming: Option<Indices>,
    pub answered: bool,
    pub at: usize,
    pub keys: Keys,
    pub receipt: Option<KeyReceipt>,
    pub lets: Lets,
    pub claim: Claiming,
}

impl Frame {
    /// The kind of the next event, where that is one of a value: a receipt is taken first, a claim is asked and looked at
    /// then, and references are let go of last. Nothing where the call is to go on.
    pub fn value_kind(&self) -> Option<Kind>
        ensures { result ≡ nexts.value_kind (Some self.now) }
    {
        if self.receipt.is_some() {
            return Some(Kind::Refer);
        }
        match &self.claim {
            Claiming::Claimed { .. } => Some(Kind::Ask),
            Claiming::Answered { .. } => Some(Kind::Recheck),
            Claiming::Nothing if !self.lets.is_empty() => Some(Kind::LetGo),
            Claiming::Nothing => None,
        }
    }

    /// The frame, or none where it has nothing left to do.
    pub fn closed(self) -> Option<Frame>
        ensures { result ≡ plain.closed self }
    {
        let claimed = !matches!(self.claim, Claiming::Nothing);
        if !self.answered || self.receipt.is_some() || claimed || !self.lets.is_empty() {
            Some(self)
        } else {
            None
        }
    }

    /// One key of the call is done: the next of all keys, the next record of a `create`, or the next key of a `send` or
    /// `recv`.
    pub fn move_on(&mut self, version: u32, call: &Call)
        requires { nexts.IsInside self.old.at call.now }
        ensures { self.new ≡ moved_on version call.now self.old }
    {
        let Call::Create { bytes } = call else {
            self.keys.drop_first();
            return;
        };
        let Step::One { key, next, .. } = next_recipe(bytes.as_slice(), self.at) else {
            return;
        };
        self.next_of_all(version, key);
        if self.keys.is_empty() {
            self.at = next;
        }
    }

    /// The keys that are left of a record with this key: those behind the first of all, or none.
    fn next_of_all(&mut self, version: u32, key: u32)
        ensures { self.new ≡ record self.old { keys = nexts.keys_behind version key self.old.keys } }
    {
        if key != ALL_KEYS {
            self.keys = Keys::none();
            return;
        }
        if self.keys.is_empty() {
            self.keys = Keys::managed(version);
        }
        self.keys.drop_first();
    }
}
