ghost use Rattle.std.specs.Prelude.{◌≡◌, Some, MatchOption};
ghost use Rattle.vch_books.specs.Numbered.{no_numbers};
ghost use Rattle.vch_model.specs.Voucher.{Voucher};
ghost use Rattle.vch_judge.specs.Formed.{IsSlot, IsFormed, IsVoucher, HasNumbers, HasDead, slot_at, with_slot, slot_of_number};

use vch_base::{Key, Value};
use vch_books::{Books, Numbers};

/// What stands at a key of a voucher that is formed.
#[derive(Clone, Copy, Debug, PartialEq, Eq)]
pub enum Slot {
    /// No value.
    Empty,
    /// The live value with this number.
    Live { number: u32 },
    /// A value that is not live.
    Dead,
}

/// A voucher that is formed: what stands at each key.
#[derive(Clone, Copy, Debug)]
pub struct Formed {
    pub importance: Slot,
    pub bank: Slot,
    pub user: Slot,
    pub test: Slot,
}

/// The slot of a number, or of none.
pub fn slot_of(number: Option<u32>) -> Slot
    ensures { result ≡ slot_of_number number }
{
    match number {
        Some(number) => Slot::Live { number },
        None => Slot::Empty,
    }
}

/// The number in a slot, or nothing where its value is not live.
fn number_in(slot: Slot) -> Option<Option<u32>>
    ensures { MatchOption result (slot ≡ Slot.Dead) (λ n. slot ≡ slot_of_number n) }
{
    match slot {
        Slot::Empty => Some(None),
        Slot::Live { number } => Some(Some(number)),
        Slot::Dead => None,
    }
}

/// The slot of a value.
pub fn found(books: &Books, key: Key, value: &Value) -> Slot
    ensures { IsSlot books.now key result (Some value.now) }
{
    match books.find(key, value) {
        Some(number) => Slot::Live { number },
        None => Slot::Dead,
    }
}

impl Formed {
    /// The voucher without a value.
    pub fn empty() -> Formed
        ensures { HasNumbers result no_numbers }
    {
        Formed {
            importance: Slot::Empty,
            bank: Slot::Empty,
            user: Slot::Empty,
            test: Slot::Empty,
        }
    }

    /// The voucher of numbers.
    pub fn of(numbers: &Numbers) -> Formed
        ensures { HasNumbers result numbers.now }
    {
        Formed {
            importance: slot_of(numbers.importance),
            bank: slot_of(numbers.bank),
            user: slot_of(numbers.user),
            test: slot_of(numbers.test),
        }
    }

    /// What stands at a key.
    pub fn at(&self, key: Key) -> Slot
        ensures { result ≡ slot_at key self.now }
    {
        match key {
            Key::Importance => self.importance,
            Key::Bank => self.bank,
            Key::User => self.user,
            Key::Test => self.test,
        }
    }

    /// With something else at a key.
    pub fn with(&self, key: Key, slot: Slot) -> Formed
        ensures { result ≡ with_slot key slot self.now }
    {
        let mut made = *self;
        match key {
            Key::Importance => made.importance = slot,
            Key::Bank => made.bank = slot,
            Key::User => made.user = slot,
            Key::Test => made.test = slot,
        }
        made
    }

    /// The numbers of its values, or nothing where one of them is not live.
    pub fn numbers(&self) -> Option<Numbers>
        ensures { MatchOption result (HasDead self.now) (λ v. HasNumbers self.now v) }
    {
        Some(Numbers {
            importance: number_in(self.importance)?,
            bank: number_in(self.bank)?,
            user: number_in(self.user)?,
            test: number_in(self.test)?,
        })
    }
}

/// The numbers of a voucher that is formed, or nothing where one of its values is not live.
pub fn voucher_of(books: &Books, formed: Formed) -> Option<Numbers>
    ensures { (map : Voucher) → IsFormed books.now formed map → IsVoucher books.now map result }
{
    formed.numbers()
}
