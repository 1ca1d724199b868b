ghost use Rattle.std.specs.Prelude.{◌≡◌};
ghost use Rattle.vch_books.specs.Numbered.{at_key, with_at, no_numbers};

use vch_base::Key;

/// A voucher, as the number of the Made entry of its value at each key, or none. The number 0 is Default's.
#[derive(Clone, Copy, Debug, PartialEq, Eq, Hash)]
pub struct Numbers {
    pub importance: Option<u32>,
    pub bank: Option<u32>,
    pub user: Option<u32>,
    pub test: Option<u32>,
}

impl Numbers {
    /// The voucher without a value.
    pub fn none() -> Numbers
        ensures { result ≡ no_numbers }
    {
        Numbers {
            importance: None,
            bank: None,
            user: None,
            test: None,
        }
    }

    /// The number at a key, or none.
    pub fn at(&self, key: Key) -> Option<u32>
        ensures { result ≡ at_key key self.now }
    {
        match key {
            Key::Importance => self.importance,
            Key::Bank => self.bank,
            Key::User => self.user,
            Key::Test => self.test,
        }
    }

    /// Another number at a key, or none.
    pub fn set(&mut self, key: Key, number: Option<u32>)
        ensures { self.new ≡ with_at key number self.old }
    {
        match key {
            Key::Importance => self.importance = number,
            Key::Bank => self.bank = number,
            Key::User => self.user = number,
            Key::Test => self.test = number,
        }
    }
}
