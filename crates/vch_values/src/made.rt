ghost use Rattle.std.specs.Prelude.{◌≡◌, ◌≢◌, ◌≤◌, ◌<◌, [], ℕ, OnOk, OnErr, length, slice_set};
ghost use Rattle.vch_base.specs.Keyed.{everywhere, of_key, with_key};
ghost use Rattle.vch_values.specs.Parts.{number_at};

use std::alloc::Global;
use std::marker::Model;
use vch_base::{Key, NoMemory};

/// The number of the Made entry of each live value but Default, by key and handle.
///
/// It is seen as a list for each key; the number at a handle without one is 0, which is no entry's.
#[derive(Drop)]
pub struct MadeNumbers {
    importance: Vec<u32>,
    bank: Vec<u32>,
    user: Vec<u32>,
    test: Vec<u32>,
}

impl Model for MadeNumbers {
    ghost use Rattle.std.specs.Prelude.{List, ℕ};
    ghost use Rattle.vch_base.specs.Keyed.{Keyed};

    ghost Value = { Keyed (List ℕ) };

    ghost view = { λ m. record { importance = m.importance.items; bank = m.bank.items; user = m.user.items; test = m.test.items } };
}

impl MadeNumbers {
    /// No number. It takes no memory.
    pub fn new(alloc: Global) -> MadeNumbers
        ensures { result ≡ everywhere [] }
    {
        MadeNumbers {
            importance: Vec::new(alloc),
            bank: Vec::new(alloc),
            user: Vec::new(alloc),
            test: Vec::new(alloc),
        }
    }

    /// The number at a handle, or 0. Constant time.
    pub fn number(&self, key: Key, handle: u32) -> u32
        ensures { result ≡ number_at (of_key key self.now) handle }
    {
        let numbers = match key {
            Key::Importance => &self.importance,
            Key::Bank => &self.bank,
            Key::User => &self.user,
            Key::Test => &self.test,
        };
        numbers.get(handle as usize).copied().unwrap_or(0)
    }

    /// Makes room for the number at a handle. Handles that rise one by one take constant time each on the average.
    ///
    /// # Errors
    ///
    /// Out of memory alone, which leaves the numbers as they were.
    pub fn reserve(&mut self, key: Key, handle: u32) -> Result<(), NoMemory>
        ensures room { OnOk result (handle < length (of_key key self.new)) }
        ensures same { (h : ℕ) → number_at (of_key key self.new) h ≡ number_at (of_key key self.old) h }
        ensures others { self.new ≡ with_key key (of_key key self.new) self.old }
        ensures refused { OnErr result (self.new ≡ self.old) }
    {
        match key {
            Key::Importance => make_room(&mut self.importance, handle),
            Key::Bank => make_room(&mut self.bank, handle),
            Key::User => make_room(&mut self.user, handle),
            Key::Test => make_room(&mut self.test, handle),
        }
    }

    /// Writes the number at a handle for which there is room. Constant time.
    pub fn set(&mut self, key: Key, handle: u32, number: u32)
        requires { handle < length (of_key key self.old) }
        ensures { self.new ≡ with_key key (slice_set (of_key key self.old) handle number) self.old }
    {
        match key {
            Key::Importance => self.importance[handle as usize] = number,
            Key::Bank => self.bank[handle as usize] = number,
            Key::User => self.user[handle as usize] = number,
            Key::Test => self.test[handle as usize] = number,
        }
    }
}

/// Makes room for a handle: there is no number at the handles up to it that have none yet.
fn make_room(numbers: &mut Vec<u32>, handle: u32) -> Result<(), NoMemory>
    ensures room { OnOk result (handle < length numbers.new.items) }
    ensures same { (h : ℕ) → number_at numbers.new.items h ≡ number_at numbers.old.items h }
    ensures refused { OnErr result (numbers.new.items ≡ numbers.old.items) }
{
    if numbers.len() <= handle as usize {
        numbers.resize(handle as usize + 1, 0)?;
    }
    Ok(())
}
