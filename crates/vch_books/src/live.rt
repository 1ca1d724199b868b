ghost use Rattle.std.specs.Prelude.{◌≡◌, ◌<◌, ◌^◌, ◌++◌, ◌∷◌, [], true, false, length, None, OnOk, MatchOption};
ghost use Rattle.vch_base.specs.declared.value.Value.TheVariants as values;
ghost use Rattle.std.specs.Prelude.{ℕ};
ghost use Rattle.std.specs.Map.Iter.{ShowsInOrder, deref};
ghost use Rattle.vch_base.specs.Values.{is_default};
ghost use Rattle.vch_books.specs.Holding.{number_with, is_one};
ghost use Rattle.vch_books.specs.Kept.{without_number};
ghost use Rattle.vch_books.specs.Numbered.{entry_at, key_made, numbered_value};
ghost use Rattle.vch_books.specs.Living.{IsBelow, content_of};

use crate::content::Content;
use crate::made::{key_at, value_at};
use indexmap::IndexMap;
use std::alloc::Global;
use std::collections::BTreeSet;
use std::collections::btree_set::Iter;
use std::marker::Model;
use vch_base::{NoMemory, Value};
use vch_model::History;

/// The numbers of the live values, in rising order, and an index that finds one by its content, which stays in the history.
#[derive(Drop)]
pub struct Live<'a> {
    history: &'a History,
    numbers: BTreeSet<u32>,
    index: IndexMap<Content<'a>, u32>,
}

impl<'a> Model for Live<'a> {
    ghost use Rattle.vch_books.specs.Living.{Living, Indexed};

    ghost Value = { Living };

    ghost view = { λ l. record { history = l.history.now.entries; numbers = l.numbers.keys } };

    ghost invariant = { λ l. Indexed l.index l.history.now.entries l.numbers.keys };
}

/// The content of a number, or nothing where that is Default.
fn content<'a>(history: &'a History, number: u32) -> Option<Content<'a>>
    ensures { MatchOption result (numbered_value history.now.entries number ≡ values.Default) (λ c. c ≡ content_of history.now.entries number) }
{
    let value = value_at(history, number)?;
    let key = key_at(history, number);
    Some(Content { key, value })
}

impl<'a> Live<'a> {
    /// No live value. It takes no memory.
    pub fn new(alloc: Global, history: &'a History) -> Live<'a>
        ensures { result ≡ record { history = history.now.entries; numbers = [] } }
    {
        Live {
            history,
            numbers: BTreeSet::new(alloc),
            index: IndexMap::new(alloc),
        }
    }

    /// The history that made them.
    pub fn history(&self) -> &'a History
        ensures { result.now.entries ≡ self.now.history }
    {
        self.history
    }

    /// How many values are live. Constant time.
    pub fn len(&self) -> usize
        ensures len { result ≡ length self.now.numbers }
        ensures small { result < 2 ^ 63 }
    {
        self.numbers.len()
    }

    /// Whether the value of a Made entry is live. Logarithmic time.
    pub fn has(&self, number: u32) -> bool
        ensures { result ≡ is_one self.now.numbers number }
    {
        self.numbers.contains(&number)
    }

    /// Their numbers, in rising order.
    pub fn numbers(&self) -> Iter<'_, u32>
        ensures rest { result ≡ self.now.numbers }
        ensures runs { ShowsInOrder (deref {X = ℕ}) }
    {
        self.numbers.iter()
    }

    /// The number of a live value, or nothing where it is not live. Expected constant time.
    pub fn find(&self, key: u32, value: &Value) -> Option<u32>
        ensures { result ≡ number_with self.now.history self.now.numbers key value.now }
    {
        self.index.get(&Content { key, value }).copied()
    }

    /// The value of a Made entry, which comes behind those of all live ones, is live. Logarithmic time.
    pub fn push(&mut self, number: u32) -> Result<(), NoMemory>
        requires above { IsBelow self.old.numbers number }
        requires absent { number_with self.old.history self.old.numbers (key_made (entry_at self.old.history number)) (numbered_value self.old.history number) ≡ None }
        requires plain { is_default (numbered_value self.old.history number) ≡ false }
        ensures numbers { OnOk result (self.new ≡ record self.old { numbers = self.old.numbers ++ number ∷ [] }) }
    {
        let Some(content) = content(self.history, number) else {
            unreachable!();
        };
        self.index.reserve(1)?;
        self.numbers.insert(number)?;
        self.index.insert(content, number).unwrap();
        Ok(())
    }

    /// The value of a Made entry is live no more. Logarithmic time; it takes no memory.
    pub fn remove(&mut self, number: u32)
        ensures { self.new ≡ record self.old { numbers = without_number self.old.numbers number } }
    {
        if !self.numbers.remove(&number) {
            return;
        }
        if let Some(content) = content(self.history, number) {
            self.index.swap_remove(&content);
        }
    }
}
