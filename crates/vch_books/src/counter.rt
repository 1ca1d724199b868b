ghost use Rattle.std.specs.Prelude.{◌≡◌, ◌++◌, ◌∷◌, [], List, is_some, not, IfOk, OnOk};
ghost use Rattle.indexmap.specs.IndexMap.{get, index_map_len};
ghost use Rattle.vch_books.specs.Counts.{Counts};

use crate::names::after;
use indexmap::IndexMap;
use std::alloc::Global;
use std::hash::Hash;
use vch_base::NoMemory;

/// How often each item was added and not removed. An item without a count is not there.
#[derive(Drop)]
pub struct Counter<T: Eq + Hash> {
    counts: IndexMap<T, u64>,
}

impl<T: Eq + Hash + Copy + Drop> Counter<T> {
    /// No item. It takes no memory.
    pub fn new(alloc: Global) -> Counter<T>
        ensures { Counts T.eq result.counts [] }
    {
        Counter {
            counts: IndexMap::new(alloc),
        }
    }

    /// How many different items there are. Constant time.
    pub fn len(&self) -> usize
        ensures { result ≡ index_map_len self.now.counts }
    {
        self.counts.len()
    }

    /// Whether an item is there. Expected constant time.
    pub fn has(&self, item: &T) -> bool
        ensures { result ≡ is_some (get T.eq self.now.counts item.now) }
    {
        self.counts.get(item).is_some()
    }

    /// An item comes, somewhere in the list. Returns whether it was not there before. Expected amortised constant time. The one error
    /// is out of memory.
    pub fn add(&mut self, item: T) -> Result<bool, NoMemory>
        ensures counted { (front back : List T) → Counts T.eq self.old.counts (front ++ back) → OnOk result (Counts T.eq self.new.counts (front ++ item ∷ back)) }
        ensures first { IfOk result (λ first. first ≡ not (is_some (get T.eq self.old.counts item))) }
    {
        if let Some(count) = self.counts.get_mut(&item) {
            *count = after(*count)?;
            return Ok(false);
        }
        self.counts.insert(item, 1)?;
        Ok(true)
    }

    /// An item goes. Returns whether it is there no more. Expected constant time; it takes no memory.
    pub fn remove(&mut self, item: &T) -> bool
        ensures counted { (front back : List T) → Counts T.eq self.old.counts (front ++ item.now ∷ back) → Counts T.eq self.new.counts (front ++ back) }
        ensures last { result ≡ not (is_some (get T.eq self.new.counts item.now)) }
    {
        if let Some(count) = self.counts.get_mut(item) {
            if *count > 1 {
                *count -= 1;
                return false;
            }
        }
        self.counts.swap_remove(item);
        true
    }
}
