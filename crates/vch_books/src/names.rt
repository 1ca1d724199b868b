ghost use Rattle.std.specs.Prelude.{◌≡◌, ◌<◌, ◌+◌, ◌++◌, ◌∷◌, [], not, IfOk, OnErr, OnOk, None, length};
ghost use Rattle.indexmap.specs.IndexMap.{get};
ghost use Rattle.vch_model.specs.Store.{is_empty};
ghost use Rattle.vch_books.specs.Desks as desks;
ghost use Rattle.vch_books.specs.Desks.{IsLess, numbers_at, name_with, same_numbers, gone_with};
ghost use Rattle.vch_books.specs.declared.numbers.Numbers.{Numbers};
ghost use Rattle.vch_books.specs.Naming.{once_gone};

use crate::Numbers;
use crate::rows::Named;
use indexmap::IndexMap;
use std::alloc::Global;
use std::collections::VecDeque;
use std::marker::Model;
use vch_base::NoMemory;

/// The number after a number. One that does not fit counts things that no memory has room for, so it is out of memory.
pub fn after(n: u64) -> Result<u64, NoMemory>
    ensures { IfOk result (λ next. next ≡ n + 1) }
{
    match n.checked_add(1) {
        Some(next) => Ok(next),
        None => Err(NoMemory::beyond(n, 1, u64::MAX)),
    }
}

/// The voucher of a name, or nothing where the name is not there.
fn voucher_of(names: &VecDeque<Named>, name: u32) -> Option<Numbers>
    ensures { result ≡ numbers_at names.now.items name }
{
    for i in 0..names.len() {
        let named = &names[i];
        if named.name == name {
            return Some(named.voucher);
        }
    }
    None
}

/// The lower of a name and of one that may not be there.
fn lower(name: u32, other: Option<u32>) -> u32
    ensures { result ≡ desks.lower name other }
{
    match other {
        Some(other) => name.min(other),
        None => name,
    }
}

/// The lowest name, or nothing where there is none.
fn lowest(names: &VecDeque<Named>) -> Option<u32>
    ensures { result ≡ desks.lowest names.now.items }
{
    let mut low = None;
    let mut at = names.len();
    while at > 0 {
        at -= 1;
        low = Some(lower(names[at].name, low));
    }
    low
}

/// One more reference to a name.
fn one_more(names: &mut VecDeque<Named>, name: u32) -> Result<(), NoMemory>
    ensures more { OnOk result (names.new.items ≡ desks.one_more names.old.items name) }
    ensures kept { OnErr result (names.new.items ≡ names.old.items) }
{
    for i in 0..names.len() {
        if names[i].name == name {
            let refs = after(names[i].refs)?;
            names[i].refs = refs;
            return Ok(());
        }
    }
    Ok(())
}

/// One reference less to the name at a place, which is gone with the last. Returns the voucher of a name that went.
fn lessen(names: &mut VecDeque<Named>, i: usize) -> Option<Numbers>
    requires { i < length names.old.items }
    ensures { IsLess names.old.items i names.new.items result }
{
    if names[i].refs > 1 {
        names[i].refs -= 1;
        return None;
    }
    Some(names.remove(i).unwrap().voucher)
}

/// One reference less to a name, which is gone with the last. Returns the voucher of a name that went.
fn one_less(names: &mut VecDeque<Named>, name: u32) -> Option<Numbers>
    ensures less { names.new.items ≡ desks.one_less names.old.items name }
    ensures gone { result ≡ gone_with names.old.items name }
{
    for i in 0..names.len() {
        if names[i].name == name {
            return lessen(names, i);
        }
    }
    None
}

/// A name goes, where it is there. Returns its voucher.
fn without(names: &mut VecDeque<Named>, name: u32) -> Option<Numbers>
    ensures less { names.new.items ≡ desks.without_name names.old.items name }
    ensures gone { result ≡ numbers_at names.old.items name }
{
    for i in 0..names.len() {
        if names[i].name == name {
            return Some(names.remove(i).unwrap().voucher);
        }
    }
    None
}

/// A voucher that went has no name any more.
fn forget(index: &mut IndexMap<Numbers, u32>, gone: Option<Numbers>)
    ensures { (v : Numbers) → get same_numbers index.new v ≡ once_gone gone v (get same_numbers index.old v) }
{
    if let Some(voucher) = gone {
        index.swap_remove(&voucher);
    }
}

/// The names of a task in the order in which they were given, and an index that finds the name of a voucher. The names are a ring,
/// since tasks drop old names first.
#[derive(Drop)]
pub struct Names {
    rows: VecDeque<Named>,
    index: IndexMap<Numbers, u32>,
}

impl Model for Names {
    ghost use Rattle.std.specs.Prelude.{List};
    ghost use Rattle.vch_books.specs.declared.rows.Named.{Named};
    ghost use Rattle.vch_books.specs.Naming.{IsNamed};

    ghost Value = { List Named };

    ghost view = { λ n. n.rows.items };

    ghost invariant = { λ n. IsNamed n.index n.rows.items };
}

impl Names {
    /// No name. It takes no memory.
    pub fn new(alloc: Global) -> Names
        ensures { result ≡ [] }
    {
        Names {
            rows: VecDeque::new(alloc),
            index: IndexMap::new(alloc),
        }
    }

    /// Whether there is a name.
    pub fn has_any(&self) -> bool
        ensures { result ≡ not (is_empty self.now) }
    {
        self.rows.len() > 0
    }

    /// The voucher of a name, or nothing where the name is not there. It looks at the names up to this one.
    pub fn voucher_of(&self, name: u32) -> Option<Numbers>
        ensures { result ≡ numbers_at self.now name }
    {
        voucher_of(&self.rows, name)
    }

    /// The name of a voucher, or nothing where no name has it. Expected constant time.
    pub fn name_of(&self, voucher: &Numbers) -> Option<u32>
        ensures { result ≡ name_with self.now voucher.now }
    {
        self.index.get(voucher).copied()
    }

    /// The lowest name, or nothing where there is none.
    pub fn lowest(&self) -> Option<u32>
        ensures { result ≡ desks.lowest self.now }
    {
        lowest(&self.rows)
    }

    /// One more reference to a name.
    pub fn one_more(&mut self, name: u32) -> Result<(), NoMemory>
        ensures { OnOk result (self.new ≡ desks.one_more self.old name) }
    {
        one_more(&mut self.rows, name)?;
        Ok(())
    }

    /// A name more, for a voucher without a name. Expected amortised constant time. The one error is out of memory.
    pub fn push(&mut self, named: Named) -> Result<(), NoMemory>
        requires { name_with self.old named.voucher ≡ None }
        ensures { OnOk result (self.new ≡ self.old ++ named ∷ []) }
    {
        self.index.reserve(1)?;
        self.rows.push_back(named)?;
        self.index.insert(named.voucher, named.name).unwrap();
        Ok(())
    }

    /// One reference less to a name, which is gone with the last. Returns the voucher of a name that went.
    pub fn one_less(&mut self, name: u32) -> Option<Numbers>
        ensures less { self.new ≡ desks.one_less self.old name }
        ensures gone { result ≡ gone_with self.old name }
    {
        let gone = one_less(&mut self.rows, name);
        forget(&mut self.index, gone);
        gone
    }

    /// A name goes, where it is there. Returns its voucher.
    pub fn without(&mut self, name: u32) -> Option<Numbers>
        ensures less { self.new ≡ desks.without_name self.old name }
        ensures gone { result ≡ numbers_at self.old name }
    {
        let gone = without(&mut self.rows, name);
        forget(&mut self.index, gone);
        gone
    }
}
