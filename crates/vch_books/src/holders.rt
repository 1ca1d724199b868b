ghost use Rattle.std.specs.Prelude.{◌≡◌, ◌++◌, ◌∷◌, [], List, ℕ, is_some, nat_eq, OnOk};
ghost use Rattle.indexmap.specs.IndexMap.{get, index_map_len};
ghost use Rattle.vch_books.specs.Counts.{Counts};
ghost use Rattle.vch_books.specs.declared.numbers.Numbers.{Numbers};
ghost use Rattle.vch_books.specs.Holding.{AreHeld, numbers_in, number_list};

use crate::Numbers;
use crate::counter::Counter;
use std::alloc::Global;
use vch_base::NoMemory;

/// How many names and messages have each voucher, and how many of these vouchers, each taken once, have each number of a value other
/// than Default. So a voucher's numbers are looked up only where it comes first or goes last.
#[derive(Drop)]
pub struct Holders {
    vouchers: Counter<Numbers>,
    numbers: Counter<u32>,
}

/// A number of a voucher comes.
fn add_number(numbers: &mut Counter<u32>, number: Option<u32>) -> Result<(), NoMemory>
    ensures { (front back : List ℕ) → Counts nat_eq numbers.old.counts (front ++ back) → OnOk result (Counts nat_eq numbers.new.counts (front ++ (number_list number ++ back))) }
{
    match number {
        Some(number) if number > 0 => {
            numbers.add(number)?;
            Ok(())
        }
        _ => Ok(()),
    }
}

/// A number of a voucher goes.
fn remove_number(numbers: &mut Counter<u32>, number: Option<u32>)
    ensures { (front back : List ℕ) → Counts nat_eq numbers.old.counts (front ++ (number_list number ++ back)) → Counts nat_eq numbers.new.counts (front ++ back) }
{
    if let Some(number) = number {
        if number > 0 {
            numbers.remove(&number);
        }
    }
}

/// The numbers of a voucher come.
fn add_numbers(numbers: &mut Counter<u32>, voucher: &Numbers) -> Result<(), NoMemory>
    ensures { (front back : List ℕ) → Counts nat_eq numbers.old.counts (front ++ back) → OnOk result (Counts nat_eq numbers.new.counts (front ++ (numbers_in voucher.now ++ back))) }
{
    add_number(numbers, voucher.test)?;
    add_number(numbers, voucher.user)?;
    add_number(numbers, voucher.bank)?;
    add_number(numbers, voucher.importance)
}

/// The numbers of a voucher go.
fn remove_numbers(numbers: &mut Counter<u32>, voucher: &Numbers)
    ensures { (front back : List ℕ) → Counts nat_eq numbers.old.counts (front ++ (numbers_in voucher.now ++ back)) → Counts nat_eq numbers.new.counts (front ++ back) }
{
    remove_number(numbers, voucher.importance);
    remove_number(numbers, voucher.bank);
    remove_number(numbers, voucher.user);
    remove_number(numbers, voucher.test);
}

impl Holders {
    /// Nobody has a voucher. It takes no memory.
    pub fn new(alloc: Global) -> Holders
        ensures { AreHeld result [] }
    {
        Holders {
            vouchers: Counter::new(alloc),
            numbers: Counter::new(alloc),
        }
    }

    /// How many different vouchers there are. Constant time.
    pub fn vouchers(&self) -> usize
        ensures { result ≡ index_map_len self.now.vouchers.counts }
    {
        self.vouchers.len()
    }

    /// How many values are held, without Default. Constant time.
    pub fn values(&self) -> usize
        ensures { result ≡ index_map_len self.now.numbers.counts }
    {
        self.numbers.len()
    }

    /// Whether the value of a number is held. Expected constant time.
    pub fn hold(&self, number: u32) -> bool
        ensures { result ≡ is_some (get nat_eq self.now.numbers.counts number) }
    {
        self.numbers.has(&number)
    }

    /// A name or a message with a voucher comes. Expected amortised constant time. The one error is out of memory.
    pub fn add(&mut self, voucher: Numbers) -> Result<(), NoMemory>
        ensures { (front back : List Numbers) → AreHeld self.old (front ++ back) → OnOk result (AreHeld self.new (front ++ voucher ∷ back)) }
    {
        if self.vouchers.add(voucher)? {
            add_numbers(&mut self.numbers, &voucher)?;
        }
        Ok(())
    }

    /// A name or a message with a voucher goes. Expected constant time; it takes no memory.
    pub fn remove(&mut self, voucher: Numbers)
        ensures { (front back : List Numbers) → AreHeld self.old (front ++ voucher ∷ back) → AreHeld self.new (front ++ back) }
    {
        if self.vouchers.remove(&voucher) {
            remove_numbers(&mut self.numbers, &voucher);
        }
    }
}
