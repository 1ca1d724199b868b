ghost use Rattle.std.specs.Prelude.{◌≡◌, ◌+◌, IfOk};

use vch_base::NoMemory;

/// The number after a number. One that does not fit counts things that no memory has room for, so it is out of memory.
pub fn after(n: u32) -> Result<u32, NoMemory>
    ensures { IfOk result (λ next. next ≡ n + 1) }
{
    match n.checked_add(1) {
        Some(next) => Ok(next),
        None => Err(NoMemory::beyond(n as u64, 1, u32::MAX as u64)),
    }
}

/// The number after a large number, likewise.
pub fn after_large(n: u64) -> Result<u64, NoMemory>
    ensures { IfOk result (λ next. next ≡ n + 1) }
{
    match n.checked_add(1) {
        Some(next) => Ok(next),
        None => Err(NoMemory::beyond(n, 1, u64::MAX)),
    }
}

/// The number of an entry that comes behind so many.
pub fn entry_number(entries: usize) -> Result<u32, NoMemory>
    ensures { IfOk result (λ number. number ≡ entries + 1) }
{
    match u32::try_from(entries) {
        Ok(number) => after(number),
        Err(_) => Err(NoMemory::beyond(entries as u64, 1, u32::MAX as u64)),
    }
}
