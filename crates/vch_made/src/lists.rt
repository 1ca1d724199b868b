ghost use Rattle.std.specs.Prelude.{◌≡◌, ◌+◌, ◌<◌, ℕ, length, false, replicate, slice_index, IfOk};
ghost use Rattle.vch_made.specs.SeatSteps.{counts_added, marks_united};

use std::alloc::Global;
use vch_base::NoMemory;

pub(crate) fn zeros(alloc: Global, count: usize) -> Result<Vec<u64>, NoMemory>
    ensures { IfOk result (λ v. v.items ≡ replicate count 0) }
{
    Ok(vec![in alloc; 0; count]?)
}

pub(crate) fn none_marked(alloc: Global, count: usize) -> Result<Vec<bool>, NoMemory>
    ensures { IfOk result (λ v. v.items ≡ replicate count false) }
{
    Ok(vec![in alloc; false; count]?)
}

/// Adds the counts slot by slot.
pub(crate) fn add_counts(into: &mut Vec<u64>, counts: &Vec<u64>)
    requires same { length into.old.items ≡ length counts.now.items }
    requires fits { (k : ℕ) → slice_index into.old.items k + slice_index counts.now.items k < 18446744073709551616 }
    ensures { into.new.items ≡ counts_added into.old.items counts.now.items }
{
    for i in 0..into.len() {
        into[i] += counts[i];
    }
}

/// Unites the sets of marked slots.
pub(crate) fn unite_marks(into: &mut Vec<bool>, marks: &Vec<bool>)
    requires same { length into.old.items ≡ length marks.now.items }
    ensures { into.new.items ≡ marks_united into.old.items marks.now.items }
{
    for i in 0..into.len() {
        into[i] = into[i] || marks[i];
    }
}
