ghost use Rattle.std.specs.Prelude.{◌≡◌, ◌+◌, nat_le, if◌then◌else◌};
ghost use Rattle.vch_base.specs.declared.key.Key.TheVariants as keys;
ghost use Rattle.vch_base.specs.declared.value.Value.TheVariants as values;
ghost use Rattle.vch_base.specs.declared.limits.TheConstants.{LAST_WORD};
ghost use Rattle.vch_model.specs.Replies as replies;
ghost use Rattle.vch_model.specs.Totals.{last_is, tasks_of};
ghost use Rattle.vch_books.specs.Audits.{store_at, past_at};
ghost use Rattle.vch_books.specs.Numbered.{StandsAt, numbered_option};
ghost use Rattle.vch_judge.specs.Counts.{reply_of};

use vch_base::codes::{KERN_FAILURE, KERN_INVALID_ARGUMENT};
use vch_base::limits::LAST_WORD;
use vch_base::{Chain, Code, Value};
use vch_books::Books;

/// Whether a list of two or more tasks ends with a task.
fn ends_with(list: &Chain, task: u32) -> bool
    ensures { result ≡ last_is task (tasks_of (values.Chain list.now)) }
{
    list.len() > 1 && list.last() == task
}

/// Whether a count may change so.
fn may_change(count: u64, adding: bool, n: u32) -> bool
    ensures { result ≡ (if adding then nat_le (count + n) LAST_WORD else nat_le n count) }
{
    if adding {
        count <= u64::from(LAST_WORD - n)
    } else {
        u64::from(n) <= count
    }
}

/// What changing the external count of the list that a voucher has, or of none, is answered.
pub fn counting(
    books: &Books,
    task: u32,
    number: Option<u32>,
    adding: bool,
    n: u32,
) -> Result<(), Code>
    requires { StandsAt books.now.history (store_at books.now).live keys.Importance number }
    ensures { reply_of result ≡ replies.counting books.now.scenario (past_at books.now) task adding n (numbered_option books.now.history number) }
{
    let Some(number) = number else {
        return Err(Code::of(KERN_INVALID_ARGUMENT));
    };
    match books.value(number) {
        Some(Value::Chain { list }) if ends_with(list, task) => {
            if may_change(books.external(number), adding, n) {
                Ok(())
            } else {
                Err(Code::of(KERN_FAILURE))
            }
        }
        _ => Err(Code::of(KERN_INVALID_ARGUMENT)),
    }
}

/// Whether a task may charge the bank value that a voucher has, or none.
pub fn may_charge(books: &Books, task: u32, number: Option<u32>) -> bool
    ensures { result ≡ replies.may_charge task (numbered_option books.now.history number) }
{
    let Some(number) = number else {
        return false;
    };
    match books.value(number) {
        Some(Value::Task { task: payer }) => *payer == task,
        Some(Value::Account { merchant, .. }) => *merchant == task,
        _ => false,
    }
}
