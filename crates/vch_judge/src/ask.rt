ghost use Rattle.std.specs.Prelude.{◌≡◌, ◌∷◌, [], Some, Option, false, IfOk, length};
ghost use Rattle.vch_base.specs.declared.value.Value.{Value};
ghost use Rattle.vch_base.specs.declared.value.Value.TheVariants as values;
ghost use Rattle.vch_base.specs.Managers.{bare};
ghost use Rattle.vch_model.specs.Eval.{answer_to, is_core_command};
ghost use Rattle.vch_books.specs.Audits.{Audit};
ghost use Rattle.vch_judge.specs.Formed.{IsSlot, IsAnswered};

use crate::formed::{Slot, found};
use std::alloc::Global;
use vch_base::codes::KERN_INVALID_ARGUMENT;
use vch_base::commands::{BANK_CREATE, IMPORTANCE_SELF, REDEEM, USER_DATA_STORE};
use vch_base::{Bytes, Chain, Code, Key, NoMemory, Value};
use vch_books::Books;

/// A command without content.
fn bare(content: &[u8], slot: Slot) -> Result<Slot, Code>
    ensures { (a : Audit) (key : Key) (x : Option Value) → IsSlot a key slot x → IsAnswered a key result (bare content.now x) }
{
    if content.is_empty() {
        Ok(slot)
    } else {
        Err(Code::of(KERN_INVALID_ARGUMENT))
    }
}

/// The slot of some user data.
fn stored(books: &Books, alloc: Global, key: Key, content: &[u8]) -> Result<Slot, NoMemory>
    ensures { IfOk result (λ slot. IsSlot books.now key slot (Some (values.User content.now))) }
{
    let value = Value::User {
        bytes: Bytes::of(alloc, content)?,
    };
    Ok(found(books, key, &value))
}

/// The slot of the list of one task.
fn own(books: &Books, task: u32) -> Slot
    ensures { IsSlot books.now Key.Importance result (Some (values.Chain (task ∷ []))) }
{
    let value = Value::Chain {
        list: Chain::one(task),
    };
    found(books, Key::Importance, &value)
}

/// The slot of Default.
#[tactic(auto, unfolding(vch_books::specs::Numbered::numbered_value))]
fn default_slot() -> Slot
    ensures { (a : Audit) → IsSlot a Key.Bank result (Some values.Default) }
{
    Slot::Live { number: 0 }
}

/// What the manager of a key answers to a command that a record may give.
pub fn ask(
    books: &Books,
    alloc: Global,
    task: u32,
    key: Key,
    command: u32,
    previous: Slot,
    content: &[u8],
) -> Result<Result<Slot, Code>, NoMemory>
    requires record { is_core_command command ≡ false }
    ensures { (x : Option Value) → IsSlot books.now key previous x
        → IfOk result (λ answer. IsAnswered books.now key answer (answer_to key task command x content.now)) }
{
    if command == REDEEM {
        return Ok(bare(content, previous));
    }
    match key {
        Key::User | Key::Test if command == USER_DATA_STORE => {
            Ok(Ok(stored(books, alloc, key, content)?))
        }
        Key::Importance if command == IMPORTANCE_SELF => Ok(bare(content, own(books, task))),
        Key::Bank if command == BANK_CREATE => Ok(bare(content, default_slot())),
        _ => Ok(Err(Code::of(KERN_INVALID_ARGUMENT))),
    }
}
