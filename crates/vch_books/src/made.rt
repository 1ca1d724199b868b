ghost use Rattle.std.specs.Prelude.{◌≡◌, MatchOption};
ghost use Rattle.std.specs.Option.{option_copied};
ghost use Rattle.vch_base.specs.declared.value.Value.TheVariants as values;
ghost use Rattle.vch_books.specs.Numbered as numbered;
ghost use Rattle.vch_books.specs.Numbered.{key_made, numbered_value};

use vch_base::Value;
use vch_model::{Entry, History};

/// The entry with a number, counted from 1.
fn entry_at(history: &History, number: u32) -> Option<&Entry>
    ensures { option_copied result ≡ numbered.entry_at history.now.entries number }
{
    let at = (number as usize).saturating_sub(1);
    if at < history.len() {
        return Some(history.at(at));
    }
    None
}

/// The key of a Made entry.
pub fn key_at(history: &History, number: u32) -> u32
    ensures { result ≡ key_made (numbered.entry_at history.now.entries number) }
{
    match entry_at(history, number) {
        Some(Entry::Made { key, .. }) => *key,
        _ => 0,
    }
}

/// The value of a number, or nothing where that is Default.
#[tactic(auto, unfolding(crate::specs::Numbered::numbered_value))]
pub fn value_at(history: &History, number: u32) -> Option<&Value>
    ensures { MatchOption result (numbered_value history.now.entries number ≡ values.Default) (λ x. numbered_value history.now.entries number ≡ x.now) }
{
    if number == 0 {
        return None;
    }
    match entry_at(history, number) {
        Some(Entry::Made { value, .. }) => Some(value),
        _ => None,
    }
}
