ghost use Rattle.std.specs.Prelude.{◌≡◌, fold};
ghost use Rattle.vch_books.specs.Living.{fed_value, fed_words, words_of};

use std::hash::{Hash, Hasher};
use std::marker::Model;
use vch_base::{Chain, Value};

/// A value and the key at which it was made: what a live value is found by. It is compared and hashed where it stands, without a
/// copy.
#[derive(Drop)]
pub struct Content<'a> {
    pub key: u32,
    pub value: &'a Value,
}

impl<'a> Model for Content<'a> {
    ghost use Rattle.vch_books.specs.Living.{Content};

    ghost Value = { Content };

    ghost view = { λ c. record { key = c.key; value = c.value.now } };
}

impl<'a> PartialEq for Content<'a> {
    ghost use Rattle.std.specs.Cmp.{partial_equiv_from_equiv};
    ghost use Rattle.std.specs.Cmp.Lexicographic.{on_texts_equal};
    ghost use Rattle.vch_books.specs.Living.{same_content, code};

    ghost eq = { same_content };

    ghost laws = { partial_equiv_from_equiv (on_texts_equal code) };

    fn eq(&self, other: &Content<'a>) -> bool {
        self.key == other.key && self.value.same(other.value)
    }
}

impl<'a> Eq for Content<'a> {
    ghost use Rattle.std.specs.Cmp.Lexicographic.{on_texts_equal};
    ghost use Rattle.vch_books.specs.Living.{code};

    ghost laws = { on_texts_equal code };
}

impl<'a> Hash for Content<'a> {
    ghost use Rattle.std.proofs.Common.{ap, refl};
    ghost use Rattle.std.proofs.lemmas.Bool.Decides.{Decides-eqb};
    ghost use Rattle.std.proofs.lemmas.Slice.Eq.{slice_eq-Decides};
    ghost use Rattle.vch_books.specs.Living.{code, fed_code, same_content};

    ghost hash_input = { λ c. fed_code (code c) };

    ghost respects_eq = { λ a b e. ap fed_code ((slice_eq-Decides Decides-eqb (code a) (code b) (same_content a b) refl).0 e) };

    fn hash<H: Hasher>(&self, state: &mut H) {
        self.key.hash(state);
        feed(self.value, state);
    }
}

/// Hashes a value.
fn feed<H: Hasher>(value: &Value, state: &mut H)
    ensures { state.new ≡ fold H.write state.old (fed_value (words_of value.now)) }
{
    match value {
        Value::User { bytes } => {
            0_u32.hash(state);
            state.write(bytes.as_slice());
        }
        Value::Chain { list } => {
            1_u32.hash(state);
            feed_tasks(list, state);
        }
        Value::Default => 2_u32.hash(state),
        Value::Task { task } => {
            3_u32.hash(state);
            task.hash(state);
        }
        Value::Account { holder, merchant } => {
            4_u32.hash(state);
            holder.hash(state);
            merchant.hash(state);
        }
    }
}

/// Hashes the tasks of a list.
fn feed_tasks<H: Hasher>(list: &Chain, state: &mut H)
    ensures { state.new ≡ fold H.write state.old (fed_words list.now) }
{
    for i in 0..list.len() {
        list.at(i).hash(state);
    }
}
