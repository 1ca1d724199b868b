ghost use Rattle.std.specs.Prelude.{◌≡◌, ◌≤◌, ◌+◌, [], ◌++◌, length, true, false};
ghost use Rattle.vch_base.specs.Managers.{is_user};
ghost use Rattle.vch_intern.specs.Tags.{tag};

use arrayvec::ArrayVec;
use std::hash::{Hash, Hasher};
use std::marker::Model;
use vch_base::{Chain, Value};

/// What a value is found by: its kind, and behind it the tasks that it names, at most eight. It takes no memory.
#[derive(Drop)]
pub struct Tag {
    words: ArrayVec<u32, 9>,
}

impl Model for Tag {
    ghost use Rattle.std.specs.Prelude.{List, ℕ};

    ghost Value = { List ℕ };

    ghost view = { λ t. t.words.items };
}

impl PartialEq for Tag {
    ghost use Rattle.std.proofs.Common.{rules};
    ghost use Rattle.std.specs.Cmp.Rules.{comparing};
    ghost use Rattle.std.specs.Prelude.{nat_eq};
    ghost use Rattle.std.specs.Cmp.Lexicographic.{pointwise};

    ghost eq = { pointwise nat_eq };

    ghost laws = { Prim.search (comparing, rules) };

    fn eq(&self, other: &Tag) -> bool {
        let own = self.words.as_slice();
        own == other.words.as_slice()
    }
}

impl Eq for Tag {
    ghost use Rattle.std.proofs.Common.{rules};
    ghost use Rattle.std.specs.Cmp.Rules.{comparing};

    ghost laws = { Prim.search (comparing, rules) };
}

impl Hash for Tag {
    ghost use Rattle.std.specs.Hash as fed;
    ghost use Rattle.std.specs.Hash.{items_Alike, same_Alike};
    ghost use Rattle.std.proofs.lemmas.Bool.Decides.{Decides-eqb};

    ghost hash_input = { fed.slice fed.u32 };

    ghost respects_eq = { (items_Alike (same_Alike fed.u32 Decides-eqb)).fed };

    fn hash<H: Hasher>(&self, state: &mut H) {
        self.words.as_slice().hash(state);
    }
}

impl Tag {
    /// The tag of a value. At most nine steps.
    pub fn of(value: &Value) -> Tag
        requires { is_user value.now ≡ false }
        ensures { result ≡ tag value.now }
    {
        let mut words = ArrayVec::new();
        match value {
            Value::Chain { list } => {
                words.push(1);
                push_tasks(&mut words, list);
            }
            Value::Default => words.push(2),
            Value::Task { task } => {
                words.push(3);
                words.push(*task);
            }
            Value::Account { holder, merchant } => {
                words.push(4);
                words.push(*holder);
                words.push(*merchant);
            }
            Value::User { .. } => unreachable!(),
        }
        Tag { words }
    }
}

/// Appends the tasks of a list.
fn push_tasks(words: &mut ArrayVec<u32, 9>, list: &Chain)
    requires { length words.old.items ≤ 1 }
    ensures { words.new.items ≡ words.old.items ++ list.now }
{
    for i in 0..list.len() {
        words.push(list.at(i));
    }
}
