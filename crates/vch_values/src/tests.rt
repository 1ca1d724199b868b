ghost use Rattle.std.specs.Prelude.{◌≡◌, ◌<◌, ◌^◌, [], ◌∷◌, length};
ghost use Rattle.vch_base.specs.Keyed.{of_key, with_key};
ghost use Rattle.vch_base.specs.Managers.{Knows, MadeBelow};
ghost use Rattle.vch_bank.specs.Bank.{new_bank};
ghost use Rattle.vch_importance.specs.Assertions.{new_importance};
ghost use Rattle.vch_values.specs.Parts.{new_user};

use super::*;
use std::alloc::Global;
use std::process::Abort;
use vch_base::commands::{BANK_CREATE, IMPORTANCE_SELF, USER_DATA_STORE};
use vch_base::{Flags, Key};
use vch_value::Made;

const DONOR: Flags = Flags {
    donor: true,
    receiver: true,
};

/// No values, for two tasks, both donors and receivers.
fn start(rt: &impl Abort, alloc: Global) -> Values
    ensures importance { (result.importance.kept ≡ new_importance (DONOR ∷ DONOR ∷ [])) × (result.importance.entries.slots ≡ []) }
    ensures bank { (result.bank.kept ≡ new_bank 2) × (result.bank.entries.slots ≡ []) }
    ensures user { (result.user.kept ≡ new_user) × (result.user.entries.slots ≡ []) }
    ensures test { (result.test.kept ≡ new_user) × (result.test.entries.slots ≡ []) }
{
    let Ok(values) = Values::new(alloc, &[DONOR, DONOR]) else {
        panic!(rt; "no memory");
    };
    values
}

/// The index of the first value that is made and referred to at a key.
fn put(rt: &impl Abort, values: &mut Values, key: Key, command: u32, content: &[u8]) -> u32
    requires known { Knows (of_key key values.old).kept.rules 1 }
    requires handles { length (of_key key values.old).kept.slots < 4294967295 }
    requires counts { MadeBelow (2 ^ 63) (of_key key values.old).kept.slots }
    requires empty { (of_key key values.old).entries.slots ≡ [] }
    ensures { values.new ≡ with_key key (of_key key values.new) values.old }
{
    let Ok(Made::Receipt { receipt, .. }) = values.make(key, 0, 1, command, None, content) else {
        panic!(rt; "not made");
    };
    values.refer(key, receipt)
}

#[test]
fn each_key_has_a_first_value(rt: HostRuntime) {
    let mut values = start(&rt, rt.alloc());
    assert_eq!(rt;
        put(&rt, &mut values, Key::Importance, IMPORTANCE_SELF, b""),
        0
    );
    assert_eq!(rt; put(&rt, &mut values, Key::Bank, BANK_CREATE, b""), 0);
    assert_eq!(rt; put(&rt, &mut values, Key::User, USER_DATA_STORE, b"ab"), 0);
    assert_eq!(rt; put(&rt, &mut values, Key::Test, USER_DATA_STORE, b"ab"), 0);
    assert!(rt; values.reserve_number(Key::Test, 2).is_ok());
    assert_eq!(rt; values.number(Key::Test, 2), 0);
}

#[test]
fn a_value_of_tests_is_made_and_given_back(rt: HostRuntime) {
    let mut values = start(&rt, rt.alloc());
    let Ok(Made::Receipt { receipt, .. }) = values.make(
        Key::Test,
        0,
        1,
        USER_DATA_STORE,
        None,
        b"ab",
    ) else {
        panic!(rt; "not made");
    };
    let index = values.refer(Key::Test, receipt);
    let Some(claim) = values.let_go(Key::Test, index) else {
        panic!(rt; "not claimed");
    };
    let asked = values.ask(Key::Test, claim);
    assert!(rt; asked.agreed());
    assert!(rt; values.recheck(Key::Test, asked).is_none());
}

#[test]
fn a_list_of_one_and_default_take_no_counts(rt: HostRuntime) {
    let mut values = start(&rt, rt.alloc());
    assert!(rt; values.charge(0, 1, 3).is_err());
    assert!(rt; values.ledger(1) == 0 && values.total() == 0);
    let made = values.make(Key::Importance, 0, 2, IMPORTANCE_SELF, None, b"");
    let Ok(Made::Receipt { receipt, .. }) = made else {
        panic!(rt; "no list");
    };
    assert!(rt; values.extern_add(receipt.handle(), 2, 3).is_err());
    assert!(rt; values.held(2) == 0 && values.out(2) == 0);
}
