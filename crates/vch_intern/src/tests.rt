ghost use Rattle.std.specs.Prelude.{◌≡◌, ◌∷◌, []};
ghost use Rattle.vch_base.specs.declared.value.Value.TheVariants as values;

use super::*;
use std::alloc::Global;
use std::process::Abort;
use vch_base::{Chain, GetFault, Got, Value};

/// The answer to a value that is handed out.
fn handed(handle: u32, fresh: bool, persist: bool) -> Result<Got, GetFault> {
    Ok(Got::Value {
        handle,
        fresh,
        persist,
    })
}

/// The list of the tasks 1 and 2.
fn pair() -> Value
    ensures { result ≡ values.Chain (1 ∷ 2 ∷ []) }
{
    Value::Chain {
        list: Chain::one(1).with(2),
    }
}

/// Hands a second value out beside Default, and then Default itself.
fn beside_default(rt: &impl Abort, alloc: Global) {
    let Ok(mut values) = Interned::holding(alloc, Value::Default) else {
        panic!(rt; "no memory");
    };
    assert!(rt; values.hand(pair()) == handed(1, true, false));
    assert!(rt; values.hand(Value::Default) == handed(0, false, true));
    assert!(rt; values.live() == 2 && values.find(&pair()) == Some(1));
}

/// Hands a value out twice.
fn handed_twice(rt: &impl Abort, alloc: Global) {
    let mut values = Interned::new(alloc);
    assert!(rt; values.hand(pair()) == handed(0, true, false));
    assert!(rt; values.hand(pair()) == handed(0, false, false));
}

/// Takes a value back, and hands another one out at its handle.
fn taken_back(rt: &impl Abort, alloc: Global) {
    let mut values = Interned::new(alloc);
    let Ok(Got::Value { handle, .. }) = values.hand(pair()) else {
        panic!(rt; "no value");
    };
    values.remove(handle);
    assert!(rt; values.find(&pair()).is_none() && values.live() == 0);
    assert!(rt; values.hand(Value::Task { task: 1 }) == handed(0, true, false));
}

#[test]
fn each_value_is_found_at_its_handle(rt: HostRuntime) {
    beside_default(&rt, rt.alloc());
    handed_twice(&rt, rt.alloc());
    taken_back(&rt, rt.alloc());
}
