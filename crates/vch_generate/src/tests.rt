use crate::generate;
use std::alloc::{AllocError, Global};
use std::test::Fail;
use vch_model::Call;

/// What a call of the number 7's first groups is, in a few words.
fn told(alloc: Global, call: &Call) -> Result<String, AllocError> {
    match call {
        Call::Create { bytes } => format!(in alloc;
            "create {}",
            bytes.as_slice().get(48).copied().unwrap_or(255)
        ),
        Call::GiveUp { name } => format!(in alloc; "drop {name}"),
        Call::Send {
            to,
            moving: false,
            name,
            id,
        } => format!(in alloc; "send {to} copy {name} {id}"),
        Call::Recv => format!(in alloc; "recv"),
        Call::Extern {
            name,
            adding: true,
            n,
        } => format!(in alloc; "extern {name} add {n}"),
        Call::Charge { name, n } => format!(in alloc; "charge {name} {n}"),
        Call::Assertions => format!(in alloc; "assertions"),
        _ => format!(in alloc; "another"),
    }
}

/// The first two groups of the number 7, drawn by hand: 7 and 63, then 2 and 17.
const FIRST: [(u32, &str); 16] = [
    (7, "create 63"),
    (7, "send 8 copy 1 0"),
    (8, "recv"),
    (8, "charge 1 0"),
    (8, "extern 1 add 1"),
    (8, "assertions"),
    (8, "drop 1"),
    (7, "drop 1"),
    (2, "create 17"),
    (2, "send 3 copy 1 1"),
    (3, "recv"),
    (3, "charge 1 1"),
    (3, "extern 1 add 1"),
    (3, "assertions"),
    (3, "drop 1"),
    (2, "drop 1"),
];

#[test]
fn groups_are_drawn(rt: HostRuntime) -> Result<(), Fail> {
    let a = rt.alloc();
    let Ok(scenario) = generate(a, 7) else {
        return Err(Fail::new("out of memory"));
    };
    assert_eq!(rt; scenario.flags.len(), 8);
    assert_eq!(rt; scenario.phases.len(), 1);
    let lines = scenario.phases.at(0);
    assert_eq!(rt; lines.len(), 8192);
    for (i, (task, call)) in FIRST.iter().enumerate() {
        let line = lines.at(i);
        assert_eq!(rt; line.task, *task, "at {i}");
        assert_eq!(rt; told(a, &line.call)?.as_str(), *call, "at {i}");
    }
    Ok(())
}
