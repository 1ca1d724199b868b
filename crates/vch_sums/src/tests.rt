use super::*;
use std::alloc::Global;
use vch_base::limits::USUAL_QUEUE;
use vch_base::{Chain, Flags, NoMemory, Value};
use vch_model::{FlagList, PhaseList, QueueList, Scenario};

/// Three tasks, of which the first is a donor.
fn scenario(alloc: Global) -> Result<Scenario, NoMemory> {
    let mut flags = FlagList::new(alloc);
    let mut queues = QueueList::new(alloc);
    for task in 1..4u32 {
        flags.push(Flags {
            donor: task == 1,
            receiver: false,
        })?;
        queues.push(USUAL_QUEUE)?;
    }
    Ok(Scenario {
        version: 2,
        flags,
        queues,
        phases: PhaseList::new(alloc),
    })
}

/// What each task holds, what is out from it, and its ledger.
fn told(sums: &Sums) -> [(u64, u64, u64); 3] {
    [
        (sums.held(1), sums.out(1), sums.ledger(1)),
        (sums.held(2), sums.out(2), sums.ledger(2)),
        (sums.held(3), sums.out(3), sums.ledger(3)),
    ]
}

/// The list 1, 2, 3.
fn list() -> Value {
    let list = Chain::one(1).with(2).with(3);
    Value::Chain { list }
}

/// A list whose external count rises by 4 and falls by 1, an account with two charges, and a charge on a task's own value.
fn counted(alloc: Global) -> Result<Sums, NoMemory> {
    let scenario = scenario(alloc)?;
    let mut sums = Sums::start(alloc, &scenario)?;
    sums.made(&scenario, 1, &list())?;
    let account = Value::Account {
        holder: 2,
        merchant: 3,
    };
    sums.made(&scenario, 2, &account)?;
    sums.made(&scenario, 3, &Value::Task { task: 3 })?;
    sums.counted(1, true, 4)?;
    sums.counted(1, false, 1)?;
    sums.charged(2, 3, 7)?;
    sums.charged(2, 3, 8)?;
    sums.charged(3, 3, 9)?;
    Ok(sums)
}

/// The same after all three are released.
fn released(alloc: Global) -> Result<Sums, NoMemory> {
    let mut sums = counted(alloc)?;
    sums.released(2)?;
    sums.released(1)?;
    sums.released(3)?;
    Ok(sums)
}

#[test]
fn live_values_add_up_and_released_ones_are_credited(rt: HostRuntime) {
    let Ok(sums) = counted(rt.alloc()) else {
        panic!(rt; "no memory");
    };
    assert_eq!(rt; told(&sums), [(0, 4, 0), (0, 0, 0), (4, 0, 9)]);
    assert_eq!(rt;
        (sums.amount(1), sums.amount(2), sums.amount(3)),
        (3, 15, 0)
    );
    assert_eq!(rt; sums.live(), 3);
    let Ok(sums) = released(rt.alloc()) else {
        panic!(rt; "no memory");
    };
    assert_eq!(rt; told(&sums), [(0, 0, 0), (0, 0, 15), (0, 0, 9)]);
    assert_eq!(rt; sums.live(), 0);
}
