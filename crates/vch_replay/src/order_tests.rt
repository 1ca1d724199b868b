//! Runs in an order of single events.
ghost use Rattle.std.specs.Prelude.{◌≡◌, IfOk};
ghost use Rattle.vch_model.specs.Canonical.{IsWritable};

use std::alloc::Global;
use std::test::Fail;
use vch_base::Kind;
use vch_model::Scenario;
use vch_plain::play_plain;
use vch_report::report_of;
use vch_runs::{Stepped, are_tasks, drive, finish, step};
use vch_script::Script;
use vch_whole::Core;

/// A scenario, the order of its first events, and the report that it must come to.
struct Row {
    scenario: &'static [u8],
    order: &'static [u32],
    report: &'static str,
}

const ROWS: &[Row] = &[
    // A value is made again before the question about it: the manager refuses, and no value is released.
    Row {
        scenario: b"vouch 1\ntasks 2\ntask 1\ntask 2\nphase\n1 create 07000000d300000000000000020000006162\n1 drop 1\n2 create 07000000d300000000000000020000006162\nend\n",
        order: &[1, 1, 1, 1, 1, 1, 2, 2, 1, 1, 2, 2],
        report: "report 1\nmade 7 user 6162\ncall 1 1 create 0 1\ncall 1 2 drop 0\ncall 2 1 create 0 1\nphase\ntask 1 ledger 0 held 0 out 0\ntask 2 ledger 0 held 0 out 0\nvouchers 1 values 2\nend\n",
    },
    // A value is made again at the same handle after the manager agreed, and before the look at its answer.
    Row {
        scenario: b"vouch 1\ntasks 2\ntask 1\ntask 2\nphase\n1 create 07000000d300000000000000020000006162\n1 drop 1\n2 create 07000000d300000000000000020000006162\n2 drop 1\nend\n",
        order: &[1, 1, 1, 1, 1, 1, 1, 2, 2, 2, 1, 2, 2, 2, 2, 2],
        report: "report 1\nmade 7 user 6162\ncall 1 1 create 0 1\ncall 1 2 drop 0\nreleased 1\nmade 7 user 6162\ncall 2 1 create 0 1\ncall 2 2 drop 0\nreleased 5\nphase\ntask 1 ledger 0 held 0 out 0\ntask 2 ledger 0 held 0 out 0\nvouchers 0 values 1\nend\n",
    },
    // And it is let go of again before that look: the claim begins anew.
    Row {
        scenario: b"vouch 1\ntasks 2\ntask 1\ntask 2\nphase\n1 create 07000000d300000000000000020000006162\n1 drop 1\n2 create 07000000d300000000000000020000006162000000000000000000000000000000\nend\n",
        order: &[1, 1, 1, 1, 1, 1, 1, 2, 2, 2, 2, 2, 1, 1, 1],
        report: "report 1\nmade 7 user 6162\ncall 1 1 create 0 1\ncall 1 2 drop 0\nreleased 1\nmade 7 user 6162\ncall 2 1 create 4\nreleased 5\nphase\ntask 1 ledger 0 held 0 out 0\ntask 2 ledger 0 held 0 out 0\nvouchers 0 values 1\nend\n",
    },
    // Two sends begin at a queue with room for one message: the one that is placed later is refused.
    Row {
        scenario: b"vouch 2\ntasks 3\ntask 1\ntask 2\ntask 3 queue 1\nphase\n1 create 07000000d300000000000000020000006162\n1 send 3 copy 1 1\n2 create 07000000d300000000000000020000006364\n2 send 3 move 1 2\n3 recv\nend\n",
        order: &[1, 1, 1, 1, 2, 2, 2, 2, 1, 2, 2, 1],
        report: "report 2\nmade 7 user 6162\ncall 1 1 create 0 1\nmade 7 user 6364\ncall 2 1 create 0 1\ncall 2 2 send 0\ncall 1 2 send 268435460\ncall 3 1 recv 0 2 2 1\nphase\ntask 1 ledger 0 held 0 out 0\ntask 2 ledger 0 held 0 out 0\ntask 3 ledger 0 held 0 out 0\nvouchers 2 values 3\nend\n",
    },
    // A send asks for a value of a task before the question about it: the manager refuses, and the value is sent.
    Row {
        scenario: b"vouch 1\ntasks 3\ntask 1\ntask 2\ntask 3\nphase\n1 create 03000000620200000000000000000000\n1 send 2 copy 1 7\n1 send 3 copy 1 8\n2 recv\n2 charge 1 70\n3 recv\nend\n",
        order: &[
            1, 1, 1, 1, 1, 1, 1, 1, 1, 1, 2, 2, 2, 2, 2, 2, 1, 2, 2, 1, 1, 1,
        ],
        report: "report 1\ncall 1 1 create 0 1\nmade 3 task 1\ncall 1 2 send 0\nmade 3 account 1 2\ncall 2 1 recv 0 1 7 1\ncall 1 3 send 0\ncall 2 2 charge 0\nmade 3 account 1 3\ncall 3 1 recv 0 1 8 1\nreleased 2\nphase\ntask 1 ledger 0 held 0 out 0\ntask 2 ledger 0 held 0 out 0\ntask 3 ledger 0 held 0 out 0\nvouchers 3 values 3\nend\n",
    },
    // And after the manager agreed: the value is made anew, and the claim ends at the look at its answer.
    Row {
        scenario: b"vouch 1\ntasks 3\ntask 1\ntask 2\ntask 3\nphase\n1 create 03000000620200000000000000000000\n1 send 2 copy 1 7\n1 send 3 copy 1 8\n2 recv\n2 charge 1 70\n3 recv\nend\n",
        order: &[
            1, 1, 1, 1, 1, 1, 1, 1, 1, 1, 2, 2, 2, 2, 2, 2, 2, 1, 1, 1, 2, 1,
        ],
        report: "report 1\ncall 1 1 create 0 1\nmade 3 task 1\ncall 1 2 send 0\nmade 3 account 1 2\ncall 2 1 recv 0 1 7 1\nreleased 2\nmade 3 task 1\ncall 1 3 send 0\ncall 2 2 charge 0\nmade 3 account 1 3\ncall 3 1 recv 0 1 8 1\nreleased 7\nphase\ntask 1 ledger 0 held 0 out 0\ntask 2 ledger 0 held 0 out 0\ntask 3 ledger 0 held 0 out 0\nvouchers 3 values 3\nend\n",
    },
    // What is due is credited as the manager agrees, and not as the name is dropped.
    Row {
        scenario: b"vouch 1\ntasks 2\ntask 1\ntask 2\nphase\n1 create 03000000620200000000000000000000\n1 send 2 copy 1 7\n2 recv\n2 charge 1 70\n2 drop 1\n1 ledger\n1 ledger\nend\n",
        order: &[
            1, 1, 1, 1, 1, 1, 1, 1, 1, 2, 2, 2, 2, 2, 2, 2, 2, 2, 2, 2, 1, 2, 1,
        ],
        report: "report 1\ncall 1 1 create 0 1\nmade 3 task 1\ncall 1 2 send 0\nmade 3 account 1 2\ncall 2 1 recv 0 1 7 1\nreleased 2\ncall 2 2 charge 0\ncall 2 3 drop 0\ncall 1 3 ledger 0 0\nreleased 4\ncall 1 4 ledger 0 70\nphase\ntask 1 ledger 70 held 0 out 0\ntask 2 ledger 0 held 0 out 0\nvouchers 1 values 1\nend\n",
    },
    // A list counts from when it is made, before its receive is answered, until it is released.
    Row {
        scenario: b"vouch 1\ntasks 2\ntask 1 donor\ntask 2 receiver\nphase\n1 create 02000000c80000000000000000000000\n1 send 2 copy 1 5\n2 recv\n2 drop 1\n1 assertions\n1 assertions\n1 assertions\nend\n",
        order: &[1, 1, 1, 1, 1, 1, 1, 2, 2, 1, 2, 2, 2, 2, 2, 1, 2, 1],
        report: "report 1\nmade 2 list 1\ncall 1 1 create 0 1\ncall 1 2 send 0\nmade 2 list 1,2\ncall 1 3 assertions 0 0 1\ncall 2 1 recv 0 1 5 1\ncall 2 2 drop 0\ncall 1 4 assertions 0 0 1\nreleased 4\ncall 1 5 assertions 0 0 0\nphase\ntask 1 ledger 0 held 0 out 0\ntask 2 ledger 0 held 0 out 0\nvouchers 1 values 2\nend\n",
    },
    // A value of a name that an exit gave up is made again before the question about it.
    Row {
        scenario: b"vouch 2\ntasks 2\ntask 1\ntask 2\nphase\n1 create 07000000d300000000000000020000006162\n1 exit\n2 create 07000000d300000000000000020000006162\nend\n",
        order: &[1, 1, 1, 1, 1, 1, 1, 2, 2, 1, 1, 2, 2],
        report: "report 2\nmade 7 user 6162\ncall 1 1 create 0 1\ngone 1 1\ncall 2 1 create 0 1\ncall 1 2 exit 0\nphase\ntask 1 ledger 0 held 0 out 0\ntask 2 ledger 0 held 0 out 0\nvouchers 1 values 2\nend\n",
    },
    // And so is that of a message which an exit lost.
    Row {
        scenario: b"vouch 2\ntasks 2\ntask 1\ntask 2\nphase\n1 create 07000000d300000000000000020000006162\n1 send 2 move 1 1\n2 exit\n1 create 07000000d300000000000000020000006162\nend\n",
        order: &[1, 1, 1, 1, 1, 1, 1, 2, 2, 1, 2, 1, 2, 2, 1, 1],
        report: "report 2\nmade 7 user 6162\ncall 1 1 create 0 1\ncall 1 2 send 0\nlost 2\ncall 1 3 create 0 2\ncall 2 1 exit 0\nphase\ntask 1 ledger 0 held 0 out 0\ntask 2 ledger 0 held 0 out 0\nvouchers 1 values 2\nend\n",
    },
    // A value is made for another task between the two records of a create, and the replaced one is asked for once more.
    Row {
        scenario: b"vouch 1\ntasks 3\ntask 1\ntask 2\ntask 3\nphase\n1 create 07000000d30000000000000002000000616207000000d300000000000000020000006364\n2 create 07000000d300000000000000020000006364\n3 create 07000000d300000000000000020000006162\nend\n",
        order: &[1, 1, 1, 2, 2, 1, 1, 3, 3, 1, 3, 1, 1, 1, 2, 2, 2, 3],
        report: "report 1\nmade 7 user 6162\nmade 7 user 6364\ncall 1 1 create 0 1\ncall 2 1 create 0 1\ncall 3 1 create 0 1\nphase\ntask 1 ledger 0 held 0 out 0\ntask 2 ledger 0 held 0 out 0\ntask 3 ledger 0 held 0 out 0\nvouchers 2 values 3\nend\n",
    },
    // Reads and drops of two tasks stand between the first Make of a create and its Place.
    Row {
        scenario: b"vouch 1\ntasks 3\ntask 1\ntask 2\ntask 3\nphase\n2 create 02000000c8000000000000000000000007000000d300000000000000020000006162\n3 create 02000000c8000000000000000000000007000000d300000000000000020000006162\n1 create 07000000d30000000000000002000000616202000000c80000000000000000000000\n2 extract 1 7\n3 recipes 1\n2 drop 1\n3 drop 1\n1 extract 1 7\n1 recipes 1\nend\n",
        order: &[
            2, 2, 2, 2, 2, 2, 3, 3, 3, 3, 3, 3, 1, 1, 2, 3, 2, 1, 3, 2, 2, 1, 2, 1, 2, 1,
        ],
        report: "report 1\nmade 2 list 2\nmade 7 user 6162\ncall 2 1 create 0 1\nmade 2 list 3\ncall 3 1 create 0 1\ncall 2 2 extract 0 6162\ncall 3 2 recipes 0 whole 02000000c8000000000000000000000007000000d300000000000000020000006162\ncall 2 3 drop 0\ncall 3 3 drop 0\nreleased 1\nmade 2 list 1\ncall 1 1 create 0 1\nreleased 4\ncall 1 2 extract 0 6162\ncall 1 3 recipes 0 whole 02000000c8000000000000000000000007000000d300000000000000020000006162\nphase\ntask 1 ledger 0 held 0 out 0\ntask 2 ledger 0 held 0 out 0\ntask 3 ledger 0 held 0 out 0\nvouchers 1 values 3\nend\n",
    },
    // And between the Make of a receive and its Place, while the message still holds its voucher.
    Row {
        scenario: b"vouch 1\ntasks 3\ntask 1\ntask 2\ntask 3\nphase\n1 create 0300000062020000000000000000000007000000d300000000000000020000006162\n1 send 2 copy 1 7\n2 recv\n1 extract 1 3\n3 live\n1 recipes 1\nend\n",
        order: &[1, 1, 1, 1, 1, 1, 1, 1, 1, 1, 1, 2, 2, 1, 3, 2, 1, 2, 2],
        report: "report 1\nmade 7 user 6162\ncall 1 1 create 0 1\nmade 3 task 1\ncall 1 2 send 0\nmade 3 account 1 2\ncall 1 3 extract 0 -\ncall 3 1 live 0 2 4\ncall 1 4 recipes 0 whole 0300000062020000000000000000000007000000d300000000000000020000006162\ncall 2 1 recv 0 1 7 1\nreleased 3\nphase\ntask 1 ledger 0 held 0 out 0\ntask 2 ledger 0 held 0 out 0\ntask 3 ledger 0 held 0 out 0\nvouchers 2 values 3\nend\n",
    },
    // The service looks at what is live before the client's message is placed.
    Row {
        scenario: b"vouch 1\ntasks 2\ntask 1 donor\ntask 2 receiver\nphase\n1 create 0300000062020000000000000000000002000000c8000000000000000000000007000000d300000000000000020000006162\n1 send 2 copy 1 9\n1 drop 1\n2 live\n2 recv\n2 charge 1 1200\n2 assertions\n2 drop 1\nphase\n1 ledger\nend\n",
        order: &[2, 1, 1, 1, 1, 1, 1, 1, 1, 1, 1, 1, 1, 1],
        report: "report 1\ncall 2 1 live 0 0 1\nmade 2 list 1\nmade 7 user 6162\ncall 1 1 create 0 1\nmade 3 task 1\ncall 1 2 send 0\ncall 1 3 drop 0\nmade 2 list 1,2\nmade 3 account 1 2\ncall 2 2 recv 0 1 9 1\nreleased 2\nreleased 5\ncall 2 3 charge 0\ncall 2 4 assertions 0 1 0\ncall 2 5 drop 0\nreleased 8\nreleased 9\nreleased 3\nphase\ncall 1 4 ledger 0 1200\nphase\ntask 1 ledger 1200 held 0 out 0\ntask 2 ledger 0 held 0 out 0\nvouchers 0 values 1\nend\n",
    },
    // A task is held after its Begin until the other one did its Place.
    Row {
        scenario: b"vouch 1\ntasks 2\ntask 1\ntask 2\nphase\n1 create 07000000d300000000000000020000006162\n1 drop 1\n2 create 07000000d300000000000000020000006162\nend\n",
        order: &[1, 2, 2, 2, 2],
        report: "report 1\nmade 7 user 6162\ncall 2 1 create 0 1\ncall 1 1 create 0 1\ncall 1 2 drop 0\nphase\ntask 1 ledger 0 held 0 out 0\ntask 2 ledger 0 held 0 out 0\nvouchers 1 values 2\nend\n",
    },
    // Held after its Make.
    Row {
        scenario: b"vouch 1\ntasks 2\ntask 1\ntask 2\nphase\n1 create 07000000d300000000000000020000006162\n1 drop 1\n2 create 07000000d300000000000000020000006162\nend\n",
        order: &[1, 1, 2, 2, 2, 2],
        report: "report 1\nmade 7 user 6162\ncall 2 1 create 0 1\ncall 1 1 create 0 1\ncall 1 2 drop 0\nphase\ntask 1 ledger 0 held 0 out 0\ntask 2 ledger 0 held 0 out 0\nvouchers 1 values 2\nend\n",
    },
    // Held after its Refer.
    Row {
        scenario: b"vouch 1\ntasks 2\ntask 1\ntask 2\nphase\n1 create 07000000d300000000000000020000006162\n1 drop 1\n2 create 07000000d300000000000000020000006162\nend\n",
        order: &[1, 1, 1, 2, 2, 2, 2],
        report: "report 1\nmade 7 user 6162\ncall 2 1 create 0 1\ncall 1 1 create 0 1\ncall 1 2 drop 0\nphase\ntask 1 ledger 0 held 0 out 0\ntask 2 ledger 0 held 0 out 0\nvouchers 1 values 2\nend\n",
    },
    // Held after the Work of a record that does nothing.
    Row {
        scenario: b"vouch 1\ntasks 2\ntask 1\ntask 2\nphase\n1 create 0700000000000000000000000000000007000000d300000000000000020000006162\n1 drop 1\n2 create 07000000d300000000000000020000006162\nend\n",
        order: &[1, 1, 2, 2, 2, 2],
        report: "report 1\nmade 7 user 6162\ncall 2 1 create 0 1\ncall 1 1 create 0 1\ncall 1 2 drop 0\nphase\ntask 1 ledger 0 held 0 out 0\ntask 2 ledger 0 held 0 out 0\nvouchers 1 values 2\nend\n",
    },
    // Held after its Place.
    Row {
        scenario: b"vouch 1\ntasks 2\ntask 1\ntask 2\nphase\n1 create 07000000d300000000000000020000006162\n1 drop 1\n2 create 07000000d300000000000000020000006162\nend\n",
        order: &[1, 1, 1, 1, 2, 2, 2, 2],
        report: "report 1\nmade 7 user 6162\ncall 1 1 create 0 1\ncall 2 1 create 0 1\ncall 1 2 drop 0\nphase\ntask 1 ledger 0 held 0 out 0\ntask 2 ledger 0 held 0 out 0\nvouchers 1 values 2\nend\n",
    },
    // Held after its LetGo.
    Row {
        scenario: b"vouch 1\ntasks 2\ntask 1\ntask 2\nphase\n1 create 07000000d300000000000000020000006162\n1 drop 1\n2 create 07000000d300000000000000020000006162\nend\n",
        order: &[1, 1, 1, 1, 1, 1, 2, 2, 2, 2],
        report: "report 1\nmade 7 user 6162\ncall 1 1 create 0 1\ncall 1 2 drop 0\ncall 2 1 create 0 1\nphase\ntask 1 ledger 0 held 0 out 0\ntask 2 ledger 0 held 0 out 0\nvouchers 1 values 2\nend\n",
    },
    // Held after its Ask.
    Row {
        scenario: b"vouch 1\ntasks 2\ntask 1\ntask 2\nphase\n1 create 07000000d300000000000000020000006162\n1 drop 1\n2 create 07000000d300000000000000020000006162\nend\n",
        order: &[1, 1, 1, 1, 1, 1, 1, 2, 2, 2, 2],
        report: "report 1\nmade 7 user 6162\ncall 1 1 create 0 1\ncall 1 2 drop 0\nreleased 1\nmade 7 user 6162\ncall 2 1 create 0 1\nphase\ntask 1 ledger 0 held 0 out 0\ntask 2 ledger 0 held 0 out 0\nvouchers 1 values 2\nend\n",
    },
    // Held after its Recheck.
    Row {
        scenario: b"vouch 1\ntasks 2\ntask 1\ntask 2\nphase\n1 create 07000000d300000000000000020000006162\n1 drop 1\n2 create 07000000d300000000000000020000006162\nend\n",
        order: &[1, 1, 1, 1, 1, 1, 1, 1, 2, 2, 2, 2],
        report: "report 1\nmade 7 user 6162\ncall 1 1 create 0 1\ncall 1 2 drop 0\nreleased 1\nmade 7 user 6162\ncall 2 1 create 0 1\nphase\ntask 1 ledger 0 held 0 out 0\ntask 2 ledger 0 held 0 out 0\nvouchers 1 values 2\nend\n",
    },
];

/// The scenario of some bytes.
fn scenario_of(alloc: Global, bytes: &[u8]) -> Result<Scenario, Fail>
    ensures { IfOk result (λ scenario. IsWritable scenario) }
{
    if bytes.len() > 4194304 {
        return Err(Fail::new("too long"));
    }
    match vch_scenario::read(alloc, bytes) {
        Ok(scenario) => Ok(scenario),
        Err(_) => Err(Fail::new("not a scenario")),
    }
}

/// A core at the start of a scenario.
fn start(alloc: Global, scenario: Scenario) -> Result<Core, Fail>
    requires writable { IsWritable scenario }
    ensures { IfOk result (λ core. core.scenario ≡ scenario) }
{
    let script = Script::new(alloc, scenario)?;
    Ok(Core::start(alloc, script)?)
}

/// A core after an order of events.
fn driven(alloc: Global, scenario: Scenario, order: &[u32]) -> Result<Core, Fail>
    requires writable { IsWritable scenario }
    ensures { IfOk result (λ core. core.scenario ≡ scenario) }
{
    let mut core = start(alloc, scenario)?;
    if !are_tasks(&core, order) {
        return Err(Fail::new("not an order of tasks"));
    }
    drive(&mut core, alloc, order);
    Ok(core)
}

/// The report after the rest of a run, in turn.
fn finished(alloc: Global, core: &mut Core) -> Result<Vec<u8>, Fail>
    requires writable { IsWritable core.old.scenario }
{
    finish(core, alloc);
    let report = report_of(alloc, core)?;
    Ok(vch_report::write(alloc, &report)?)
}

/// The report after an order of events, and the rest in turn.
fn ordered(alloc: Global, scenario: Scenario, order: &[u32]) -> Result<Vec<u8>, Fail>
    requires { IsWritable scenario }
{
    let mut core = driven(alloc, scenario, order)?;
    finished(alloc, &mut core)
}

#[test]
fn worked_orders(rt: HostRuntime) -> Result<(), Fail> {
    let alloc = rt.alloc();
    for row in ROWS {
        let scenario = scenario_of(alloc, row.scenario)?;
        let report = ordered(alloc, scenario, row.order)?;
        assert_eq!(rt; report.as_slice(), row.report.as_bytes());
    }
    Ok(())
}

/// How many entries the plain run of a scenario has.
fn plain_entries(alloc: Global, scenario: &Scenario) -> Result<usize, Fail>
    requires { IsWritable scenario.now }
{
    let played = play_plain(alloc, scenario)?;
    Ok(played.history.len())
}

/// In turn each value is released before it is made again.
#[test]
fn plain_runs(rt: HostRuntime) -> Result<(), Fail> {
    let alloc = rt.alloc();
    let entries = [7, 9, 8];
    for i in 0..3 {
        let scenario = scenario_of(alloc, ROWS[i].scenario)?;
        assert_eq!(rt; plain_entries(alloc, &scenario)?, entries[i]);
    }
    Ok(())
}

/// The tasks of the first row's order, each with the event that it does.
const STEPS: &[(u32, Kind)] = &[
    (1, Kind::Begin),
    (1, Kind::Make),
    (1, Kind::Refer),
    (1, Kind::Place),
    (1, Kind::Begin),
    (1, Kind::LetGo),
    (2, Kind::Begin),
    (2, Kind::Make),
    (1, Kind::Ask),
    (1, Kind::Recheck),
    (2, Kind::Refer),
    (2, Kind::Place),
];

/// One step of a task.
fn step_of(alloc: Global, core: &mut Core, task: u32) -> Result<Stepped, Fail> {
    if !are_tasks(core, &[task]) {
        return Err(Fail::new("not a task"));
    }
    Ok(step(core, alloc, task))
}

#[test]
fn steps_of_the_race(rt: HostRuntime) -> Result<(), Fail> {
    let alloc = rt.alloc();
    let scenario = scenario_of(alloc, ROWS[0].scenario)?;
    let mut core = start(alloc, scenario)?;
    for (task, kind) in STEPS {
        let Stepped::Went { did, .. } = step_of(alloc, &mut core, *task)? else {
            return Err(Fail::new("no step"));
        };
        assert!(rt; did == *kind);
    }
    assert!(rt; step_of(alloc, &mut core, 1)? == Stepped::PhaseEnd);
    assert!(rt; core.next_phase());
    assert!(rt; step_of(alloc, &mut core, 1)? == Stepped::Ended);
    Ok(())
}
