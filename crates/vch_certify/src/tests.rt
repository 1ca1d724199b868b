use crate::{Flaw, Verdict, certify};
use std::alloc::Global;
use std::test::Fail;

/// A client that is a donor, and a service that receives importance.
const SCENARIO: &str =
    "vouch 1\ntasks 2\ntask 1 donor\ntask 2 receiver\nphase\n1 create 0300000062020000000000000000000002000000c8000000000000000000000007000000d300000000000000020000006162\n1 send 2 copy 1 9\n1 drop 1\n2 recv\n2 charge 1 1200\n2 assertions\n2 drop 1\nphase\n1 ledger\nend\n";

/// A report of it.
const REPORT: &str = "\
report 1
made 2 list 1
made 7 user 6162
call 1 1 create 0 1
made 3 task 1
call 1 2 send 0
call 1 3 drop 0
made 2 list 1,2
made 3 account 1 2
call 2 1 recv 0 1 9 1
released 1
released 4
call 2 2 charge 0
call 2 3 assertions 0 1 0
call 2 4 drop 0
released 7
released 8
released 2
phase
call 1 4 ledger 0 1200
phase
task 1 ledger 1200 held 0 out 0
task 2 ledger 0 held 0 out 0
vouchers 0 values 1
end
";

/// What is changed in the report, to what, and the verdict then.
#[derive(Clone, Copy)]
struct Row {
    from: &'static str,
    to: &'static str,
    verdict: Verdict,
}

const ROWS: [Row; 12] = [
    Row {
        from: "report 1",
        to: "report 1",
        verdict: Verdict::Whole,
    },
    Row {
        from: "released 1\nreleased 4",
        to: "released 4\nreleased 1",
        verdict: Verdict::Whole,
    },
    Row {
        from: "released 2\n",
        to: "",
        verdict: Verdict::Not {
            flaw: Flaw::Entry { number: 17 },
        },
    },
    Row {
        from: "0 1200",
        to: "0 1199",
        verdict: Verdict::Not {
            flaw: Flaw::Entry { number: 19 },
        },
    },
    Row {
        from: "1200\nphase\n",
        to: "1200\n",
        verdict: Verdict::Not {
            flaw: Flaw::Phase { phase: 2 },
        },
    },
    Row {
        from: "1200\nphase\n",
        to: "1200\nphase\nmade 7 user 00\n",
        verdict: Verdict::Not {
            flaw: Flaw::Left { made: 21 },
        },
    },
    Row {
        from: "ledger 1200",
        to: "ledger 1199",
        verdict: Verdict::Not {
            flaw: Flaw::Total { task: 1 },
        },
    },
    Row {
        from: "vouchers 0",
        to: "vouchers 1",
        verdict: Verdict::Not { flaw: Flaw::Count },
    },
    Row {
        from: "report 1",
        to: "report 2",
        verdict: Verdict::Not {
            flaw: Flaw::Version,
        },
    },
    Row {
        from: "call 1 4 ledger 0 1200\nphase\n",
        to: "",
        verdict: Verdict::Not {
            flaw: Flaw::Call { task: 1, number: 4 },
        },
    },
    Row {
        from: "released 4",
        to: "made 2 list 1,2",
        verdict: Verdict::Not {
            flaw: Flaw::Entry { number: 11 },
        },
    },
    Row {
        from: "1 3 drop 0",
        to: "1 3 drop 6",
        verdict: Verdict::Not {
            flaw: Flaw::Entry { number: 6 },
        },
    },
];

/// The verdict on a text of a report, or nothing where the texts can't be read.
fn verdict_on(alloc: Global, text: &str) -> Option<Verdict> {
    let Ok(scenario) = vch_scenario::read(alloc, SCENARIO.as_bytes()) else {
        return None;
    };
    if text.len() > 100000 {
        return None;
    }
    let Ok(report) = vch_report::read(alloc, text.as_bytes()) else {
        return None;
    };
    if report.history.len() > 100000 {
        return None;
    }
    certify(alloc, &scenario, &report).ok()
}

#[test]
fn changed_reports(rt: HostRuntime) -> Result<(), Fail> {
    let alloc = rt.alloc();
    for row in ROWS {
        let text = REPORT.replace(alloc, row.from, row.to)?;
        assert_eq!(rt;
            verdict_on(alloc, text.as_str()),
            Some(row.verdict),
            "{}",
            row.to
        );
    }
    Ok(())
}
