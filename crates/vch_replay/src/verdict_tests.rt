//! Reports that are judged: the client's and the service's, and changes of it.
use crate::call_tests::RING;
use crate::row_tests::{CLIENT, played, words_of};
use crate::run_steady;
use std::alloc::Global;
use std::test::Fail;
use vch_base::{SteadySink, SteadySource};

/// A report of the client and the service, and what is said of it.
struct Row {
    report: &'static str,
    status: u8,
    line: &'static str,
}

const ROWS: &[Row] = &[
    // The report of the run.
    Row {
        report: "report 1\nmade 2 list 1\nmade 7 user 6162\ncall 1 1 create 0 1\nmade 3 task 1\ncall 1 2 send 0\ncall 1 3 drop 0\nmade 2 list 1,2\nmade 3 account 1 2\ncall 2 1 recv 0 1 9 1\nreleased 1\nreleased 4\ncall 2 2 charge 0\ncall 2 3 assertions 0 1 0\ncall 2 4 drop 0\nreleased 7\nreleased 8\nreleased 2\nphase\ncall 1 4 ledger 0 1200\nphase\ntask 1 ledger 1200 held 0 out 0\ntask 2 ledger 0 held 0 out 0\nvouchers 0 values 1\nend\n",
        status: 0,
        line: "whole\n",
    },
    // Two releases change places.
    Row {
        report: "report 1\nmade 2 list 1\nmade 7 user 6162\ncall 1 1 create 0 1\nmade 3 task 1\ncall 1 2 send 0\ncall 1 3 drop 0\nmade 2 list 1,2\nmade 3 account 1 2\ncall 2 1 recv 0 1 9 1\nreleased 4\nreleased 1\ncall 2 2 charge 0\ncall 2 3 assertions 0 1 0\ncall 2 4 drop 0\nreleased 7\nreleased 8\nreleased 2\nphase\ncall 1 4 ledger 0 1200\nphase\ntask 1 ledger 1200 held 0 out 0\ntask 2 ledger 0 held 0 out 0\nvouchers 0 values 1\nend\n",
        status: 0,
        line: "whole\n",
    },
    // A value is left at the end of a phase.
    Row {
        report: "report 1\nmade 2 list 1\nmade 7 user 6162\ncall 1 1 create 0 1\nmade 3 task 1\ncall 1 2 send 0\ncall 1 3 drop 0\nmade 2 list 1,2\nmade 3 account 1 2\ncall 2 1 recv 0 1 9 1\nreleased 1\nreleased 4\ncall 2 2 charge 0\ncall 2 3 assertions 0 1 0\ncall 2 4 drop 0\nreleased 7\nreleased 8\nphase\ncall 1 4 ledger 0 1200\nphase\ntask 1 ledger 1200 held 0 out 0\ntask 2 ledger 0 held 0 out 0\nvouchers 0 values 1\nend\n",
        status: 0,
        line: "not entry 17\n",
    },
    // Another ledger is answered.
    Row {
        report: "report 1\nmade 2 list 1\nmade 7 user 6162\ncall 1 1 create 0 1\nmade 3 task 1\ncall 1 2 send 0\ncall 1 3 drop 0\nmade 2 list 1,2\nmade 3 account 1 2\ncall 2 1 recv 0 1 9 1\nreleased 1\nreleased 4\ncall 2 2 charge 0\ncall 2 3 assertions 0 1 0\ncall 2 4 drop 0\nreleased 7\nreleased 8\nreleased 2\nphase\ncall 1 4 ledger 0 1199\nphase\ntask 1 ledger 1200 held 0 out 0\ntask 2 ledger 0 held 0 out 0\nvouchers 0 values 1\nend\n",
        status: 0,
        line: "not entry 19\n",
    },
    // The last phase has no end.
    Row {
        report: "report 1\nmade 2 list 1\nmade 7 user 6162\ncall 1 1 create 0 1\nmade 3 task 1\ncall 1 2 send 0\ncall 1 3 drop 0\nmade 2 list 1,2\nmade 3 account 1 2\ncall 2 1 recv 0 1 9 1\nreleased 1\nreleased 4\ncall 2 2 charge 0\ncall 2 3 assertions 0 1 0\ncall 2 4 drop 0\nreleased 7\nreleased 8\nreleased 2\nphase\ncall 1 4 ledger 0 1200\ntask 1 ledger 1200 held 0 out 0\ntask 2 ledger 0 held 0 out 0\nvouchers 0 values 1\nend\n",
        status: 0,
        line: "not phase 2\n",
    },
    // A value is made behind the last phase.
    Row {
        report: "report 1\nmade 2 list 1\nmade 7 user 6162\ncall 1 1 create 0 1\nmade 3 task 1\ncall 1 2 send 0\ncall 1 3 drop 0\nmade 2 list 1,2\nmade 3 account 1 2\ncall 2 1 recv 0 1 9 1\nreleased 1\nreleased 4\ncall 2 2 charge 0\ncall 2 3 assertions 0 1 0\ncall 2 4 drop 0\nreleased 7\nreleased 8\nreleased 2\nphase\ncall 1 4 ledger 0 1200\nphase\nmade 7 user 00\ntask 1 ledger 1200 held 0 out 0\ntask 2 ledger 0 held 0 out 0\nvouchers 0 values 1\nend\n",
        status: 0,
        line: "not left 21\n",
    },
    // Another total.
    Row {
        report: "report 1\nmade 2 list 1\nmade 7 user 6162\ncall 1 1 create 0 1\nmade 3 task 1\ncall 1 2 send 0\ncall 1 3 drop 0\nmade 2 list 1,2\nmade 3 account 1 2\ncall 2 1 recv 0 1 9 1\nreleased 1\nreleased 4\ncall 2 2 charge 0\ncall 2 3 assertions 0 1 0\ncall 2 4 drop 0\nreleased 7\nreleased 8\nreleased 2\nphase\ncall 1 4 ledger 0 1200\nphase\ntask 1 ledger 1199 held 0 out 0\ntask 2 ledger 0 held 0 out 0\nvouchers 0 values 1\nend\n",
        status: 0,
        line: "not total 1\n",
    },
    // Another number of vouchers.
    Row {
        report: "report 1\nmade 2 list 1\nmade 7 user 6162\ncall 1 1 create 0 1\nmade 3 task 1\ncall 1 2 send 0\ncall 1 3 drop 0\nmade 2 list 1,2\nmade 3 account 1 2\ncall 2 1 recv 0 1 9 1\nreleased 1\nreleased 4\ncall 2 2 charge 0\ncall 2 3 assertions 0 1 0\ncall 2 4 drop 0\nreleased 7\nreleased 8\nreleased 2\nphase\ncall 1 4 ledger 0 1200\nphase\ntask 1 ledger 1200 held 0 out 0\ntask 2 ledger 0 held 0 out 0\nvouchers 1 values 1\nend\n",
        status: 0,
        line: "not count\n",
    },
    // The report does not end.
    Row {
        report: "report 1\nmade 2 list 1\nmade 7 user 6162\ncall 1 1 create 0 1\nmade 3 task 1\ncall 1 2 send 0\ncall 1 3 drop 0\nmade 2 list 1,2\nmade 3 account 1 2\ncall 2 1 recv 0 1 9 1\nreleased 1\nreleased 4\ncall 2 2 charge 0\ncall 2 3 assertions 0 1 0\ncall 2 4 drop 0\nreleased 7\nreleased 8\nreleased 2\nphase\ncall 1 4 ledger 0 1200\nphase\ntask 1 ledger 1200 held 0 out 0\ntask 2 ledger 0 held 0 out 0\nvouchers 0 values 1\n",
        status: 2,
        line: "fault report line 25\n",
    },
    // Of the other version.
    Row {
        report: "report 2\nphase\nphase\ntask 1 ledger 0 held 0 out 0\ntask 2 ledger 0 held 0 out 0\nvouchers 0 values 1\nend\n",
        status: 0,
        line: "not version\n",
    },
    // No report at all.
    Row {
        report: "",
        status: 2,
        line: "fault report line 1\n",
    },
];

#[test]
fn worked_verdicts(rt: HostRuntime) -> Result<(), Fail> {
    let alloc = rt.alloc();
    let words = words_of(alloc, &["certify"])?;
    for row in ROWS {
        let mut input = Vec::from_slice(alloc, CLIENT.as_bytes())?;
        input.extend_from_slice(row.report.as_bytes())?;
        let mut source = SteadySource::new(input);
        let mut sink = SteadySink::new(alloc, 1000)?;
        let status = run_steady(alloc, words.as_slice(), &mut source, &mut sink);
        assert_eq!(rt; status, row.status);
        assert_eq!(rt; sink.written(), row.line.as_bytes());
    }
    Ok(())
}

/// What is said of the report of a scenario's run by a seed.
fn verdict_of_seed(alloc: Global, scenario: &str, seed: &str) -> Result<SteadySink, Fail> {
    let report = played(alloc, &["play", seed], scenario.as_bytes(), 8000)?;
    let mut input = Vec::from_slice(alloc, scenario.as_bytes())?;
    input.extend_from_slice(report.written())?;
    played(alloc, &["certify"], input.as_slice(), 1000)
}

/// Scenarios, and the seeds of their schedules.
const SEEDED: &[(&str, &str)] = &[
    (CLIENT, "1"),
    (CLIENT, "2"),
    (CLIENT, "3"),
    (RING, "1"),
    (RING, "2"),
    (RING, "3"),
    (RING, "18446744073709551615"),
];

#[test]
fn runs_by_seeds_are_whole(rt: HostRuntime) -> Result<(), Fail> {
    let alloc = rt.alloc();
    for (scenario, seed) in SEEDED {
        let verdict = verdict_of_seed(alloc, scenario, seed)?;
        assert_eq!(rt; verdict.written(), b"whole\n".as_slice(), "{seed}");
    }
    Ok(())
}
