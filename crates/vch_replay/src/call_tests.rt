//! All calls over three tasks and vouchers of several keys, and values at their bounds, each with the whole report.
use crate::row_tests::played;
use std::alloc::Global;
use std::test::Fail;

/// Three tasks make, send, receive, read, charge and give up, by all twelve calls.
pub const RING: &str =
    "vouch 2\ntasks 3\ntask 1 donor receiver\ntask 2 donor receiver\ntask 3 donor receiver\nphase\n1 create 0300000062020000000000000000000002000000c8000000000000000000000007000000d30000000000000002000000616208000000d30000000000000000000000\n2 create 0300000062020000000000000000000002000000c8000000000000000000000007000000d300000000000000020000006364\n3 create 0300000062020000000000000000000002000000c80000000000000000000000\n1 send 2 copy 1 11\n2 send 3 copy 1 12\n3 send 1 copy 1 13\n1 recv\n2 recv\n3 recv\n1 live\n1 extract 2 2\n2 extract 2 3\n3 extract 2 7\n2 extract 2 8\n3 extract 2 8\n1 extract 1 3\n1 recipes 1\n2 recipes 2\n3 recipes 2\n1 extern 2 add 5\n2 extern 2 add 7\n3 extern 2 add 9\n3 extern 2 drop 4\n1 assertions\n2 assertions\n3 assertions\n1 charge 2 100\n2 charge 2 200\n3 charge 2 400\n1 ledger\n3 create ffffffff01000000020000000000000008000000d30000000000000000000000\n2 send 3 move 2 14\n1 ledger\nphase\n3 recv\n2 assertions\n3 assertions\n1 drop 2\n3 ledger\n2 drop 1\n3 exit\n2 exit\n1 exit\n2 ledger\n2 live\nend\n";

const RING_REPORT: &str =
    "report 2\nmade 2 list 1\nmade 7 user 6162\nmade 8 user -\ncall 1 1 create 0 1\nmade 2 list 2\nmade 7 user 6364\ncall 2 1 create 0 1\nmade 2 list 3\ncall 3 1 create 0 1\nmade 3 task 1\ncall 1 2 send 0\nmade 3 task 2\ncall 2 2 send 0\nmade 3 task 3\ncall 3 2 send 0\nmade 2 list 3,1\nmade 3 account 3 1\ncall 1 3 recv 0 3 13 2\nreleased 14\nmade 2 list 1,2\nmade 3 account 1 2\ncall 2 3 recv 0 1 11 2\nreleased 10\nmade 2 list 2,3\nmade 3 account 2 3\ncall 3 3 recv 0 2 12 2\nreleased 12\ncall 1 4 live 0 6 13\ncall 1 5 extract 0 0300000001000000\ncall 2 4 extract 0 0100000002000000\ncall 3 4 extract 0 6364\ncall 2 5 extract 0 -\ncall 3 5 extract 0 -\ncall 1 6 extract 0 -\ncall 1 7 recipes 0 whole 02000000c800000000000000000000000300000062020000000000000000000007000000d30000000000000002000000616208000000d30000000000000000000000\ncall 2 6 recipes 0 part 07000000d30000000000000002000000616208000000d30000000000000000000000\ncall 3 6 recipes 0 part 07000000d300000000000000020000006364\ncall 1 8 extern 0\ncall 2 7 extern 0\ncall 3 7 extern 0\ncall 3 8 extern 0\ncall 1 9 assertions 0 6 8\ncall 2 8 assertions 0 8 6\ncall 3 9 assertions 0 6 6\ncall 1 10 charge 0\ncall 2 9 charge 0\ncall 3 10 charge 0\ncall 1 11 ledger 0 0\ncall 3 11 create 0 3\nmade 3 task 1\ncall 2 10 send 0\nreleased 21\ncall 1 12 ledger 0 200\nphase\nmade 2 list 1,2,3\nmade 3 account 1 3\ncall 3 12 recv 0 2 14 4\nreleased 20\nreleased 50\ncall 2 11 assertions 0 0 6\ncall 3 13 assertions 0 7 6\ncall 1 13 drop 0\nreleased 16\nreleased 17\ncall 3 14 ledger 0 100\ncall 2 12 drop 0\nreleased 5\ngone 3 1\nreleased 8\ngone 3 2\ngone 3 3\nreleased 24\nreleased 25\nreleased 6\ngone 3 4\nreleased 55\nreleased 56\ncall 3 15 exit 0\ncall 2 13 exit 0\ngone 1 1\nreleased 1\nreleased 2\nreleased 3\ncall 1 14 exit 0\ncall 2 14 ledger 0 400\ncall 2 15 live 0 0 1\nphase\ntask 1 ledger 200 held 0 out 0\ntask 2 ledger 400 held 0 out 0\ntask 3 ledger 100 held 0 out 0\nvouchers 0 values 1\nend\n";

/// A scenario, and the report of its run in turn.
struct Row {
    scenario: &'static str,
    report: &'static str,
}

const ROWS: &[Row] = &[
    Row {
        scenario: RING,
        report: RING_REPORT,
    },
    // External counts at both ends.
    Row {
        scenario: "vouch 1\ntasks 2\ntask 1 donor\ntask 2 receiver\nphase\n1 create 02000000c80000000000000000000000\n1 send 2 copy 1 5\n2 recv\n2 extern 1 add 4294967295\n2 assertions\n2 extern 1 add 0\n2 extern 1 add 1\n2 extern 1 drop 4294967294\n2 assertions\n2 extern 1 drop 2\n2 extern 1 drop 1\n2 extern 1 drop 0\n2 extern 1 drop 1\n2 assertions\n1 assertions\nend\n",
        report: "report 1\nmade 2 list 1\ncall 1 1 create 0 1\ncall 1 2 send 0\nmade 2 list 1,2\ncall 2 1 recv 0 1 5 1\ncall 2 2 extern 0\ncall 2 3 assertions 0 4294967296 0\ncall 2 4 extern 0\ncall 2 5 extern 5\ncall 2 6 extern 0\ncall 2 7 assertions 0 2 0\ncall 2 8 extern 5\ncall 2 9 extern 0\ncall 2 10 extern 0\ncall 2 11 extern 5\ncall 2 12 assertions 0 1 0\ncall 1 3 assertions 0 0 1\nphase\ntask 1 ledger 0 held 0 out 1\ntask 2 ledger 0 held 1 out 0\nvouchers 2 values 3\nend\n",
    },
    // Key 8 has no manager in version 1; a copy without a previous voucher and a record that does nothing take any key.
    Row {
        scenario: "vouch 1\ntasks 1\ntask 1\nphase\n1 create 07000000d300000000000000020000006162\n1 extract 1 8\n1 create 08000000010000000100000000000000\n1 create 08000000010000000000000000000000\n1 create 08000000020000000000000000000000\n1 create 080000000a0000000100000000000000\n1 create 08000000d300000000000000020000006162\n1 create 08000000000000000000000000000000\nend\n",
        report: "report 1\nmade 7 user 6162\ncall 1 1 create 0 1\ncall 1 2 extract 4\ncall 1 3 create 4\ncall 1 4 create 0 2\ncall 1 5 create 4\ncall 1 6 create 4\ncall 1 7 create 4\ncall 1 8 create 0 2\nphase\ntask 1 ledger 0 held 0 out 0\nvouchers 2 values 2\nend\n",
    },
    // A task moves its last name to itself: the account is settled, and another one made at the receive.
    Row {
        scenario: "vouch 1\ntasks 2\ntask 1\ntask 2 receiver\nphase\n1 create 0300000062020000000000000000000002000000c80000000000000000000000\n1 send 2 move 1 1\n2 recv\n2 charge 1 10\n2 send 2 move 1 2\n2 charge 1 10\n2 recv\n2 charge 2 5\n1 ledger\n2 drop 2\n1 ledger\nend\n",
        report: "report 1\nmade 2 list 1\ncall 1 1 create 0 1\nmade 3 task 1\ncall 1 2 send 0\nmade 2 list 1,2\nmade 3 account 1 2\ncall 2 1 recv 0 1 1 1\nreleased 1\nreleased 3\ncall 2 2 charge 0\nmade 3 task 1\ncall 2 3 send 0\nreleased 6\ncall 2 4 charge 20\nmade 3 account 1 2\ncall 2 5 recv 0 2 2 2\nreleased 11\ncall 2 6 charge 0\ncall 1 3 ledger 0 10\ncall 2 7 drop 0\nreleased 5\nreleased 15\ncall 1 4 ledger 0 15\nphase\ntask 1 ledger 15 held 0 out 0\ntask 2 ledger 0 held 0 out 0\nvouchers 0 values 1\nend\n",
    },
    // Copies, removals and redeemed values, with a previous voucher and without one.
    Row {
        scenario: "vouch 1\ntasks 1\ntask 1\nphase\n1 create 07000000d300000000000000020000006364\n1 create 0300000062020000000000000000000002000000c8000000000000000000000007000000d300000000000000020000006162ffffffff010000000100000000000000\n1 create 07000000d30000000000000002000000616202000000c80000000000000000000000ffffffff020000000100000000000000\n1 create 07000000d30000000000000002000000636402000000c80000000000000000000000ffffffff020000000100000000000000\n1 create 07000000d300000000000000020000006162ffffffff020000000000000000000000\n1 create 07000000d300000000000000020000006162070000000a0000000300000000000000\n1 create 07000000d300000000000000020000006162070000000a0000000000000000000000\n1 create 07000000d300000000000000020000006364ffffffff0a0000000000000000000000\n1 create 07000000d30000000000000002000000616207000000010000000300000000000000\n1 create 07000000d30000000000000002000000616207000000010000000000000000000000\nend\n",
        report: "report 1\nmade 7 user 6364\ncall 1 1 create 0 1\nmade 2 list 1\nmade 7 user 6162\nreleased 3\nreleased 4\ncall 1 2 create 0 1\nmade 7 user 6162\nmade 2 list 1\ncall 1 3 create 0 2\ncall 1 4 create 0 3\ncall 1 5 create 0 4\ncall 1 6 create 0 4\ncall 1 7 create 0 5\ncall 1 8 create 0 1\ncall 1 9 create 0 4\ncall 1 10 create 0 5\nphase\ntask 1 ledger 0 held 0 out 0\nvouchers 5 values 4\nend\n",
    },
    // A bank value of the task itself stays as it is redeemed, sent and received.
    Row {
        scenario: "vouch 1\ntasks 1\ntask 1\nphase\n1 create 03000000620200000000000000000000\n1 send 1 copy 1 1\n1 recv\n1 create 030000000a0000000200000000000000\n1 recipes 2\n1 extract 2 3\n1 send 1 copy 2 2\n1 recv\n1 drop 2\n1 drop 2\n1 drop 2\nend\n",
        report: "report 1\ncall 1 1 create 0 1\nmade 3 task 1\ncall 1 2 send 0\ncall 1 3 recv 0 1 1 2\ncall 1 4 create 0 2\ncall 1 5 recipes 0 part -\ncall 1 6 extract 0 01000000\ncall 1 7 send 0\ncall 1 8 recv 0 1 2 2\ncall 1 9 drop 0\ncall 1 10 drop 0\ncall 1 11 drop 0\nreleased 2\nphase\ntask 1 ledger 0 held 0 out 0\nvouchers 1 values 1\nend\n",
    },
];

#[test]
fn worked_calls(rt: HostRuntime) -> Result<(), Fail> {
    let alloc = rt.alloc();
    for row in ROWS {
        let sink = played(alloc, &["play"], row.scenario.as_bytes(), 8000)?;
        assert_eq!(rt; sink.written(), row.report.as_bytes());
    }
    Ok(())
}
