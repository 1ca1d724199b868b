//! Worked runs of every call, each with its whole report.
use crate::{run_plain, run_steady};
use std::alloc::Global;
use std::test::Fail;
use vch_base::{MemSink, MemSource, SteadySink, SteadySource};

/// Words, a scenario, and its report.
struct Row {
    words: &'static [&'static str],
    scenario: &'static str,
    report: &'static str,
}

/// A client and a service, in two phases.
pub const CLIENT: &str =
    "vouch 1\ntasks 2\ntask 1 donor\ntask 2 receiver\nphase\n1 create 0300000062020000000000000000000002000000c8000000000000000000000007000000d300000000000000020000006162\n1 send 2 copy 1 9\n1 drop 1\n2 recv\n2 charge 1 1200\n2 assertions\n2 drop 1\nphase\n1 ledger\nend\n";

const CLIENT_REPORT: &str =
    "report 1\nmade 2 list 1\nmade 7 user 6162\ncall 1 1 create 0 1\nmade 3 task 1\ncall 1 2 send 0\ncall 1 3 drop 0\nmade 2 list 1,2\nmade 3 account 1 2\ncall 2 1 recv 0 1 9 1\nreleased 1\nreleased 4\ncall 2 2 charge 0\ncall 2 3 assertions 0 1 0\ncall 2 4 drop 0\nreleased 7\nreleased 8\nreleased 2\nphase\ncall 1 4 ledger 0 1200\nphase\ntask 1 ledger 1200 held 0 out 0\ntask 2 ledger 0 held 0 out 0\nvouchers 0 values 1\nend\n";

const ROWS: &[Row] = &[
    // The voucher without a value, its recipe, and what is live.
    Row {
        words: &["play"],
        scenario: "vouch 1\ntasks 1\ntask 1\nphase\n1 create ffffffff020000000000000000000000\n1 create ffffffff020000000000000000000000\n1 live\n1 recipes 1\nend\n",
        report: "report 1\ncall 1 1 create 0 1\ncall 1 2 create 0 1\ncall 1 3 live 0 1 1\ncall 1 4 recipes 0 whole ffffffff020000000000000000000000\nphase\ntask 1 ledger 0 held 0 out 0\nvouchers 1 values 1\nend\n",
    },
    // Values of keys, read out.
    Row {
        words: &["play"],
        scenario: "vouch 1\ntasks 1\ntask 1\nphase\n1 create 07000000d300000000000000020000006162\n1 create ffffffff01000000010000000000000002000000c8000000000000000000000007000000d300000000000000020000006364\n1 extract 1 7\n1 extract 2 7\n1 extract 2 2\nend\n",
        report: "report 1\nmade 7 user 6162\ncall 1 1 create 0 1\nmade 2 list 1\nmade 7 user 6364\ncall 1 2 create 0 2\ncall 1 3 extract 0 6162\ncall 1 4 extract 0 6364\ncall 1 5 extract 0 01000000\nphase\ntask 1 ledger 0 held 0 out 0\nvouchers 2 values 4\nend\n",
    },
    // A whole recipe makes its voucher again.
    Row {
        words: &["play"],
        scenario: "vouch 1\ntasks 1\ntask 1\nphase\n1 create 07000000d300000000000000020000006162\n1 create ffffffff01000000010000000000000002000000c8000000000000000000000007000000d300000000000000020000006364\n1 extract 1 7\n1 extract 2 7\n1 extract 2 2\n1 recipes 2\n1 create 02000000c8000000000000000000000007000000d300000000000000020000006364\nend\n",
        report: "report 1\nmade 7 user 6162\ncall 1 1 create 0 1\nmade 2 list 1\nmade 7 user 6364\ncall 1 2 create 0 2\ncall 1 3 extract 0 6162\ncall 1 4 extract 0 6364\ncall 1 5 extract 0 01000000\ncall 1 6 recipes 0 whole 02000000c8000000000000000000000007000000d300000000000000020000006364\ncall 1 7 create 0 2\nphase\ntask 1 ledger 0 held 0 out 0\nvouchers 2 values 4\nend\n",
    },
    // A list grows as it is received, and what is held and out follows it.
    Row {
        words: &["play"],
        scenario: "vouch 1\ntasks 3\ntask 1 donor\ntask 2 receiver\ntask 3 receiver\nphase\n1 create 02000000c80000000000000000000000\n1 send 2 copy 1 5\n2 recv\n2 send 3 copy 1 6\n3 recv\n1 assertions\n2 assertions\n3 assertions\n2 drop 1\n1 assertions\n3 drop 1\n1 drop 1\nend\n",
        report: "report 1\nmade 2 list 1\ncall 1 1 create 0 1\ncall 1 2 send 0\nmade 2 list 1,2\ncall 2 1 recv 0 1 5 1\ncall 2 2 send 0\nmade 2 list 1,2,3\ncall 3 1 recv 0 2 6 1\ncall 1 3 assertions 0 0 2\ncall 2 3 assertions 0 1 0\ncall 3 2 assertions 0 1 0\ncall 2 4 drop 0\nreleased 4\ncall 1 4 assertions 0 0 1\ncall 3 3 drop 0\nreleased 7\ncall 1 5 drop 0\nreleased 1\nphase\ntask 1 ledger 0 held 0 out 0\ntask 2 ledger 0 held 0 out 0\ntask 3 ledger 0 held 0 out 0\nvouchers 0 values 1\nend\n",
    },
    // A list of others has no recipe.
    Row {
        words: &["play"],
        scenario: "vouch 1\ntasks 3\ntask 1 donor\ntask 2 receiver\ntask 3 receiver\nphase\n1 create 02000000c80000000000000000000000\n1 send 2 copy 1 5\n2 recv\n2 recipes 1\n2 send 3 copy 1 6\n3 recv\n1 assertions\n2 assertions\n3 assertions\n2 drop 1\n1 assertions\n3 drop 1\n1 drop 1\nend\n",
        report: "report 1\nmade 2 list 1\ncall 1 1 create 0 1\ncall 1 2 send 0\nmade 2 list 1,2\ncall 2 1 recv 0 1 5 1\ncall 2 2 recipes 0 part -\ncall 2 3 send 0\nmade 2 list 1,2,3\ncall 3 1 recv 0 2 6 1\ncall 1 3 assertions 0 0 2\ncall 2 4 assertions 0 1 0\ncall 3 2 assertions 0 1 0\ncall 2 5 drop 0\nreleased 4\ncall 1 4 assertions 0 0 1\ncall 3 3 drop 0\nreleased 8\ncall 1 5 drop 0\nreleased 1\nphase\ntask 1 ledger 0 held 0 out 0\ntask 2 ledger 0 held 0 out 0\ntask 3 ledger 0 held 0 out 0\nvouchers 0 values 1\nend\n",
    },
    // Without the flag `receiver` a list stays.
    Row {
        words: &["play"],
        scenario: "vouch 1\ntasks 3\ntask 1 donor\ntask 2\ntask 3\nphase\n1 create 02000000c80000000000000000000000\n1 send 2 copy 1 5\n2 recv\n2 send 3 copy 1 6\n3 recv\n1 assertions\n2 assertions\n3 assertions\n2 drop 1\n1 assertions\n3 drop 1\n1 drop 1\nend\n",
        report: "report 1\nmade 2 list 1\ncall 1 1 create 0 1\ncall 1 2 send 0\ncall 2 1 recv 0 1 5 1\ncall 2 2 send 0\ncall 3 1 recv 0 2 6 1\ncall 1 3 assertions 0 0 0\ncall 2 3 assertions 0 0 0\ncall 3 2 assertions 0 0 0\ncall 2 4 drop 0\ncall 1 4 assertions 0 0 0\ncall 3 3 drop 0\ncall 1 5 drop 0\nreleased 1\nphase\ntask 1 ledger 0 held 0 out 0\ntask 2 ledger 0 held 0 out 0\ntask 3 ledger 0 held 0 out 0\nvouchers 0 values 1\nend\n",
    },
    // A list has eight tasks at most.
    Row {
        words: &["play"],
        scenario: "vouch 1\ntasks 9\ntask 1 donor receiver\ntask 2 donor receiver\ntask 3 donor receiver\ntask 4 donor receiver\ntask 5 donor receiver\ntask 6 donor receiver\ntask 7 donor receiver\ntask 8 donor receiver\ntask 9 donor receiver\nphase\n1 create 02000000c80000000000000000000000\n1 send 2 copy 1 1\n2 recv\n2 send 3 copy 1 2\n3 recv\n3 send 4 copy 1 3\n4 recv\n4 send 5 copy 1 4\n5 recv\n5 send 6 copy 1 5\n6 recv\n6 send 7 copy 1 6\n7 recv\n7 send 8 copy 1 7\n8 recv\n8 send 9 copy 1 8\n9 recv\n9 extract 1 2\n9 extern 1 add 1\n9 assertions\n8 assertions\nend\n",
        report: "report 1\nmade 2 list 1\ncall 1 1 create 0 1\ncall 1 2 send 0\nmade 2 list 1,2\ncall 2 1 recv 0 1 1 1\ncall 2 2 send 0\nmade 2 list 1,2,3\ncall 3 1 recv 0 2 2 1\ncall 3 2 send 0\nmade 2 list 1,2,3,4\ncall 4 1 recv 0 3 3 1\ncall 4 2 send 0\nmade 2 list 1,2,3,4,5\ncall 5 1 recv 0 4 4 1\ncall 5 2 send 0\nmade 2 list 1,2,3,4,5,6\ncall 6 1 recv 0 5 5 1\ncall 6 2 send 0\nmade 2 list 1,2,3,4,5,6,7\ncall 7 1 recv 0 6 6 1\ncall 7 2 send 0\nmade 2 list 1,2,3,4,5,6,7,8\ncall 8 1 recv 0 7 7 1\ncall 8 2 send 0\ncall 9 1 recv 0 8 8 1\ncall 9 2 extract 0 0100000002000000030000000400000005000000060000000700000008000000\ncall 9 3 extern 4\ncall 9 4 assertions 0 0 0\ncall 8 3 assertions 0 1 0\nphase\ntask 1 ledger 0 held 0 out 7\ntask 2 ledger 0 held 1 out 0\ntask 3 ledger 0 held 1 out 0\ntask 4 ledger 0 held 1 out 0\ntask 5 ledger 0 held 1 out 0\ntask 6 ledger 0 held 1 out 0\ntask 7 ledger 0 held 1 out 0\ntask 8 ledger 0 held 1 out 0\ntask 9 ledger 0 held 0 out 0\nvouchers 8 values 9\nend\n",
    },
    // Charges are due until their account is released, and then in the holder's ledger.
    Row {
        words: &["play"],
        scenario: "vouch 1\ntasks 3\ntask 1\ntask 2\ntask 3\nphase\n1 create 03000000620200000000000000000000\n1 send 2 copy 1 7\n2 recv\n2 charge 1 70\n2 charge 1 5\n2 send 3 copy 1 8\n3 recv\n3 charge 1 9\n2 drop 1\n1 ledger\n3 drop 1\n1 ledger\n1 drop 1\nend\n",
        report: "report 1\ncall 1 1 create 0 1\nmade 3 task 1\ncall 1 2 send 0\nmade 3 account 1 2\ncall 2 1 recv 0 1 7 1\nreleased 2\ncall 2 2 charge 0\ncall 2 3 charge 0\nmade 3 task 1\ncall 2 4 send 0\nmade 3 account 1 3\ncall 3 1 recv 0 2 8 1\nreleased 9\ncall 3 2 charge 0\ncall 2 5 drop 0\nreleased 4\ncall 1 3 ledger 0 75\ncall 3 3 drop 0\nreleased 11\ncall 1 4 ledger 0 84\ncall 1 5 drop 0\nphase\ntask 1 ledger 84 held 0 out 0\ntask 2 ledger 0 held 0 out 0\ntask 3 ledger 0 held 0 out 0\nvouchers 0 values 1\nend\n",
    },
    // A task charges its own ledger at once.
    Row {
        words: &["play"],
        scenario: "vouch 1\ntasks 1\ntask 1\nphase\n1 create 03000000620200000000000000000000\n1 send 1 copy 1 1\n1 recv\n1 charge 2 4294967295\n1 ledger\n1 charge 1 1\nend\n",
        report: "report 1\ncall 1 1 create 0 1\nmade 3 task 1\ncall 1 2 send 0\ncall 1 3 recv 0 1 1 2\ncall 1 4 charge 0\ncall 1 5 ledger 0 4294967295\ncall 1 6 charge 4\nphase\ntask 1 ledger 4294967295 held 0 out 0\nvouchers 2 values 2\nend\n",
    },
    // External counts of a list, and a drop of more than there are.
    Row {
        words: &["play"],
        scenario: "vouch 1\ntasks 2\ntask 1 donor\ntask 2 receiver\nphase\n1 create 02000000c80000000000000000000000\n1 send 2 copy 1 5\n2 recv\n2 extern 1 add 3\n2 assertions\n2 extern 1 drop 4\n2 assertions\n1 extern 1 add 1\nend\n",
        report: "report 1\nmade 2 list 1\ncall 1 1 create 0 1\ncall 1 2 send 0\nmade 2 list 1,2\ncall 2 1 recv 0 1 5 1\ncall 2 2 extern 0\ncall 2 3 assertions 0 4 0\ncall 2 4 extern 5\ncall 2 5 assertions 0 4 0\ncall 1 3 extern 4\nphase\ntask 1 ledger 0 held 0 out 4\ntask 2 ledger 0 held 4 out 0\nvouchers 2 values 3\nend\n",
    },
    // No external count passes 4294967295.
    Row {
        words: &["play"],
        scenario: "vouch 1\ntasks 2\ntask 1 donor\ntask 2 receiver\nphase\n1 create 02000000c80000000000000000000000\n1 send 2 copy 1 5\n2 recv\n2 extern 1 add 3\n2 extern 1 add 4294967295\n2 assertions\n2 extern 1 drop 4\n2 assertions\n1 extern 1 add 1\nend\n",
        report: "report 1\nmade 2 list 1\ncall 1 1 create 0 1\ncall 1 2 send 0\nmade 2 list 1,2\ncall 2 1 recv 0 1 5 1\ncall 2 2 extern 0\ncall 2 3 extern 5\ncall 2 4 assertions 0 4 0\ncall 2 5 extern 5\ncall 2 6 assertions 0 4 0\ncall 1 3 extern 4\nphase\ntask 1 ledger 0 held 0 out 4\ntask 2 ledger 0 held 4 out 0\nvouchers 2 values 3\nend\n",
    },
    // A queued message keeps a list, and its external count, live.
    Row {
        words: &["play"],
        scenario: "vouch 1\ntasks 2\ntask 1 donor\ntask 2 receiver\nphase\n1 create 02000000c80000000000000000000000\n1 send 2 copy 1 5\n2 recv\n2 extern 1 add 3\n2 send 1 copy 1 6\n2 drop 1\n2 assertions\n1 recv\n1 drop 2\n2 assertions\nend\n",
        report: "report 1\nmade 2 list 1\ncall 1 1 create 0 1\ncall 1 2 send 0\nmade 2 list 1,2\ncall 2 1 recv 0 1 5 1\ncall 2 2 extern 0\ncall 2 3 send 0\ncall 2 4 drop 0\ncall 2 5 assertions 0 4 0\ncall 1 3 recv 0 2 6 2\ncall 1 4 drop 0\nreleased 4\ncall 2 6 assertions 0 0 0\nphase\ntask 1 ledger 0 held 0 out 0\ntask 2 ledger 0 held 0 out 0\nvouchers 1 values 2\nend\n",
    },
    // A full queue, and a queue without a message.
    Row {
        words: &["play"],
        scenario: "vouch 1\ntasks 2\ntask 1\ntask 2\nphase\n1 create 07000000d300000000000000020000006162\n1 send 2 copy 1 1\n1 send 2 copy 1 1\n1 send 2 copy 1 1\n1 send 2 copy 1 1\n1 send 2 copy 1 1\n1 send 2 move 1 6\n1 extract 1 7\n1 recv\nend\n",
        report: "report 1\nmade 7 user 6162\ncall 1 1 create 0 1\ncall 1 2 send 0\ncall 1 3 send 0\ncall 1 4 send 0\ncall 1 5 send 0\ncall 1 6 send 0\ncall 1 7 send 268435460\ncall 1 8 extract 0 6162\ncall 1 9 recv 268451843\nphase\ntask 1 ledger 0 held 0 out 0\ntask 2 ledger 0 held 0 out 0\nvouchers 1 values 2\nend\n",
    },
    // A voucher lives in a queue.
    Row {
        words: &["play"],
        scenario: "vouch 1\ntasks 2\ntask 1\ntask 2\nphase\n1 create 07000000d300000000000000020000006162\n1 send 2 copy 1 1\n1 send 2 copy 1 1\n1 send 2 copy 1 1\n1 send 2 copy 1 1\n1 send 2 copy 1 1\n1 send 2 move 1 6\n1 drop 1\n1 recv\nend\n",
        report: "report 1\nmade 7 user 6162\ncall 1 1 create 0 1\ncall 1 2 send 0\ncall 1 3 send 0\ncall 1 4 send 0\ncall 1 5 send 0\ncall 1 6 send 0\ncall 1 7 send 268435460\ncall 1 8 drop 0\ncall 1 9 recv 268451843\nphase\ntask 1 ledger 0 held 0 out 0\ntask 2 ledger 0 held 0 out 0\nvouchers 1 values 2\nend\n",
    },
    // A send moves the last name.
    Row {
        words: &["play"],
        scenario: "vouch 1\ntasks 2\ntask 1\ntask 2\nphase\n1 create 07000000d300000000000000020000006162\n1 send 2 move 1 9\n1 drop 1\n2 recv\n2 drop 1\nend\n",
        report: "report 1\nmade 7 user 6162\ncall 1 1 create 0 1\ncall 1 2 send 0\ncall 1 3 drop 15\ncall 2 1 recv 0 1 9 1\ncall 2 2 drop 0\nreleased 1\nphase\ntask 1 ledger 0 held 0 out 0\ntask 2 ledger 0 held 0 out 0\nvouchers 0 values 1\nend\n",
    },
    // By this seed the second task goes first.
    Row {
        words: &["play", "0"],
        scenario: "vouch 1\ntasks 2\ntask 1\ntask 2\nphase\n1 live\n2 live\nend\n",
        report: "report 1\ncall 2 1 live 0 0 1\ncall 1 1 live 0 0 1\nphase\ntask 1 ledger 0 held 0 out 0\ntask 2 ledger 0 held 0 out 0\nvouchers 0 values 1\nend\n",
    },
    // In turn the first line does.
    Row {
        words: &["play"],
        scenario: "vouch 1\ntasks 2\ntask 1\ntask 2\nphase\n1 live\n2 live\nend\n",
        report: "report 1\ncall 1 1 live 0 0 1\ncall 2 1 live 0 0 1\nphase\ntask 1 ledger 0 held 0 out 0\ntask 2 ledger 0 held 0 out 0\nvouchers 0 values 1\nend\n",
    },
    // All keys are redeemed of a voucher.
    Row {
        words: &["play"],
        scenario: "vouch 1\ntasks 1\ntask 1\nphase\n1 create 0300000062020000000000000000000002000000c8000000000000000000000007000000d300000000000000020000006162\n1 create ffffffff0a0000000100000000000000\nend\n",
        report: "report 1\nmade 2 list 1\nmade 7 user 6162\ncall 1 1 create 0 1\ncall 1 2 create 0 1\nphase\ntask 1 ledger 0 held 0 out 0\nvouchers 1 values 3\nend\n",
    },
    // Refusals, in their order.
    Row {
        words: &["play"],
        scenario: "vouch 1\ntasks 2\ntask 1\ntask 2\nphase\n1 send 9 copy 5 1\n1 send 2 copy 5 1\n1 drop 1\n1 drop 0\n1 extract 1 7\n1 create 07000000030000000000000000000000\n1 create 03000000590200000000000000000000\n1 create 01000000d30000000000000000000000\n1 send 2 copy 0 3\n2 recv\nend\n",
        report: "report 1\ncall 1 1 send 268435459\ncall 1 2 send 268435461\ncall 1 3 drop 15\ncall 1 4 drop 15\ncall 1 5 extract 20\ncall 1 6 create 8\ncall 1 7 create 4\ncall 1 8 create 4\ncall 1 9 send 0\ncall 2 1 recv 0 1 3 0\nphase\ntask 1 ledger 0 held 0 out 0\ntask 2 ledger 0 held 0 out 0\nvouchers 0 values 1\nend\n",
    },
    // A list and a bank value take no content.
    Row {
        words: &["play"],
        scenario: "vouch 1\ntasks 1\ntask 1\nphase\n1 create 02000000c8000000000000000100000000\n1 create 0300000062020000000000000100000000\nend\n",
        report: "report 1\ncall 1 1 create 4\ncall 1 2 create 4\nphase\ntask 1 ledger 0 held 0 out 0\nvouchers 0 values 1\nend\n",
    },
    // The two largest charges.
    Row {
        words: &["play"],
        scenario: "vouch 1\ntasks 2\ntask 1\ntask 2\nphase\n1 create 03000000620200000000000000000000\n1 send 2 copy 1 1\n2 recv\n2 charge 1 4294967295\n2 charge 1 4294967295\n2 drop 1\n1 ledger\nend\n",
        report: "report 1\ncall 1 1 create 0 1\nmade 3 task 1\ncall 1 2 send 0\nmade 3 account 1 2\ncall 2 1 recv 0 1 1 1\nreleased 2\ncall 2 2 charge 0\ncall 2 3 charge 0\ncall 2 4 drop 0\nreleased 4\ncall 1 3 ledger 0 8589934590\nphase\ntask 1 ledger 8589934590 held 0 out 0\ntask 2 ledger 0 held 0 out 0\nvouchers 1 values 1\nend\n",
    },
    // The key of tests, in version 2.
    Row {
        words: &["play"],
        scenario: "vouch 2\ntasks 1\ntask 1\nphase\n1 create 08000000d30000000000000002000000616207000000d300000000000000020000006162\n1 extract 1 8\n1 recipes 1\n1 create ffffffff0a0000000100000000000000\n1 drop 1\n1 drop 1\nend\n",
        report: "report 2\nmade 8 user 6162\nmade 7 user 6162\ncall 1 1 create 0 1\ncall 1 2 extract 0 6162\ncall 1 3 recipes 0 whole 07000000d30000000000000002000000616208000000d300000000000000020000006162\ncall 1 4 create 0 1\ncall 1 5 drop 0\ncall 1 6 drop 0\nreleased 2\nreleased 1\nphase\ntask 1 ledger 0 held 0 out 0\nvouchers 0 values 1\nend\n",
    },
    // And in version 1, where no manager has it.
    Row {
        words: &["play"],
        scenario: "vouch 1\ntasks 1\ntask 1\nphase\n1 create 08000000d30000000000000002000000616207000000d300000000000000020000006162\n1 extract 1 8\n1 recipes 1\n1 create ffffffff0a0000000100000000000000\n1 drop 1\n1 drop 1\nend\n",
        report: "report 1\ncall 1 1 create 4\ncall 1 2 extract 20\ncall 1 3 recipes 20\ncall 1 4 create 20\ncall 1 5 drop 15\ncall 1 6 drop 15\nphase\ntask 1 ledger 0 held 0 out 0\nvouchers 0 values 1\nend\n",
    },
    // Exits give up names and messages.
    Row {
        words: &["play"],
        scenario: "vouch 2\ntasks 2\ntask 1\ntask 2 queue 1\nphase\n1 create 07000000d300000000000000020000006162\n1 send 2 copy 1 1\n1 send 2 copy 1 2\n1 exit\n2 exit\n1 drop 1\nend\n",
        report: "report 2\nmade 7 user 6162\ncall 1 1 create 0 1\ncall 1 2 send 0\ncall 1 3 send 268435460\ngone 1 1\ncall 1 4 exit 0\nlost 2\nreleased 1\ncall 2 1 exit 0\ncall 1 5 drop 15\nphase\ntask 1 ledger 0 held 0 out 0\ntask 2 ledger 0 held 0 out 0\nvouchers 0 values 1\nend\n",
    },
    // A task sends its last name to itself, and gets the voucher by a new one.
    Row {
        words: &["play"],
        scenario: "vouch 1\ntasks 1\ntask 1\nphase\n1 create 07000000d300000000000000020000006162\n1 send 1 move 1 5\n1 extract 1 7\n1 recv\n1 extract 2 7\n1 drop 2\nend\n",
        report: "report 1\nmade 7 user 6162\ncall 1 1 create 0 1\ncall 1 2 send 0\ncall 1 3 extract 20\ncall 1 4 recv 0 1 5 2\ncall 1 5 extract 0 6162\ncall 1 6 drop 0\nreleased 1\nphase\ntask 1 ledger 0 held 0 out 0\nvouchers 0 values 1\nend\n",
    },
    // A task that still has the name gets a user reference more.
    Row {
        words: &["play"],
        scenario: "vouch 1\ntasks 1\ntask 1\nphase\n1 create 07000000d300000000000000020000006162\n1 send 1 copy 1 5\n1 recv\n1 drop 1\n1 drop 1\n1 drop 1\nend\n",
        report: "report 1\nmade 7 user 6162\ncall 1 1 create 0 1\ncall 1 2 send 0\ncall 1 3 recv 0 1 5 1\ncall 1 4 drop 0\ncall 1 5 drop 0\nreleased 1\ncall 1 6 drop 15\nphase\ntask 1 ledger 0 held 0 out 0\nvouchers 0 values 1\nend\n",
    },
    // A client and a service, in two phases.
    Row {
        words: &["play"],
        scenario: CLIENT,
        report: CLIENT_REPORT,
    },
];

/// The words as the top call takes them.
pub fn words_of(alloc: Global, words: &[&str]) -> Result<Vec<String>, Fail> {
    let mut owned = Vec::new(alloc);
    for word in words {
        owned.push(String::from_str(alloc, word)?)?;
    }
    Ok(owned)
}

/// Runs words over ends that never fail, with room for so many bytes; what is written.
pub fn played(
    alloc: Global,
    words: &[&str],
    input: &[u8],
    room: usize,
) -> Result<SteadySink, Fail> {
    let words = words_of(alloc, words)?;
    let mut source = SteadySource::new(Vec::from_slice(alloc, input)?);
    let mut sink = SteadySink::new(alloc, room)?;
    if run_steady(alloc, words.as_slice(), &mut source, &mut sink) != 0 {
        return Err(Fail::new("not done"));
    }
    Ok(sink)
}

#[test]
fn worked_rows(rt: HostRuntime) -> Result<(), Fail> {
    let alloc = rt.alloc();
    for row in ROWS {
        let sink = played(alloc, row.words, row.scenario.as_bytes(), 40000)?;
        assert_eq!(rt; sink.written(), row.report.as_bytes());
    }
    Ok(())
}

/// The client and the service, read and written one byte at a time.
#[test]
fn one_byte_at_a_time(rt: HostRuntime) -> Result<(), Fail> {
    let alloc = rt.alloc();
    let words = words_of(alloc, &["play"])?;
    let mut source = MemSource::new(
        Vec::from_slice(alloc, CLIENT.as_bytes())?,
        Vec::new(alloc),
        1,
    );
    let mut sink = MemSink::new(alloc, Vec::new(alloc), 1, 2000)?;
    assert_eq!(rt;
        run_plain(alloc, words.as_slice(), &mut source, &mut sink),
        0
    );
    assert_eq!(rt; sink.written(), CLIENT_REPORT.as_bytes());
    Ok(())
}
