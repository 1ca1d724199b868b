use crate::row_tests::words_of;
use crate::run_steady;
use std::test::Fail;
use vch_base::{SteadySink, SteadySource};

/// Words, input, and what they must come to.
struct Case {
    words: &'static [&'static str],
    input: &'static [u8],
    status: u8,
    output: &'static str,
}

/// One value is stored and released.
pub const STORE: &[u8] =
    b"vouch 1\ntasks 1\ntask 1\nphase\n1 create 07000000d300000000000000020000006162\n1 drop 1\nend\n";

const CANONICAL: &str =
    "vouch 1\ntasks 1\ntask 1\nphase\n1 create 07000000d300000000000000020000006162\n1 drop 1\nend\n";

/// The report of that run.
pub const STORED: &str =
    "report 1\nmade 7 user 6162\ncall 1 1 create 0 1\ncall 1 2 drop 0\nreleased 1\nphase\ntask 1 ledger 0 held 0 out 0\nvouchers 0 values 1\nend\n";

const CASES: &[Case] = &[
    Case {
        words: &["play"],
        input: STORE,
        status: 0,
        output: STORED,
    },
    // Two equal vouchers are one, and its value is released after the last name.
    Case {
        words: &["play"],
        input: b"vouch 1\ntasks 1\ntask 1\nphase\n1 create 07000000d300000000000000020000006162\n1 create 07000000d300000000000000020000006162\n1 drop 1\n1 drop 1\nend\n",
        status: 0,
        output: "report 1\nmade 7 user 6162\ncall 1 1 create 0 1\ncall 1 2 create 0 1\ncall 1 3 drop 0\ncall 1 4 drop 0\nreleased 1\nphase\ntask 1 ledger 0 held 0 out 0\nvouchers 0 values 1\nend\n",
    },
    // What is kept is counted: a name, and its value beside the default.
    Case {
        words: &["play"],
        input: b"vouch 1\ntasks 1\ntask 1\nphase\n1 create 07000000d300000000000000020000006162\n1 drop 2\nend\n",
        status: 0,
        output: "report 1\nmade 7 user 6162\ncall 1 1 create 0 1\ncall 1 2 drop 15\nphase\ntask 1 ledger 0 held 0 out 0\nvouchers 1 values 2\nend\n",
    },
    // A create of no bytes answers no name.
    Case {
        words: &["play"],
        input: b"vouch 1\ntasks 1\ntask 1\nphase\n1 create -\nend\n",
        status: 0,
        output: "report 1\ncall 1 1 create 0 0\nphase\ntask 1 ledger 0 held 0 out 0\nvouchers 0 values 1\nend\n",
    },
    // A cut record refuses the call, and what it made is released.
    Case {
        words: &["play"],
        input: b"vouch 1\ntasks 1\ntask 1\nphase\n1 create 07000000d300000000000000020000006162000000000000000000000000000000\nend\n",
        status: 0,
        output: "report 1\nmade 7 user 6162\ncall 1 1 create 4\nreleased 1\nphase\ntask 1 ledger 0 held 0 out 0\nvouchers 0 values 1\nend\n",
    },
    // A copy without a previous voucher does nothing; with one the key must be known, and the voucher there.
    Case {
        words: &["play"],
        input: b"vouch 1\ntasks 1\ntask 1\nphase\n1 create 63000000010000000000000000000000\n1 create 63000000010000000100000000000000\n1 create 63000000010000000900000000000000\nend\n",
        status: 0,
        output: "report 1\ncall 1 1 create 0 1\ncall 1 2 create 4\ncall 1 3 create 20\nphase\ntask 1 ledger 0 held 0 out 0\nvouchers 1 values 1\nend\n",
    },
    // The voucher without a value has a name.
    Case {
        words: &["play"],
        input: b"vouch 1\ntasks 1\ntask 1\nphase\n1 create ffffffff020000000000000000000000\n1 create ffffffff020000000000000000000000\nend\n",
        status: 0,
        output: "report 1\ncall 1 1 create 0 1\ncall 1 2 create 0 1\nphase\ntask 1 ledger 0 held 0 out 0\nvouchers 1 values 1\nend\n",
    },
    // A removal takes the value that the previous voucher has, and no other.
    Case {
        words: &["play"],
        input: b"vouch 1\ntasks 1\ntask 1\nphase\n1 create 07000000d300000000000000020000006162\n1 create 07000000d30000000000000002000000616207000000020000000100000000000000\n1 create 07000000d30000000000000002000000636407000000020000000100000000000000\nend\n",
        status: 0,
        output: "report 1\nmade 7 user 6162\ncall 1 1 create 0 1\ncall 1 2 create 0 2\nmade 7 user 6364\ncall 1 3 create 0 3\nphase\ntask 1 ledger 0 held 0 out 0\nvouchers 3 values 3\nend\n",
    },
    // The value that a later record replaces is released before the reply.
    Case {
        words: &["play"],
        input: b"vouch 1\ntasks 1\ntask 1\nphase\n1 create 07000000d30000000000000002000000616207000000d300000000000000020000006364\nend\n",
        status: 0,
        output: "report 1\nmade 7 user 6162\nmade 7 user 6364\nreleased 1\ncall 1 1 create 0 1\nphase\ntask 1 ledger 0 held 0 out 0\nvouchers 1 values 2\nend\n",
    },
    // In turn the first line goes first; by this seed the second task does.
    Case {
        words: &["play"],
        input: b"vouch 1\ntasks 2\ntask 1\ntask 2\nphase\n1 create -\n2 create -\nend\n",
        status: 0,
        output: "report 1\ncall 1 1 create 0 0\ncall 2 1 create 0 0\nphase\ntask 1 ledger 0 held 0 out 0\ntask 2 ledger 0 held 0 out 0\nvouchers 0 values 1\nend\n",
    },
    Case {
        words: &["play", "0"],
        input: b"vouch 1\ntasks 2\ntask 1\ntask 2\nphase\n1 create -\n2 create -\nend\n",
        status: 0,
        output: "report 1\ncall 2 1 create 0 0\ncall 1 1 create 0 0\nphase\ntask 1 ledger 0 held 0 out 0\ntask 2 ledger 0 held 0 out 0\nvouchers 0 values 1\nend\n",
    },
    // Four tasks make one value, and a fifth makes another.
    Case {
        words: &["play"],
        input: b"vouch 1\ntasks 5\ntask 1\ntask 2\ntask 3\ntask 4\ntask 5\nphase\n1 create 07000000d300000000000000020000006162\n2 create 07000000d300000000000000020000006162\n3 create 07000000d300000000000000020000006162\n4 create 07000000d300000000000000020000006162\n5 create 07000000d300000000000000020000006364\nend\n",
        status: 0,
        output: "report 1\nmade 7 user 6162\ncall 1 1 create 0 1\ncall 2 1 create 0 1\ncall 3 1 create 0 1\ncall 4 1 create 0 1\nmade 7 user 6364\ncall 5 1 create 0 1\nphase\ntask 1 ledger 0 held 0 out 0\ntask 2 ledger 0 held 0 out 0\ntask 3 ledger 0 held 0 out 0\ntask 4 ledger 0 held 0 out 0\ntask 5 ledger 0 held 0 out 0\nvouchers 2 values 3\nend\n",
    },
    Case {
        words: &["play"],
        input: b"vouch 1\ntasks 1\ntask 1 donor\nphase\nphase\nend\n",
        status: 0,
        output: "report 1\nphase\nphase\ntask 1 ledger 0 held 0 out 0\nvouchers 0 values 1\nend\n",
    },
    // The first 20 bytes, all bytes but the last, and bytes that are no text.
    Case {
        words: &["play"],
        input: b"vouch 1\ntasks 1\ntask",
        status: 2,
        output: "fault line 3 why ending\n",
    },
    Case {
        words: &["play"],
        input: b"vouch 1\ntasks 1\ntask 1\nphase\n1 create 07000000d300000000000000020000006162\n1 drop 1\nend",
        status: 2,
        output: "fault line 7 why ending\n",
    },
    Case {
        words: &["play"],
        input: b"vouch 1\n\x00\n",
        status: 2,
        output: "fault line 2 why form\n",
    },
    Case {
        words: &["play"],
        input: b"\xff\xfe\n",
        status: 2,
        output: "fault line 1 why form\n",
    },
    Case {
        words: &["check"],
        input: b"# \x00\x80\xff\nvouch 1\ntasks 1\ntask 1\nphase\n1 create 07000000d300000000000000020000006162\n1 drop 1\nend\n",
        status: 0,
        output: CANONICAL,
    },
    Case {
        words: &["check"],
        input: b"# first\nvouch 1\n\ntasks 1\ntask 1\nphase\n1 create 07000000D300000000000000020000006162\n1 drop 1\nend\n",
        status: 0,
        output: CANONICAL,
    },
    Case {
        words: &["check"],
        input: b"vouch 1\ntasks 65\n",
        status: 2,
        output: "fault line 2 why range\n",
    },
    Case {
        words: &["check"],
        input: b"vouch 1\ntasks 1\ntask 2\n",
        status: 2,
        output: "fault line 3 why range\n",
    },
    Case {
        words: &["check"],
        input: b"vouch 1\ntasks 1\ntask 1\nend\n",
        status: 2,
        output: "fault line 4 why form\n",
    },
    Case {
        words: &["check"],
        input: b"vouch 1\ntasks 1\ntask 1\nphase\n1 drop 01\nend\n",
        status: 2,
        output: "fault line 5 why form\n",
    },
    Case {
        words: &["check"],
        input: b"vouch 1\ntasks 1\ntask 1\nphase\n1  drop 1\nend\n",
        status: 2,
        output: "fault line 5 why form\n",
    },
    Case {
        words: &["check"],
        input: b"vouch 1\ntasks 1\ntask 1\nphase\n1 drop 4294967296\nend\n",
        status: 2,
        output: "fault line 5 why range\n",
    },
    Case {
        words: &["recipe"],
        input: b"\x07\x00\x00\x00\xd3\x00\x00\x00\x00\x00\x00\x00\x02\x00\x00\x00ab",
        status: 0,
        output: "recipe 7 211 0 6162\nend\n",
    },
    // Three records, the second without content.
    Case {
        words: &["recipe"],
        input: b"\x07\x00\x00\x00\xd3\x00\x00\x00\x00\x00\x00\x00\x02\x00\x00\x00ab\x07\x00\x00\x00\x02\x00\x00\x00\x01\x00\x00\x00\x00\x00\x00\x00\x07\x00\x00\x00\xd3\x00\x00\x00\x00\x00\x00\x00\x01\x00\x00\x00c",
        status: 0,
        output: "recipe 7 211 0 6162\nrecipe 7 2 1 -\nrecipe 7 211 0 63\nend\n",
    },
    Case {
        words: &["recipe"],
        input: b"\x07\x00\x00\x00\xd3\x00\x00\x00\x00\x00\x00\x00\x02\x00\x00\x00a",
        status: 2,
        output: "fault content at 0 wanted 2 left 1\n",
    },
    Case {
        words: &["recipe"],
        input: b"\x07\x00\x00\x00\xd3\x00\x00\x00\x00\x00\x00\x00\x02\x00\x00",
        status: 2,
        output: "fault header at 0 left 15\n",
    },
    Case {
        words: &["recipe"],
        input: b"",
        status: 0,
        output: "end\n",
    },
    // A line that spells a header becomes a `send`: copied, moved, or without a voucher.
    Case {
        words: &["header"],
        input: b"1 message 130013001800000002000000000000000100000009000000\n",
        status: 0,
        output: "1 send 2 copy 1 9\n",
    },
    Case {
        words: &["header"],
        input: b"1 message 130011001800000002000000000000000100000009000000\n",
        status: 0,
        output: "1 send 2 move 1 9\n",
    },
    Case {
        words: &["header"],
        input: b"1 message 130000001800000002000000000000000100000009000000\n",
        status: 0,
        output: "1 send 2 copy 0 9\n",
    },
    // Another disposition is refused, and so are fewer digits; the first such line is told.
    Case {
        words: &["header"],
        input: b"1 message 130012001800000002000000000000000100000009000000\n",
        status: 2,
        output: "fault line 1 why disposition\n",
    },
    Case {
        words: &["header"],
        input: b"1 message 1300\n",
        status: 2,
        output: "fault line 1 why form\n",
    },
    Case {
        words: &["header"],
        input: b"1 message 130013001800000002000000000000000100000009000000\n1 message 130013001800000002000000000000000100000009000000\r\n1 message 00\n",
        status: 2,
        output: "fault line 2 why form\n",
    },
    // All other lines stay, whatever they are, and so does a rest without a line feed.
    Case {
        words: &["header"],
        input: b"#1 message 130013001800000002000000000000000100000009000000\n1  message 130013001800000002000000000000000100000009000000\n1 message 130013001800000002000000000000000100000009000000 \n1 message \n\n1 message 130013001800000002000000000000000100000009000000",
        status: 0,
        output: "#1 message 130013001800000002000000000000000100000009000000\n1  message 130013001800000002000000000000000100000009000000\n1 message 130013001800000002000000000000000100000009000000 \n1 message \n\n1 message 130013001800000002000000000000000100000009000000",
    },
    // In a whole scenario.
    Case {
        words: &["header"],
        input: b"vouch 1\ntasks 2\ntask 1 donor\ntask 2 receiver\nphase\n1 create 0300000062020000000000000000000002000000c8000000000000000000000007000000d300000000000000020000006162\n1 message 130013001800000002000000000000000100000009000000\n1 drop 1\n2 recv\n2 charge 1 1200\n2 assertions\n2 drop 1\nphase\n1 ledger\nend\n",
        status: 0,
        output: "vouch 1\ntasks 2\ntask 1 donor\ntask 2 receiver\nphase\n1 create 0300000062020000000000000000000002000000c8000000000000000000000007000000d300000000000000020000006162\n1 send 2 copy 1 9\n1 drop 1\n2 recv\n2 charge 1 1200\n2 assertions\n2 drop 1\nphase\n1 ledger\nend\n",
    },
    // Two texts behind one another: a line has no call; there is no end of the scenario; the scenario has a fault.
    Case {
        words: &["certify"],
        input: b"vouch 1\ntasks 1\ntask 1\nphase\n1 live\nend\nreport 1\ntask 1 ledger 0 held 0 out 0\nvouchers 0 values 1\nend\n",
        status: 0,
        output: "not call 1 1\n",
    },
    Case {
        words: &["certify"],
        input: b"vouch 1\ntasks 1\n",
        status: 2,
        output: "fault line 3 why ending\n",
    },
    Case {
        words: &["certify"],
        input: b"vouch 1\ntasks 65\nend\nreport 1\n",
        status: 2,
        output: "fault line 2 why range\n",
    },
    // The summaries of two numbers. Nothing is read.
    Case {
        words: &["load", "1"],
        input: b"",
        status: 0,
        output: "load 1\ncalls 8192\nrefused 0\nmade 5120\nreleased 5120\ncredited 523776\ntask 1 ledger 62990\ntask 2 ledger 70404\ntask 3 ledger 74269\ntask 4 ledger 66637\ntask 5 ledger 64729\ntask 6 ledger 58158\ntask 7 ledger 60622\ntask 8 ledger 65967\nvouchers 0\nvalues 1\nend\n",
    },
    Case {
        words: &["load", "7"],
        input: b"\xff",
        status: 0,
        output: "load 7\ncalls 8192\nrefused 0\nmade 5120\nreleased 5120\ncredited 523776\ntask 1 ledger 68913\ntask 2 ledger 61399\ntask 3 ledger 65714\ntask 4 ledger 66892\ntask 5 ledger 64203\ntask 6 ledger 63448\ntask 7 ledger 69373\ntask 8 ledger 63834\nvouchers 0\nvalues 1\nend\n",
    },
    Case {
        words: &["load"],
        input: b"",
        status: 1,
        output: "",
    },
    Case {
        words: &["load", "01"],
        input: b"",
        status: 1,
        output: "",
    },
    Case {
        words: &["header", "1"],
        input: b"",
        status: 1,
        output: "",
    },
    Case {
        words: &["play", "18446744073709551615"],
        input: STORE,
        status: 0,
        output: STORED,
    },
    Case {
        words: &["play", "18446744073709551616"],
        input: STORE,
        status: 1,
        output: "",
    },
    Case {
        words: &["play", "01"],
        input: STORE,
        status: 1,
        output: "",
    },
    Case {
        words: &["check", "1"],
        input: STORE,
        status: 1,
        output: "",
    },
    Case {
        words: &["paly"],
        input: STORE,
        status: 1,
        output: "",
    },
    Case {
        words: &[],
        input: STORE,
        status: 1,
        output: "",
    },
];

#[test]
fn worked_runs(rt: HostRuntime) -> Result<(), Fail> {
    let alloc = rt.alloc();
    for case in CASES {
        let words = words_of(alloc, case.words)?;
        let mut source = SteadySource::new(Vec::from_slice(alloc, case.input)?);
        let mut sink = SteadySink::new(alloc, 1000)?;
        let status = run_steady(alloc, words.as_slice(), &mut source, &mut sink);
        assert_eq!(rt; status, case.status);
        assert_eq!(rt; sink.written(), case.output.as_bytes());
    }
    Ok(())
}
