//! Each refusal of each call, in the order of its causes, on one store: what it answers, and that the store stays.
use crate::row_tests::played;
use std::alloc::Global;
use std::test::Fail;

/// Three names of the first task, two of the second, and a full queue of the third, which has no name.
///
/// The first task's names have a list of itself and the default, the list that the second task holds and a bank value of
/// its own, and bytes alone. The second task's have that list, whose external count is one below the most, with an account,
/// and the default alone.
const SETTING: &[u8] =
    b"vouch 2\ntasks 3\ntask 1 donor\ntask 2 receiver\ntask 3 queue 1\nphase\n1 create 0300000062020000000000000000000002000000c8000000000000000000000007000000d300000000000000020000006162\n1 send 2 copy 1 5\n2 recv\n2 extern 1 add 4294967294\n2 send 1 copy 1 6\n1 recv\n1 create 07000000d300000000000000020000006364\n1 send 3 copy 0 7\n2 create 03000000620200000000000000000000\n";

/// The report of the setting: 17 entries.
const SET: &[u8] =
    b"report 2\nmade 2 list 1\nmade 7 user 6162\ncall 1 1 create 0 1\nmade 3 task 1\ncall 1 2 send 0\nmade 2 list 1,2\nmade 3 account 1 2\ncall 2 1 recv 0 1 5 1\nreleased 4\ncall 2 2 extern 0\nmade 3 task 1\ncall 2 3 send 0\ncall 1 3 recv 0 2 6 2\nmade 7 user 6364\ncall 1 4 create 0 3\ncall 1 5 send 0\ncall 2 4 create 0 2\n";

/// And its totals, which no refused call changes.
const TOTALS: &[u8] =
    b"phase\ntask 1 ledger 0 held 0 out 4294967295\ntask 2 ledger 0 held 4294967295 out 0\ntask 3 ledger 0 held 0 out 0\nvouchers 5 values 7\nend\n";

/// A line, and the entries that it adds.
const REFUSALS: &[(&str, &str)] = &[
    // Name 0, a name that no task has, and a name of another task.
    ("1 drop 0", "call 1 6 drop 15"),
    ("1 drop 4", "call 1 6 drop 15"),
    ("1 drop 4294967295", "call 1 6 drop 15"),
    ("2 drop 3", "call 2 5 drop 15"),
    ("3 drop 1", "call 3 1 drop 15"),
    // The name is looked at before the key.
    ("1 extract 0 7", "call 1 6 extract 20"),
    ("1 extract 4 6", "call 1 6 extract 20"),
    ("3 extract 1 7", "call 3 1 extract 20"),
    ("1 extract 1 0", "call 1 6 extract 4"),
    ("1 extract 1 1", "call 1 6 extract 4"),
    ("1 extract 1 4", "call 1 6 extract 4"),
    ("1 extract 1 9", "call 1 6 extract 4"),
    ("1 extract 1 4294967295", "call 1 6 extract 4"),
    ("1 recipes 0", "call 1 6 recipes 20"),
    ("1 recipes 4", "call 1 6 recipes 20"),
    ("3 recipes 1", "call 3 1 recipes 20"),
    // The task is looked at before the name, and the name before the queue.
    ("1 send 0 copy 1 5", "call 1 6 send 268435459"),
    ("1 send 4 copy 1 5", "call 1 6 send 268435459"),
    ("1 send 4 copy 0 5", "call 1 6 send 268435459"),
    ("1 send 4294967295 move 4 5", "call 1 6 send 268435459"),
    ("1 send 2 copy 4 5", "call 1 6 send 268435461"),
    ("1 send 3 move 4 5", "call 1 6 send 268435461"),
    ("2 send 1 move 3 5", "call 2 5 send 268435461"),
    ("3 send 3 copy 1 5", "call 3 1 send 268435461"),
    ("1 send 3 copy 0 5", "call 1 6 send 268435460"),
    ("1 send 3 move 0 5", "call 1 6 send 268435460"),
    ("3 send 3 copy 0 5", "call 3 1 send 268435460"),
    ("1 send 3 copy 3 5", "call 1 6 send 268435460"),
    ("1 send 3 move 3 5", "call 1 6 send 268435460"),
    ("1 send 3 move 1 5", "call 1 6 send 268435460"),
    ("2 send 3 move 1 5", "call 2 5 send 268435460"),
    // The value that was made for a queue which is full is let go of.
    (
        "2 send 3 copy 2 5",
        "made 3 task 2\ncall 2 5 send 268435460\nreleased 18",
    ),
    (
        "2 send 3 move 2 5",
        "made 3 task 2\ncall 2 5 send 268435460\nreleased 18",
    ),
    ("1 recv", "call 1 6 recv 268451843"),
    ("2 recv", "call 2 5 recv 268451843"),
    // The name, then the list, then the count.
    ("2 extern 0 add 1", "call 2 5 extern 20"),
    ("2 extern 3 add 4294967295", "call 2 5 extern 20"),
    ("2 extern 3 drop 4294967295", "call 2 5 extern 20"),
    ("3 extern 1 add 0", "call 3 1 extern 20"),
    ("2 extern 2 add 0", "call 2 5 extern 4"),
    ("1 extern 3 add 1", "call 1 6 extern 4"),
    ("1 extern 1 add 0", "call 1 6 extern 4"),
    ("1 extern 1 drop 1", "call 1 6 extern 4"),
    ("1 extern 2 add 1", "call 1 6 extern 4"),
    ("1 extern 2 add 4294967295", "call 1 6 extern 4"),
    ("1 extern 2 drop 4294967295", "call 1 6 extern 4"),
    ("2 extern 1 add 2", "call 2 5 extern 5"),
    ("2 extern 1 add 4294967295", "call 2 5 extern 5"),
    ("2 extern 1 drop 4294967295", "call 2 5 extern 5"),
    // The name, then the bank value: none, or the default.
    ("2 charge 0 1", "call 2 5 charge 20"),
    ("2 charge 3 1", "call 2 5 charge 20"),
    ("3 charge 1 0", "call 3 1 charge 20"),
    ("1 charge 3 1", "call 1 6 charge 4"),
    ("1 charge 1 1", "call 1 6 charge 4"),
    ("2 charge 2 0", "call 2 5 charge 4"),
];

/// An array of the first task, and the entries that its create adds.
const ARRAYS: &[(&str, &str)] = &[
    // A header that is cut, and content that is, whatever the header says.
    ("00", "call 1 6 create 4"),
    ("000000000000000000000000000000", "call 1 6 create 4"),
    ("07000000030000000900000001000000", "call 1 6 create 4"),
    ("07000000d3000000000000000200000061", "call 1 6 create 4"),
    ("ffffffff0300000009000000ffffffff", "call 1 6 create 4"),
    ("0100000000000000090000000200000061", "call 1 6 create 4"),
    // A previous voucher that is not there, before any command: name 4, another task's name, the largest.
    ("07000000030000000400000000000000", "call 1 6 create 20"),
    ("0700000000000000040000000100000061", "call 1 6 create 20"),
    ("ffffffff010000000900000000000000", "call 1 6 create 20"),
    ("ffffffff020000000400000000000000", "call 1 6 create 20"),
    ("010000000a0000000400000000000000", "call 1 6 create 20"),
    ("07000000d3000000040000000100000065", "call 1 6 create 20"),
    ("02000000c8000000ffffffff0100000065", "call 1 6 create 20"),
    ("ffffffff630000000400000000000000", "call 1 6 create 20"),
    // Content that a command does not take.
    ("0700000000000000000000000100000000", "call 1 6 create 4"),
    ("ffffffff00000000010000000100000000", "call 1 6 create 4"),
    ("0700000001000000000000000100000000", "call 1 6 create 4"),
    ("0700000001000000010000000100000000", "call 1 6 create 4"),
    ("ffffffff0200000001000000020000000000", "call 1 6 create 4"),
    ("070000000a000000000000000100000000", "call 1 6 create 4"),
    ("ffffffff0a000000010000000100000000", "call 1 6 create 4"),
    ("02000000c8000000000000000100000000", "call 1 6 create 4"),
    ("0300000062020000000000000100000000", "call 1 6 create 4"),
    // Commands that a task may not give, whatever key and content are.
    ("07000000030000000000000000000000", "call 1 6 create 8"),
    ("ffffffff04000000000000000100000000", "call 1 6 create 8"),
    ("01000000050000000100000000000000", "call 1 6 create 8"),
    ("03000000050000000200000000000000", "call 1 6 create 8"),
    (
        "09000000040000000000000003000000616263",
        "call 1 6 create 8",
    ),
    // Keys that no manager has; a removal asks for one with and without a previous voucher.
    ("01000000010000000100000000000000", "call 1 6 create 4"),
    ("00000000010000000200000000000000", "call 1 6 create 4"),
    ("01000000020000000000000000000000", "call 1 6 create 4"),
    ("09000000020000000100000000000000", "call 1 6 create 4"),
    ("010000000a0000000100000000000000", "call 1 6 create 4"),
    ("040000000a0000000000000000000000", "call 1 6 create 4"),
    ("01000000d30000000000000000000000", "call 1 6 create 4"),
    ("00000000c80000000000000000000000", "call 1 6 create 4"),
    ("04000000620200000000000000000000", "call 1 6 create 4"),
    ("09000000d30000000100000000000000", "call 1 6 create 4"),
    // Other commands for all keys, and commands of another manager or of none.
    ("ffffffffd30000000000000000000000", "call 1 6 create 4"),
    ("ffffffff060000000100000000000000", "call 1 6 create 4"),
    ("ffffffffffffffff0000000000000000", "call 1 6 create 4"),
    ("07000000c80000000000000000000000", "call 1 6 create 4"),
    ("08000000620200000000000000000000", "call 1 6 create 4"),
    ("02000000d30000000000000000000000", "call 1 6 create 4"),
    ("03000000c80000000000000000000000", "call 1 6 create 4"),
    ("02000000620200000100000000000000", "call 1 6 create 4"),
    ("03000000590200000000000000000000", "call 1 6 create 4"),
    ("07000000060000000000000000000000", "call 1 6 create 4"),
    ("020000000b0000000100000000000000", "call 1 6 create 4"),
    // What was made before the refusal is let go of, in rising key; a replaced value before it.
    (
        "07000000d300000000000000010000006500",
        "made 7 user 65\ncall 1 6 create 4\nreleased 18",
    ),
    (
        "07000000d300000000000000010000006507000000d3000000000000000200000061",
        "made 7 user 65\ncall 1 6 create 4\nreleased 18",
    ),
    (
        "07000000d300000000000000010000006507000000000000000400000000000000",
        "made 7 user 65\ncall 1 6 create 20\nreleased 18",
    ),
    (
        "07000000d3000000000000000000000007000000030000000000000000000000",
        "made 7 user -\ncall 1 6 create 8\nreleased 18",
    ),
    (
        "08000000d30000000000000002000000616201000000020000000000000000000000",
        "made 8 user 6162\ncall 1 6 create 4\nreleased 18",
    ),
    (
        "07000000d300000000000000010000006507000000d3000000000000000100000066000000",
        "made 7 user 65\nmade 7 user 66\nreleased 18\ncall 1 6 create 4\nreleased 19",
    ),
    (
        "08000000d300000000000000010000006507000000d300000000000000010000006502000000030000000000000000000000",
        "made 8 user 65\nmade 7 user 65\ncall 1 6 create 8\nreleased 19\nreleased 18",
    ),
    (
        "ffffffff01000000010000000000000007000000d300000000000000010000006502000000c80000000000000000000000ffffffffd30000000000000000000000",
        "made 7 user 65\ncall 1 6 create 4\nreleased 18",
    ),
    // What others hold stays.
    ("ffffffff01000000010000000000000000", "call 1 6 create 4"),
    (
        "07000000d3000000000000000200000061620300000062020000000000000000000002000000c8000000000000000000000002000000c80000000000000001000000",
        "call 1 6 create 4",
    ),
];

/// The setting with one line more.
fn with_line(alloc: Global, line: &str) -> Result<Vec<u8>, Fail> {
    let mut text = Vec::from_slice(alloc, SETTING)?;
    text.extend_from_slice(line.as_bytes())?;
    text.extend_from_slice(b"\nend\n")?;
    Ok(text)
}

/// The report of the setting with some entries more.
fn with_entries(alloc: Global, entries: &str) -> Result<Vec<u8>, Fail> {
    let mut text = Vec::from_slice(alloc, SET)?;
    text.extend_from_slice(entries.as_bytes())?;
    text.push(b'\n')?;
    text.extend_from_slice(TOTALS)?;
    Ok(text)
}

#[test]
fn refused_calls(rt: HostRuntime) -> Result<(), Fail> {
    let alloc = rt.alloc();
    for (line, entries) in REFUSALS {
        let text = with_line(alloc, line)?;
        let sink = played(alloc, &["play"], text.as_slice(), 4000)?;
        let report = with_entries(alloc, entries)?;
        assert_eq!(rt; sink.written(), report.as_slice());
    }
    Ok(())
}

#[test]
fn refused_arrays(rt: HostRuntime) -> Result<(), Fail> {
    let alloc = rt.alloc();
    for (array, entries) in ARRAYS {
        let line = format!(in alloc; "1 create {array}")?;
        let text = with_line(alloc, line.as_str())?;
        let sink = played(alloc, &["play"], text.as_slice(), 4000)?;
        let report = with_entries(alloc, entries)?;
        assert_eq!(rt; sink.written(), report.as_slice());
    }
    Ok(())
}
