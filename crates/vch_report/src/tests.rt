use crate::{ReportFault, read, write};
use std::alloc::Global;
use std::test::Fail;
use vch_base::NoMemory;

/// A task that makes a voucher and drops it.
const FIRST: &str = "\
report 1
made 7 user 6162
call 1 1 create 0 1
call 1 2 drop 0
released 1
phase
task 1 ledger 0 held 0 out 0
vouchers 0 values 1
end
";

/// A client that is a donor, and a service that receives importance.
const SERVICE: &str = "\
report 1
made 2 list 1
made 7 user 6162
call 1 1 create 0 1
made 3 task 1
call 1 2 send 0
call 1 3 drop 0
made 2 list 1,2
made 3 account 1 2
call 2 1 recv 0 1 9 1
released 1
released 4
call 2 2 charge 0
call 2 3 assertions 0 1 0
call 2 4 drop 0
released 7
released 8
released 2
phase
call 1 4 ledger 0 1200
phase
task 1 ledger 1200 held 0 out 0
task 2 ledger 0 held 0 out 0
vouchers 0 values 1
end
";

/// A run with a value at the key of tests, and one at that of user data with the same bytes.
const TEST_KEY: &str = "\
report 2
made 8 user 6162
made 7 user 6162
call 1 1 create 0 1
call 1 2 extract 0 6162
call 1 3 recipes 0 whole 07000000d30000000000000002000000616208000000d300000000000000020000006162
call 1 4 create 0 1
call 1 5 drop 0
call 1 6 drop 0
released 2
released 1
phase
task 1 ledger 0 held 0 out 0
vouchers 0 values 1
end
";

/// Two tasks that give up all that they have.
const EXITS: &str = "\
report 2
made 7 user 6162
call 1 1 create 0 1
call 1 2 send 0
call 1 3 send 268435460
gone 1 1
call 1 4 exit 0
lost 2
released 1
call 2 1 exit 0
call 1 5 drop 15
phase
task 1 ledger 0 held 0 out 0
task 2 ledger 0 held 0 out 0
vouchers 0 values 1
end
";

/// Lines that may stand between the title and the first task in version 2 alone.
const LATER: [&str; 9] = [
    "made 8 user 6162",
    "made 8 user -",
    "gone 1 1",
    "gone 4294967295 4294967295",
    "lost 1",
    "lost 4294967295",
    "call 1 1 exit 0",
    "call 1 1 exit 6",
    "call 2 3 exit -307",
];

/// Lines that may stand between the title and the first task in both versions.
const GOOD: [&str; 12] = [
    "made 2 list 1,2,3,4,5,6,7,8",
    "made 7 user -",
    "made 3 account 4294967295 1",
    "call 4294967295 4294967295 extern 0",
    "call 1 1 extract 0 -",
    "call 1 1 recipes 0 whole 02000000c8000000",
    "call 1 1 recipes 0 part -",
    "call 1 1 live 0 18446744073709551615 0",
    "call 1 1 ledger 0 340282366920938463463374607431768211455",
    "call 1 1 ledger -307",
    "call 1 1 drop 268451843",
    "call 1 1 recv 0 0 4294967295 0",
];

/// Lines that may stand nowhere.
const BAD: [&str; 52] = [
    "",
    "phase ",
    "phase\r",
    " phase",
    "Phase",
    "released 0",
    "released 4294967296",
    "released 1 1",
    "released  1",
    "made 7 user 6A",
    "made 7 user 616",
    "made 7 user ",
    "made 7 user",
    "made 2 list 1,2,3,4,5,6,7,8,9",
    "made 2 list 1,",
    "made 2 list 0",
    "made 2 list -",
    "made 2 user 61",
    "made 3 default",
    "made 3 task 01",
    "made 3 account 1",
    "made 9 user 61",
    "made 08 user 61",
    "made 8 list 1",
    "made 8 task 1",
    "made 8 user 6A",
    "call 1 1 create 0",
    "call 1 1 create 1",
    "call 1 1 create 4 1",
    "call 1 1 create 0 4294967296",
    "call 0 1 drop 0",
    "call 1 0 drop 0",
    "call 1 1 drop 0 1",
    "call 1 1 drop -4",
    "call 1 1 drop 7",
    "call 1 1 give_up 0",
    "call 1 1 extract 0 FF",
    "call 1 1 recipes 0 all -",
    "call 1 1 live 0 18446744073709551616 0",
    "call 1 1 ledger 0 340282366920938463463374607431768211456",
    "gone 0 1",
    "gone 1 0",
    "gone 1",
    "gone 1 4294967296",
    "gone 1 1 1",
    "lost 0",
    "lost",
    "lost 1 1",
    "lost 01",
    "call 1 1 exit",
    "call 1 1 exit 0 1",
    "call 1 1 exit 7",
];

/// Whole texts, and the first line of each that can't stand.
const TEXTS: [(&str, u32); 23] = [
    ("", 1),
    ("\n", 1),
    ("report 0\n", 1),
    ("report 3\n", 1),
    ("report 02\n", 1),
    ("report\n", 1),
    ("report 1 \n", 1),
    ("report 1 2\n", 1),
    ("report 1\n", 2),
    ("report 2\n", 2),
    ("report 2\nreport 2\n", 2),
    ("report 1\nreport 1\n", 2),
    ("report 1\nvouchers 0 values 1\n", 2),
    ("report 1\nend\n", 2),
    ("report 1\ntask 2 ledger 0 held 0 out 0\n", 2),
    (
        "report 1\ntask 1 ledger 0 held 0 out 340282366920938463463374607431768211456\n",
        2,
    ),
    ("report 1\ntask 1 ledger 0 held 0 out 0\nphase\n", 3),
    (
        "report 1\ntask 1 ledger 0 held 0 out 0\ntask 1 ledger 0 held 0 out 0\n",
        3,
    ),
    (
        "report 1\ntask 1 ledger 0 held 0 out 0\nvouchers 00 values 1\n",
        3,
    ),
    (
        "report 1\ntask 1 ledger 0 held 0 out 0\nvouchers 0 values 18446744073709551616\n",
        3,
    ),
    (
        "report 1\ntask 1 ledger 0 held 0 out 0\nvouchers 0 values 1\ntask 2 ledger 0 held 0 out 0\n",
        4,
    ),
    (
        "report 1\ntask 1 ledger 0 held 0 out 0\nvouchers 0 values 1\nend\n\n",
        5,
    ),
    (
        "report 1\ntask 1 ledger 0 held 0 out 0\nvouchers 0 values 1\nend\nx",
        5,
    ),
];

/// The line of a fault, or 0 where the text is a report's and is written again as it was.
fn fault(alloc: Global, text: &[u8]) -> Option<u32> {
    if text.len() >= 4294967295 {
        return None;
    }
    match read(alloc, text) {
        Ok(report) => match write(alloc, &report) {
            Ok(again) => {
                if again.as_slice() == text {
                    Some(0)
                } else {
                    None
                }
            }
            Err(_) => None,
        },
        Err(ReportFault::At { line }) => Some(line),
        Err(ReportFault::NoMemory { .. }) => None,
    }
}

#[test]
fn whole_texts(rt: HostRuntime) -> Result<(), Fail> {
    let alloc = rt.alloc();
    assert_eq!(rt; fault(alloc, FIRST.as_bytes()), Some(0));
    assert_eq!(rt; fault(alloc, SERVICE.as_bytes()), Some(0));
    assert_eq!(rt; fault(alloc, TEST_KEY.as_bytes()), Some(0));
    assert_eq!(rt; fault(alloc, EXITS.as_bytes()), Some(0));
    for (text, line) in TEXTS {
        assert_eq!(rt; fault(alloc, text.as_bytes()), Some(line), "{text}");
    }
    Ok(())
}

/// The fault of a report of the version that has this one line before its task.
fn fault_of_line(alloc: Global, version: u32, line: &str) -> Option<u32> {
    let text = format!(in alloc;
        "report {version}\n{line}\ntask 1 ledger 0 held 0 out 0\nvouchers 0 values 1\nend\n"
    ).ok()?;
    fault(alloc, text.as_bytes())
}

#[test]
fn single_lines(rt: HostRuntime) -> Result<(), Fail> {
    let alloc = rt.alloc();
    for version in 1..3 {
        for line in GOOD {
            assert_eq!(rt; fault_of_line(alloc, version, line), Some(0), "{line}");
        }
        for line in BAD {
            assert_eq!(rt; fault_of_line(alloc, version, line), Some(2), "{line}");
        }
    }
    for line in LATER {
        assert_eq!(rt; fault_of_line(alloc, 1, line), Some(2), "{line}");
        assert_eq!(rt; fault_of_line(alloc, 2, line), Some(0), "{line}");
    }
    Ok(())
}

#[test]
fn other_line_and_every_cut(rt: HostRuntime) -> Result<(), Fail> {
    let alloc = rt.alloc();
    let other = FIRST.replace(alloc, "released 1", "released 01")?;
    assert_eq!(rt; fault(alloc, other.as_bytes()), Some(5));
    let bytes = FIRST.as_bytes();
    let mut line = 1;
    for (i, byte) in bytes.iter().enumerate() {
        assert_eq!(rt; fault(alloc, &bytes[..i]), Some(line), "cut at {i}");
        if *byte == b'\n' && line < 100 {
            line += 1;
        }
    }
    Ok(())
}

#[test]
fn many_tasks(rt: HostRuntime) -> Result<(), Fail> {
    let alloc = rt.alloc();
    let mut text = String::from_str(alloc, "report 1\n")?;
    for task in 1..71 {
        let line = format!(in alloc; "task {task} ledger {task} held 0 out 0\n")?;
        text.push_str(&line)?;
    }
    text.push_str("vouchers 0 values 1\nend\n")?;
    assert_eq!(rt; fault(alloc, text.as_bytes()), Some(0));
    Ok(())
}

#[test]
fn shown_faults(rt: HostRuntime) -> Result<(), Fail> {
    let alloc = rt.alloc();
    let at = format!(in alloc; "{}", ReportFault::At { line: 5 })?;
    assert_eq!(rt; at.as_str(), "fault report line 5");
    let memory = format!(in alloc; "{}", ReportFault::from(NoMemory::beyond(1, 1, 1)))?;
    assert_eq!(rt; memory.as_str(), "no memory");
    Ok(())
}
