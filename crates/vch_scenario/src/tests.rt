use crate::{ScenarioFault, Why, read, write};
use std::alloc::{AllocError, Global};
use std::test::Fail;
use vch_base::NoMemory;

/// A client that is a donor and a service that receives importance: two tasks, two phases.
const SERVICE: &str =
    "vouch 1\ntasks 2\ntask 1 donor\ntask 2 receiver\nphase\n1 create 0300000062020000000000000000000002000000c8000000000000000000000007000000d300000000000000020000006162\n1 send 2 copy 1 9\n1 drop 1\n2 recv\n2 charge 1 1200\n2 assertions\n2 drop 1\nphase\n1 ledger\nend\n";

/// One task that makes a voucher and drops it.
const ONE: &str =
    "vouch 1\ntasks 1\ntask 1\nphase\n1 create 07000000d300000000000000020000006162\n1 drop 1\nend\n";

/// The same with lines that are passed over and digits in upper case.
const ONE_AGAIN: &str =
    "# first\nvouch 1\n\ntasks 1\ntask 1\nphase\n1 create 07000000D300000000000000020000006162\n1 drop 1\nend\n";

/// Each kind of call, in its canonical spelling.
const CALLS: &str =
    "vouch 1\ntasks 3\ntask 1\ntask 2 donor receiver\ntask 3 receiver\nphase\nphase\n1 create -\n2 create 00ff\n1 drop 4294967295\n1 extract 1 7\n1 recipes 0\n3 send 2 copy 0 0\n3 send 4294967295 move 1 2\n2 recv\n2 extern 1 add 3\n2 extern 1 drop 4\n1 charge 9 70\n1 ledger\n2 assertions\n3 live\nend\n";

/// Two tasks whose queues have one message and the largest number of them, and one with the usual number; they give up all
/// that they have.
const LIMITED: &str =
    "vouch 2\ntasks 3\ntask 1\ntask 2 queue 1\ntask 3 donor receiver queue 1024\nphase\n1 create 07000000d300000000000000020000006162\n1 send 2 copy 1 1\n1 exit\n2 exit\n3 exit\n1 extract 1 8\nend\n";

/// The same with the usual number written, and a line that is passed over.
const LIMITED_AGAIN: &str =
    "vouch 2\ntasks 3\ntask 1 queue 5\n#\ntask 2 queue 1\ntask 3 donor receiver queue 1024\nphase\n1 create 07000000D300000000000000020000006162\n1 send 2 copy 1 1\n1 exit\n2 exit\n3 exit\n1 extract 1 8\nend\n";

/// What is told of a text: that it is a scenario's, or the fault.
fn told(alloc: Global, text: &[u8]) -> Result<String, AllocError> {
    if text.len() >= 4294967295 {
        return format!(in alloc; "too long");
    }
    match read(alloc, text) {
        Ok(_) => format!(in alloc; "scenario"),
        Err(fault) => fault.to_string(alloc),
    }
}

/// The canonical text of a text's scenario, or nothing.
fn canonical(alloc: Global, text: &[u8]) -> Option<Vec<u8>> {
    if text.len() >= 4294967295 {
        return None;
    }
    let scenario = read(alloc, text).ok()?;
    write(alloc, &scenario).ok()
}

#[test]
fn canonical_texts(rt: HostRuntime) -> Result<(), Fail> {
    let a = rt.alloc();
    for (text, want) in [
        (ONE, ONE),
        (ONE_AGAIN, ONE),
        (SERVICE, SERVICE),
        (CALLS, CALLS),
        (LIMITED, LIMITED),
        (LIMITED_AGAIN, LIMITED),
    ] {
        let Some(found) = canonical(a, text.as_bytes()) else {
            return Err(Fail::new("no canonical text"));
        };
        assert_eq!(rt; found.as_slice(), want.as_bytes());
    }
    Ok(())
}

#[test]
fn each_cut_of_a_text_is_an_early_ending(rt: HostRuntime) -> Result<(), Fail> {
    let a = rt.alloc();
    let text = SERVICE.as_bytes();
    let mut line: u64 = 1;
    for (n, byte) in text.iter().enumerate() {
        let want = format!(in a; "fault line {line} why ending")?;
        assert_eq!(rt; told(a, &text[..n])?, want, "at {n}");
        if *byte == b'\n' && line < 100 {
            line += 1;
        }
    }
    assert_eq!(rt; told(a, text)?.as_str(), "scenario");
    Ok(())
}

/// Texts that no scenario has, and what is told of each.
const BROKEN: [(&str, &str); 44] = [
    ("", "fault line 1 why ending"),
    ("vouch 1", "fault line 1 why ending"),
    ("\n#\n", "fault line 3 why ending"),
    ("vouch 3\n", "fault line 1 why form"),
    ("vouch 01\n", "fault line 1 why form"),
    ("vouch 1 \n", "fault line 1 why form"),
    (" vouch 1\n", "fault line 1 why form"),
    ("vouch 1\r\n", "fault line 1 why form"),
    ("Vouch 1\n", "fault line 1 why form"),
    ("tasks 1\nvouch 3\n", "fault line 1 why form"),
    ("vouch 1\ntasks 65\n", "fault line 2 why range"),
    ("vouch 1\ntasks 0\n", "fault line 2 why range"),
    (
        "vouch 1\ntasks 99999999999999999999999999\n",
        "fault line 2 why range",
    ),
    ("vouch 1\ntasks 1 \n", "fault line 2 why form"),
    ("vouch 1\ntasks +1\n", "fault line 2 why form"),
    ("vouch 1\ntasks\n", "fault line 2 why form"),
    ("vouch 1\ntasks 1\ntask 2\n", "fault line 3 why range"),
    (
        "vouch 1\ntasks 1\ntask 1 receiver donor\n",
        "fault line 3 why form",
    ),
    ("vouch 1\ntasks 1\ntask 2 giver\n", "fault line 3 why form"),
    ("vouch 1\ntasks 1\ntask 1\nend\n", "fault line 4 why form"),
    (
        "vouch 1\ntasks 1\ntask 1\ntask 2\n",
        "fault line 4 why form",
    ),
    ("vouch 1\ntasks 2\ntask 1\nphase\n", "fault line 4 why form"),
    (
        "vouch 1\ntasks 1\ntask 1\nphase\n1 drop 01\n",
        "fault line 5 why form",
    ),
    (
        "vouch 1\ntasks 1\ntask 1\nphase\n1  drop 1\n",
        "fault line 5 why form",
    ),
    (
        "vouch 1\ntasks 1\ntask 1\nphase\n1 drop 1 \n",
        "fault line 5 why form",
    ),
    (
        "vouch 1\ntasks 1\ntask 1\nphase\n1 drop\n",
        "fault line 5 why form",
    ),
    (
        "vouch 1\ntasks 1\ntask 1\nphase\n1 drop 4294967296\n",
        "fault line 5 why range",
    ),
    (
        "vouch 1\ntasks 1\ntask 1\nphase\n2 drop 1\n",
        "fault line 5 why range",
    ),
    (
        "vouch 1\ntasks 1\ntask 1\nphase\n0 drop 1\n",
        "fault line 5 why range",
    ),
    (
        "vouch 1\ntasks 1\ntask 1\nphase\n01 drop 1\n",
        "fault line 5 why form",
    ),
    (
        "vouch 1\ntasks 1\ntask 1\nphase\n9 drop 4294967296 1\n",
        "fault line 5 why form",
    ),
    (
        "vouch 1\ntasks 1\ntask 1\nphase\n1 Drop 1\n",
        "fault line 5 why form",
    ),
    (
        "vouch 1\ntasks 1\ntask 1\nphase\n1 exit\n",
        "fault line 5 why form",
    ),
    (
        "vouch 1\ntasks 1\ntask 1\nphase\n1 create\n",
        "fault line 5 why form",
    ),
    (
        "vouch 1\ntasks 1\ntask 1\nphase\n1 create abc\n",
        "fault line 5 why form",
    ),
    (
        "vouch 1\ntasks 1\ntask 1\nphase\n1 create 0g\n",
        "fault line 5 why form",
    ),
    (
        "vouch 1\ntasks 1\ntask 1\nphase\n1 create --\n",
        "fault line 5 why form",
    ),
    (
        "vouch 1\ntasks 1\ntask 1\nphase\n1 send 1 keep 1 1\n",
        "fault line 5 why form",
    ),
    (
        "vouch 1\ntasks 1\ntask 1\nphase\n1 send 1 copy 1 4294967296\n",
        "fault line 5 why range",
    ),
    (
        "vouch 1\ntasks 1\ntask 1\nphase\n1 extern 1 take 1\n",
        "fault line 5 why form",
    ),
    (
        "vouch 1\ntasks 1\ntask 1\nphase\n1 recv 1\n",
        "fault line 5 why form",
    ),
    (
        "vouch 1\ntasks 1\ntask 1\nphase\n1 drop 4294967296\n1 drop 01\n",
        "fault line 5 why range",
    ),
    (
        "vouch 1\ntasks 1\ntask 1\nphase\nend\n\n",
        "fault line 6 why ending",
    ),
    (
        "vouch 1\ntasks 1\ntask 1\nphase\nend\n#",
        "fault line 6 why ending",
    ),
];

#[test]
fn each_broken_text_has_its_first_fault(rt: HostRuntime) -> Result<(), Fail> {
    let a = rt.alloc();
    for (text, want) in BROKEN {
        assert_eq!(rt; told(a, text.as_bytes())?.as_str(), want, "{text}");
    }
    let fault = ScenarioFault::At {
        line: 7,
        why: Why::Limit,
    };
    assert_eq!(rt; fault.to_string(a)?.as_str(), "fault line 7 why limit");
    assert_eq!(rt;
        ScenarioFault::from(NoMemory::beyond(1, 1, 1))
            .to_string(a)?
            .as_str(),
        "no memory"
    );
    Ok(())
}

/// The version of a text of two tasks, the line of its first task, and what is told where nothing follows.
const TASK_LINES: [(u32, &str, &str); 24] = [
    (1, "task 1 donor receiver", "fault line 4 why ending"),
    (1, "task 1 queue 5", "fault line 3 why form"),
    (1, "task 1 queue 0", "fault line 3 why form"),
    (1, "task 1 donor queue 6", "fault line 3 why form"),
    (2, "task 1 queue 5", "fault line 4 why ending"),
    (2, "task 1 queue 1", "fault line 4 why ending"),
    (2, "task 1 donor queue 1024", "fault line 4 why ending"),
    (
        2,
        "task 1 donor receiver queue 6",
        "fault line 4 why ending",
    ),
    (2, "task 1 queue 0", "fault line 3 why range"),
    (2, "task 1 queue 1025", "fault line 3 why range"),
    (2, "task 1 queue 4294967301", "fault line 3 why range"),
    (2, "task 2 queue 1", "fault line 3 why range"),
    (2, "task 2 queue 0", "fault line 3 why range"),
    (2, "task 2 queue 05", "fault line 3 why form"),
    (2, "task 1 queue 5 donor", "fault line 3 why form"),
    (2, "task 1 donor queue 5 receiver", "fault line 3 why form"),
    (2, "task 1 receiver donor", "fault line 3 why form"),
    (2, "task 1 queue 5 queue 5", "fault line 3 why form"),
    (2, "task 1 queue", "fault line 3 why form"),
    (2, "task 1 queue ", "fault line 3 why form"),
    (2, "task 1 queue 5 ", "fault line 3 why form"),
    (2, "task 1  queue 5", "fault line 3 why form"),
    (2, "task 1 queue5", "fault line 3 why form"),
    (2, "task 1 Queue 5", "fault line 3 why form"),
];

/// The version of a text of one task, a line in its first phase, and what is told where nothing follows.
const EXITS: [(u32, &str, &str); 6] = [
    (1, "1 exit", "fault line 5 why form"),
    (1, "2 exit", "fault line 5 why form"),
    (2, "1 exit", "fault line 6 why ending"),
    (2, "2 exit", "fault line 5 why range"),
    (2, "1 exit 1", "fault line 5 why form"),
    (2, "1 exits", "fault line 5 why form"),
];

#[test]
fn queues_and_exits_are_of_version_2(rt: HostRuntime) -> Result<(), Fail> {
    let a = rt.alloc();
    for (version, line, want) in TASK_LINES {
        let text = format!(in a; "vouch {version}\ntasks 2\n{line}\n")?;
        assert_eq!(rt; told(a, text.as_bytes())?.as_str(), want, "{line}");
    }
    for (version, line, want) in EXITS {
        let text = format!(in a; "vouch {version}\ntasks 1\ntask 1\nphase\n{line}\n")?;
        assert_eq!(rt; told(a, text.as_bytes())?.as_str(), want, "{line}");
    }
    Ok(())
}

/// A text with so many of a line behind its first phase, and one line more.
fn repeated(alloc: Global, line: &str, count: u32, last: &str) -> Result<String, AllocError> {
    let mut text = String::from_str(alloc, "vouch 1\ntasks 1\ntask 1\nphase\n")?;
    for _ in 0..count {
        text.push_str(line)?;
    }
    text.push_str(last)?;
    Ok(text)
}

#[test]
fn limits(rt: HostRuntime) -> Result<(), Fail> {
    let a = rt.alloc();
    for (line, count, last, want) in [
        ("1 live\n", 16384, "end\n", "scenario"),
        (
            "1 live\n",
            16384,
            "1 live\nend\n",
            "fault line 16389 why limit",
        ),
        (
            "1 live\n",
            16384,
            "2 live\nend\n",
            "fault line 16389 why range",
        ),
        (
            "1 live\n",
            16384,
            "1 life\nend\n",
            "fault line 16389 why form",
        ),
        ("phase\n", 1023, "end\n", "scenario"),
        ("phase\n", 1023, "phase\nend\n", "fault line 1028 why limit"),
        ("phase\n", 1023, "1 live\nend\n", "scenario"),
        ("\n", 4194300, "", "fault line 4194305 why ending"),
    ] {
        let text = repeated(a, line, count, last)?;
        assert_eq!(rt;
            told(a, text.as_bytes())?.as_str(),
            want,
            "{count} of {line}"
        );
    }
    Ok(())
}
