//! An array that is cut at each place, and ends that fail at each of their calls.
use crate::row_tests::{played, words_of};
use crate::tests::{STORE, STORED};
use crate::{run_plain, run_steady};
use std::alloc::Global;
use std::test::Fail;
use vch_base::{MemSink, MemSource, SteadySink, SteadySource};

/// Two records of key 7, with the contents `ab` and `cd`.
const ARRAY: &[u8] =
    b"\x07\x00\x00\x00\xd3\x00\x00\x00\x00\x00\x00\x00\x02\x00\x00\x00ab\x07\x00\x00\x00\xd3\x00\x00\x00\x00\x00\x00\x00\x02\x00\x00\x00cd";

/// And their digits.
const DIGITS: &[u8] = b"07000000d30000000000000002000000616207000000d300000000000000020000006364";

/// From so many bytes to so many: the entries of a create of them, and what is live after it.
const CREATED: &[(usize, usize, &str, &str)] = &[
    (1, 17, "call 1 1 create 4", "vouchers 0 values 1"),
    (
        18,
        18,
        "made 7 user 6162\ncall 1 1 create 0 1",
        "vouchers 1 values 2",
    ),
    (
        19,
        35,
        "made 7 user 6162\ncall 1 1 create 4\nreleased 1",
        "vouchers 0 values 1",
    ),
    (
        36,
        36,
        "made 7 user 6162\nmade 7 user 6364\nreleased 1\ncall 1 1 create 0 1",
        "vouchers 1 values 2",
    ),
];

/// From so many bytes to so many: the fault of their list, and how many bytes come before those that it counts as left.
const CUTS: &[(usize, usize, &str, usize)] = &[
    (1, 15, "fault header at 0 left", 0),
    (16, 17, "fault content at 0 wanted 2 left", 16),
    (19, 33, "fault header at 18 left", 18),
    (34, 35, "fault content at 18 wanted 2 left", 34),
];

/// So many bytes, and the list of their records.
const WHOLE: &[(usize, &str)] = &[
    (0, "end\n"),
    (18, "recipe 7 211 0 6162\nend\n"),
    (36, "recipe 7 211 0 6162\nrecipe 7 211 0 6364\nend\n"),
];

/// The first bytes of a text.
fn first_of(alloc: Global, text: &[u8], count: usize) -> Result<Vec<u8>, Fail> {
    if count > text.len() {
        return Err(Fail::new("too short"));
    }
    Ok(Vec::from_slice(alloc, &text[..count])?)
}

/// A scenario of one create of the first bytes.
fn create_of(alloc: Global, count: usize) -> Result<Vec<u8>, Fail> {
    let digits = first_of(alloc, DIGITS, count.saturating_mul(2))?;
    let mut text = Vec::from_slice(alloc, b"vouch 1\ntasks 1\ntask 1\nphase\n1 create ")?;
    text.extend_from_slice(digits.as_slice())?;
    text.extend_from_slice(b"\nend\n")?;
    Ok(text)
}

/// Creates of the first bytes, from so many to so many, all come to one report.
fn all_create(alloc: Global, first: usize, last: usize, report: &str) -> Result<bool, Fail> {
    for count in first..last.saturating_add(1) {
        let text = create_of(alloc, count)?;
        let sink = played(alloc, &["play"], text.as_slice(), 1000)?;
        if sink.written() != report.as_bytes() {
            return Ok(false);
        }
    }
    Ok(true)
}

#[test]
fn cut_creates(rt: HostRuntime) -> Result<(), Fail> {
    let alloc = rt.alloc();
    for (first, last, entries, live) in CREATED {
        let report = format!(in alloc;
            "report 1\n{entries}\nphase\ntask 1 ledger 0 held 0 out 0\n{live}\nend\n"
        )?;
        assert!(rt;
            all_create(alloc, *first, *last, report.as_str())?,
            "from {first}"
        );
    }
    Ok(())
}

/// The list of the first bytes: its status, and its text.
fn listed(alloc: Global, count: usize) -> Result<(u8, SteadySink), Fail> {
    let words = words_of(alloc, &["recipe"])?;
    let mut source = SteadySource::new(first_of(alloc, ARRAY, count)?);
    let mut sink = SteadySink::new(alloc, 1000)?;
    let status = run_steady(alloc, words.as_slice(), &mut source, &mut sink);
    Ok((status, sink))
}

/// Lists of the first bytes, from so many to so many, are all refused for what is left of a record.
fn all_refuse(
    alloc: Global,
    first: usize,
    last: usize,
    fault: &str,
    before: usize,
) -> Result<bool, Fail> {
    for count in first..last.saturating_add(1) {
        let left = count.saturating_sub(before);
        let line = format!(in alloc; "{fault} {left}\n")?;
        let (status, sink) = listed(alloc, count)?;
        if status != 2 || sink.written() != line.as_bytes() {
            return Ok(false);
        }
    }
    Ok(true)
}

#[test]
fn cut_lists(rt: HostRuntime) -> Result<(), Fail> {
    let alloc = rt.alloc();
    for (first, last, fault, before) in CUTS {
        assert!(rt;
            all_refuse(alloc, *first, *last, fault, *before)?,
            "from {first}"
        );
    }
    Ok(())
}

#[test]
fn whole_lists(rt: HostRuntime) -> Result<(), Fail> {
    let alloc = rt.alloc();
    for (count, text) in WHOLE {
        let (status, sink) = listed(alloc, *count)?;
        assert_eq!(rt; status, 0);
        assert_eq!(rt; sink.written(), text.as_bytes());
    }
    Ok(())
}

/// Eleven reads of eight bytes, and the one that meets the end: each may fail, and nothing is written then.
#[test]
fn each_read_fails(rt: HostRuntime) -> Result<(), Fail> {
    let alloc = rt.alloc();
    let words = words_of(alloc, &["play"])?;
    for call in 1..13u64 {
        let failing = vec![in alloc; call]?;
        let mut source = MemSource::new(Vec::from_slice(alloc, STORE)?, failing, 8);
        let mut sink = MemSink::new(alloc, Vec::new(alloc), 10, 1000)?;
        let status = run_plain(alloc, words.as_slice(), &mut source, &mut sink);
        assert_eq!(rt; status, 3, "read {call}");
        assert!(rt; sink.written().is_empty());
    }
    Ok(())
}

/// Fourteen writes of ten bytes: each may fail, and what was written before it stays.
#[test]
fn each_write_fails(rt: HostRuntime) -> Result<(), Fail> {
    let alloc = rt.alloc();
    let words = words_of(alloc, &["play"])?;
    for call in 1..15u64 {
        let mut source = MemSource::new(Vec::from_slice(alloc, STORE)?, Vec::new(alloc), 8);
        let mut sink = MemSink::new(alloc, vec![in alloc; call]?, 10, 1000)?;
        let status = run_plain(alloc, words.as_slice(), &mut source, &mut sink);
        assert_eq!(rt; status, 4, "write {call}");
        assert!(rt; STORED.as_bytes().starts_with(sink.written()));
        assert_eq!(rt; sink.written().len() as u64, 10 * (call - 1));
    }
    Ok(())
}

/// No thirteenth read comes, and no fifteenth write.
#[test]
fn later_calls_never_come(rt: HostRuntime) -> Result<(), Fail> {
    let alloc = rt.alloc();
    let words = words_of(alloc, &["play"])?;
    let mut source = MemSource::new(Vec::from_slice(alloc, STORE)?, vec![in alloc; 13u64]?, 8);
    let mut sink = MemSink::new(alloc, vec![in alloc; 15u64]?, 10, 1000)?;
    let status = run_plain(alloc, words.as_slice(), &mut source, &mut sink);
    assert_eq!(rt; status, 0);
    assert_eq!(rt; sink.written(), STORED.as_bytes());
    Ok(())
}
