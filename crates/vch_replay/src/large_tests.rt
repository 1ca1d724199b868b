//! Runs at their bounds: input, arrays, recipes, queues and calls, each with the whole report.
use crate::row_tests::{played, words_of};
use crate::{run_plain, run_steady};
use std::alloc::Global;
use std::test::Fail;
use vch_base::{MemSource, SteadySink, SteadySource};

/// So many line feeds, read in pieces.
fn status_of_line_feeds(alloc: Global, count: usize, sink: &mut SteadySink) -> Result<u8, Fail> {
    let words = words_of(alloc, &["check"])?;
    let mut source = MemSource::new(vec![in alloc; b'\n'; count]?, Vec::new(alloc), 4000);
    Ok(run_plain(alloc, words.as_slice(), &mut source, sink))
}

#[test]
fn the_most_bytes(rt: HostRuntime) -> Result<(), Fail> {
    let alloc = rt.alloc();
    let mut sink = SteadySink::new(alloc, 1000)?;
    assert_eq!(rt; status_of_line_feeds(alloc, 4194304, &mut sink)?, 2);
    assert_eq!(rt;
        sink.written(),
        b"fault line 4194305 why ending\n".as_slice()
    );
    let mut sink = SteadySink::new(alloc, 1000)?;
    assert_eq!(rt; status_of_line_feeds(alloc, 4194305, &mut sink)?, 6);
    assert!(rt; sink.written().is_empty());
    Ok(())
}

#[test]
fn an_array_of_one_byte_too_many(rt: HostRuntime) -> Result<(), Fail> {
    let alloc = rt.alloc();
    let words = words_of(alloc, &["recipe"])?;
    let mut source = SteadySource::new(vec![in alloc; 0u8; 5121]?);
    let mut sink = SteadySink::new(alloc, 1000)?;
    assert_eq!(rt;
        run_steady(alloc, words.as_slice(), &mut source, &mut sink),
        2
    );
    assert_eq!(rt; sink.written(), b"fault size 5121\n".as_slice());
    Ok(())
}

/// Some text and then so many digits 0.
fn push_padded(text: &mut Vec<u8>, before: &str, digits: usize) -> Result<(), Fail> {
    text.extend_from_slice(before.as_bytes())?;
    for _digit in 0..digits {
        text.push(b'0')?;
    }
    Ok(())
}

/// A text with so many digits 0 between two parts.
fn padded(alloc: Global, before: &str, digits: usize, after: &str) -> Result<Vec<u8>, Fail> {
    let mut text = Vec::new(alloc);
    push_padded(&mut text, before, digits)?;
    text.extend_from_slice(after.as_bytes())?;
    Ok(text)
}

/// A create of one record with 5,104 bytes of content, and so many bytes more.
fn wide_create(alloc: Global, more: usize) -> Result<Vec<u8>, Fail> {
    padded(
        alloc,
        "vouch 1\ntasks 1\ntask 1\nphase\n1 create 07000000d300000000000000f0130000",
        10208usize.saturating_add(more),
        "\nend\n",
    )
}

#[test]
fn the_largest_array(rt: HostRuntime) -> Result<(), Fail> {
    let alloc = rt.alloc();
    let text = wide_create(alloc, 0)?;
    let sink = played(alloc, &["play"], text.as_slice(), 20000)?;
    let report = padded(
        alloc,
        "report 1\nmade 7 user ",
        10208,
        "\ncall 1 1 create 0 1\nphase\ntask 1 ledger 0 held 0 out 0\nvouchers 1 values 2\nend\n",
    )?;
    assert!(rt; sink.written() == report.as_slice());
    let text = wide_create(alloc, 2)?;
    let sink = played(alloc, &["play"], text.as_slice(), 1000)?;
    assert_eq!(rt;
        sink.written(),
        b"report 1\ncall 1 1 create -307\nphase\ntask 1 ledger 0 held 0 out 0\nvouchers 0 values 1\nend\n".as_slice()
    );
    Ok(())
}

/// Vouchers of the largest content at keys 7 and 8, and one of both, of a list and of the default.
fn full_voucher(alloc: Global) -> Result<Vec<u8>, Fail> {
    let mut text = Vec::new(alloc);
    push_padded(
        &mut text,
        "vouch 2\ntasks 1\ntask 1\nphase\n1 create 07000000d300000000000000f0130000",
        10208,
    )?;
    push_padded(
        &mut text,
        "\n1 create 08000000d300000000000000f0130000",
        10208,
    )?;
    text.extend_from_slice(
        b"\n1 create 070000000100000001000000000000000800000001000000020000000000000002000000c8000000000000000000000003000000620200000000000000000000\n1 recipes 3\nend\n",
    )?;
    Ok(text)
}

/// The report of these, whose recipe has 10,272 bytes.
fn full_report(alloc: Global) -> Result<Vec<u8>, Fail> {
    let mut text = Vec::new(alloc);
    push_padded(&mut text, "report 2\nmade 7 user ", 10208)?;
    push_padded(&mut text, "\ncall 1 1 create 0 1\nmade 8 user ", 10208)?;
    push_padded(
        &mut text,
        "\ncall 1 2 create 0 2\nmade 2 list 1\ncall 1 3 create 0 3\ncall 1 4 recipes 0 part 02000000c800000000000000000000000300000062020000000000000000000007000000d300000000000000f0130000",
        10208,
    )?;
    push_padded(&mut text, "08000000d300000000000000f0130000", 10208)?;
    text.extend_from_slice(b"\nphase\ntask 1 ledger 0 held 0 out 0\nvouchers 3 values 4\nend\n")?;
    Ok(text)
}

#[test]
fn the_largest_recipe(rt: HostRuntime) -> Result<(), Fail> {
    let alloc = rt.alloc();
    let text = full_voucher(alloc)?;
    let sink = played(alloc, &["play"], text.as_slice(), 80000)?;
    let report = full_report(alloc)?;
    assert!(rt; sink.written() == report.as_slice());
    Ok(())
}

/// Content of so many digits, with the start of its record; what its recipe with a list is marked; and what a create of that
/// recipe answers.
const RECIPES: &[(&str, usize, &str, &str)] = &[
    ("07000000d300000000000000e0130000", 10176, "whole", "0 2"),
    ("07000000d300000000000000e1130000", 10178, "part", "-307"),
];

/// A voucher of some content and one of a list beside it, whose recipe is made again.
fn recipe_made_again(alloc: Global, header: &str, digits: usize) -> Result<Vec<u8>, Fail> {
    let mut text = Vec::from_slice(alloc, b"vouch 1\ntasks 1\ntask 1\nphase\n1 create ")?;
    push_padded(&mut text, header, digits)?;
    text.extend_from_slice(
        b"\n1 create ffffffff01000000010000000000000002000000c80000000000000000000000\n1 recipes 2\n1 create 02000000c80000000000000000000000",
    )?;
    push_padded(&mut text, header, digits)?;
    text.extend_from_slice(b"\nend\n")?;
    Ok(text)
}

/// The report of these.
fn recipe_report(
    alloc: Global,
    header: &str,
    digits: usize,
    mark: &str,
    again: &str,
) -> Result<Vec<u8>, Fail> {
    let front = format!(in alloc;
        "\ncall 1 1 create 0 1\nmade 2 list 1\ncall 1 2 create 0 2\ncall 1 3 recipes 0 {mark} 02000000c80000000000000000000000{header}"
    )?;
    let end = format!(in alloc;
        "\ncall 1 4 create {again}\nphase\ntask 1 ledger 0 held 0 out 0\nvouchers 2 values 3\nend\n"
    )?;
    let mut text = Vec::new(alloc);
    push_padded(&mut text, "report 1\nmade 7 user ", digits)?;
    push_padded(&mut text, front.as_str(), digits)?;
    text.extend_from_slice(end.as_bytes())?;
    Ok(text)
}

/// A recipe of 5,120 bytes is whole, and one of 5,121 is not.
#[test]
fn the_largest_whole_recipe(rt: HostRuntime) -> Result<(), Fail> {
    let alloc = rt.alloc();
    for (header, digits, mark, again) in RECIPES {
        let text = recipe_made_again(alloc, header, *digits)?;
        let sink = played(alloc, &["play"], text.as_slice(), 40000)?;
        let report = recipe_report(alloc, header, *digits, mark, again)?;
        assert!(rt; sink.written() == report.as_slice(), "{mark}");
    }
    Ok(())
}

/// A scenario of 1,025 messages to a queue of 1,024, and an exit.
fn long_queue(alloc: Global) -> Result<Vec<u8>, Fail> {
    let mut text = Vec::from_slice(
        alloc,
        b"vouch 2\ntasks 2\ntask 1\ntask 2 queue 1024\nphase\n",
    )?;
    for _message in 0..1025 {
        text.extend_from_slice(b"1 send 2 copy 0 7\n")?;
    }
    text.extend_from_slice(b"2 exit\nend\n")?;
    Ok(text)
}

/// The calls of the first task from one number up to another, which all have one reply.
fn push_calls(
    text: &mut Vec<u8>,
    alloc: Global,
    from: u32,
    to: u32,
    reply: &str,
) -> Result<(), Fail> {
    for number in from..to {
        let line = format!(in alloc; "call 1 {number} {reply}\n")?;
        text.extend_from_slice(line.as_bytes())?;
    }
    Ok(())
}

/// The report of the long queue.
fn long_queue_report(alloc: Global) -> Result<Vec<u8>, Fail> {
    let mut text = Vec::from_slice(alloc, b"report 2\n")?;
    push_calls(&mut text, alloc, 1, 1025, "send 0")?;
    text.extend_from_slice(b"call 1 1025 send 268435460\n")?;
    for _message in 0..1024 {
        text.extend_from_slice(b"lost 2\n")?;
    }
    text.extend_from_slice(
        b"call 2 1 exit 0\nphase\ntask 1 ledger 0 held 0 out 0\ntask 2 ledger 0 held 0 out 0\nvouchers 0 values 1\nend\n",
    )?;
    Ok(text)
}

#[test]
fn the_longest_queue(rt: HostRuntime) -> Result<(), Fail> {
    let alloc = rt.alloc();
    let text = long_queue(alloc)?;
    let sink = played(alloc, &["play"], text.as_slice(), 40000)?;
    let report = long_queue_report(alloc)?;
    assert!(rt; sink.written() == report.as_slice());
    Ok(())
}

/// A scenario of 16,384 calls: all that come after the first three are the largest charge.
fn most_charges(alloc: Global) -> Result<Vec<u8>, Fail> {
    let mut text = Vec::from_slice(
        alloc,
        b"vouch 1\ntasks 1\ntask 1\nphase\n1 create 03000000620200000000000000000000\n1 send 1 move 1 1\n1 recv\n",
    )?;
    for _charge in 0..16381 {
        text.extend_from_slice(b"1 charge 2 4294967295\n")?;
    }
    text.extend_from_slice(b"end\n")?;
    Ok(text)
}

/// Its report. No scenario brings a ledger nearer to 2 to the 64, which is 262,000 times as much.
fn most_charges_report(alloc: Global) -> Result<Vec<u8>, Fail> {
    let mut text = Vec::from_slice(
        alloc,
        b"report 1\ncall 1 1 create 0 1\nmade 3 task 1\ncall 1 2 send 0\ncall 1 3 recv 0 1 1 2\n",
    )?;
    push_calls(&mut text, alloc, 4, 16385, "charge 0")?;
    text.extend_from_slice(
        b"phase\ntask 1 ledger 70355859259395 held 0 out 0\nvouchers 1 values 2\nend\n",
    )?;
    Ok(text)
}

#[test]
fn the_most_charges(rt: HostRuntime) -> Result<(), Fail> {
    let alloc = rt.alloc();
    let text = most_charges(alloc)?;
    let sink = played(alloc, &["play"], text.as_slice(), 400000)?;
    let report = most_charges_report(alloc)?;
    assert!(rt; sink.written() == report.as_slice());
    Ok(())
}
