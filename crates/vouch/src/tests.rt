//! The program over readers and writers that fail, are interrupted, or move a byte at a time.
use crate::input::Input;
use crate::output::Output;
use crate::run::run_over;
use std::alloc::Global;
use std::io;
use std::io::{ErrorKind, Read, Write};
use std::test::Fail;
use vch_base::{Failed, Sink, Source};

const TEXT: &[u8] = b"vouch 1\ntasks 1\ntask 1\nphase\nend\n";

/// Bytes that are given in pieces, with the numbers of the call that fails and of the one that is interrupted, counted from 1.
#[derive(Drop)]
struct Reader {
    bytes: &'static [u8],
    piece: usize,
    failing: usize,
    interrupted: usize,
    calls: usize,
    asked_for_nothing: bool,
    at_end: bool,
    asked_after_the_end: bool,
}

fn giving(piece: usize, failing: usize, interrupted: usize) -> Reader {
    Reader {
        bytes: TEXT,
        piece,
        failing,
        interrupted,
        calls: 0,
        asked_for_nothing: false,
        at_end: false,
        asked_after_the_end: false,
    }
}

impl Read for Reader {
    fn read(&mut self, buf: &mut [u8]) -> io::Result<usize> {
        self.calls = self.calls.saturating_add(1);
        self.asked_for_nothing = self.asked_for_nothing || buf.is_empty();
        self.asked_after_the_end = self.asked_after_the_end || self.at_end;
        if self.calls == self.failing {
            return Err(ErrorKind::Other.into());
        }
        if self.calls == self.interrupted {
            return Err(ErrorKind::Interrupted.into());
        }
        let count = self.piece.min(self.bytes.len()).min(buf.len());
        buf[..count].copy_from_slice(&self.bytes[..count]);
        self.bytes = &self.bytes[count..];
        self.at_end = count == 0;
        Ok(count)
    }
}

/// Keeps up to 64 bytes, which are taken in pieces, with the numbers of the call that fails and of the one that is interrupted.
#[derive(Drop)]
struct Writer {
    bytes: [u8; 64],
    len: usize,
    piece: usize,
    failing: usize,
    interrupted: usize,
    calls: usize,
}

fn taking(piece: usize, failing: usize, interrupted: usize) -> Writer {
    Writer {
        bytes: [0; 64],
        len: 0,
        piece,
        failing,
        interrupted,
        calls: 0,
    }
}

impl Writer {
    fn is(&self, text: &[u8]) -> bool {
        match self.bytes.get(..self.len) {
            Some(bytes) => bytes == text,
            None => false,
        }
    }
}

impl Write for Writer {
    fn write(&mut self, buf: &[u8]) -> io::Result<usize> {
        self.calls = self.calls.saturating_add(1);
        if self.calls == self.failing {
            return Err(ErrorKind::Other.into());
        }
        if self.calls == self.interrupted {
            return Err(ErrorKind::Interrupted.into());
        }
        let count = self.piece.min(buf.len());
        for byte in &buf[..count] {
            if self.len < 64 {
                self.bytes[self.len] = *byte;
                self.len += 1;
            }
        }
        Ok(count)
    }

    fn flush(&mut self) -> io::Result<()> {
        Ok(())
    }
}

/// The status of `check` over these ends.
fn checked(alloc: Global, from: &mut Reader, to: &mut Writer) -> Result<u8, Fail> {
    let words = vec![in alloc; String::from_str(alloc, "check")?]?;
    Ok(run_over(alloc, words.as_slice(), from, to))
}

#[test]
fn bytes_come_and_go_one_at_a_time(rt: HostRuntime) -> Result<(), Fail> {
    let mut from = giving(1, 0, 0);
    let mut to = taking(1, 0, 0);
    assert_eq!(rt; checked(rt.alloc(), &mut from, &mut to)?, 0);
    assert!(rt; to.is(TEXT));
    assert_eq!(rt; from.calls, 34);
    assert_eq!(rt; to.calls, 33);
    Ok(())
}

#[test]
fn a_read_that_fails_ends_with_3(rt: HostRuntime) -> Result<(), Fail> {
    for failing in 1..7 {
        let mut from = giving(8, failing, 0);
        let mut to = taking(64, 0, 0);
        assert_eq!(rt; checked(rt.alloc(), &mut from, &mut to)?, 3);
        assert_eq!(rt; from.calls, failing);
        assert_eq!(rt; to.calls, 0);
    }
    Ok(())
}

#[test]
fn no_read_asks_for_nothing_or_comes_after_the_end(rt: HostRuntime) -> Result<(), Fail> {
    let mut from = giving(8, 0, 0);
    let mut to = taking(64, 0, 0);
    assert_eq!(rt; checked(rt.alloc(), &mut from, &mut to)?, 0);
    assert_eq!(rt; from.calls, 6);
    assert!(rt; !from.asked_for_nothing);
    assert!(rt; !from.asked_after_the_end);
    Ok(())
}

#[test]
fn a_read_that_was_interrupted_is_done_again(rt: HostRuntime) -> Result<(), Fail> {
    for interrupted in 1..7 {
        let mut from = giving(8, 0, interrupted);
        let mut to = taking(64, 0, 0);
        assert_eq!(rt; checked(rt.alloc(), &mut from, &mut to)?, 0);
        assert_eq!(rt; from.calls, 7);
        assert!(rt; to.is(TEXT));
    }
    Ok(())
}

#[test]
fn a_write_that_fails_ends_with_4(rt: HostRuntime) -> Result<(), Fail> {
    for failing in 1..6 {
        let mut from = giving(64, 0, 0);
        let mut to = taking(8, failing, 0);
        assert_eq!(rt; checked(rt.alloc(), &mut from, &mut to)?, 4);
        assert_eq!(rt; to.calls, failing);
        assert!(rt; to.is(&TEXT[..8 * (failing - 1)]));
    }
    Ok(())
}

#[test]
fn a_write_that_was_interrupted_is_done_again(rt: HostRuntime) -> Result<(), Fail> {
    for interrupted in 1..6 {
        let mut from = giving(64, 0, 0);
        let mut to = taking(8, 0, interrupted);
        assert_eq!(rt; checked(rt.alloc(), &mut from, &mut to)?, 0);
        assert_eq!(rt; to.calls, 6);
        assert!(rt; to.is(TEXT));
    }
    Ok(())
}

#[test]
fn a_write_that_takes_nothing_ends_with_4(rt: HostRuntime) -> Result<(), Fail> {
    let mut from = giving(64, 0, 0);
    let mut to = taking(0, 0, 0);
    assert_eq!(rt; checked(rt.alloc(), &mut from, &mut to)?, 4);
    assert_eq!(rt; to.calls, 1);
    Ok(())
}

#[test]
fn a_source_tells_a_fault_and_goes_on(rt: HostRuntime) -> Result<(), Fail> {
    let mut from = giving(3, 2, 0);
    let mut source = Input::new(&mut from);
    let mut buffer = [0u8; 5];
    assert_eq!(rt; source.read(&mut buffer), Ok(3));
    assert_eq!(rt; &buffer, b"vou\0\0");
    assert_eq!(rt; source.read(&mut buffer), Err(Failed));
    assert_eq!(rt; source.read(&mut buffer), Ok(3));
    assert_eq!(rt; buffer[..3], b"ch "[..]);
    Ok(())
}

#[test]
fn a_sink_tells_how_much_was_taken(rt: HostRuntime) -> Result<(), Fail> {
    let mut to = taking(4, 2, 0);
    let mut sink = Output::new(&mut to);
    assert_eq!(rt; sink.write(b"report"), Ok(4));
    assert_eq!(rt; sink.write(b"rt"), Err(Failed));
    assert_eq!(rt; sink.write(b"rt"), Ok(2));
    assert!(rt; to.is(b"report"));
    Ok(())
}
