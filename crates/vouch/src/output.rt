//! A sink over any writer.
ghost use Rattle.std.specs.Prelude.{◌≡◌, ◌≢◌, ◌<◌, None, Ok, IfErr, length};
ghost use Rattle.std.specs.Io.{WritesAtMost};
ghost use Rattle.std.specs.Io.KnownBytes.{WriteAppends};
ghost use Rattle.std.specs.IoError.{error_kind};
ghost use Rattle.vch_base.specs.Stream.{HasCause, Rose, WriteGives};

use crate::faults::count_fault;
use std::io;
use std::io::{Error, ErrorKind, Write};
use vch_base::{Failed, Sink};

/// Writes once. A write that the system interrupted is done again; only after 18446744073709551615 of them it fails.
fn write_some<W: Write>(inner: &mut W, piece: &[u8]) -> io::Result<usize>
    ensures bound { WritesAtMost result piece.now }
    ensures bytes { WriteAppends (W.contents inner.old) (W.contents inner.new) result piece.now }
    ensures retried { IfErr result (λ e. error_kind e ≢ ErrorKind.Interrupted) }
{
    for _ in 0..u64::MAX {
        match inner.write(piece) {
            Ok(count) => return Ok(count),
            Err(error) => {
                if error.kind() != ErrorKind::Interrupted {
                    return Err(error);
                }
            }
        }
    }
    Err(Error::from(ErrorKind::TimedOut))
}

/// A sink over any writer. It tells nothing of what was written: a writer may begin to tell that at any write.
#[derive(Drop)]
pub struct Output<W: Write> {
    inner: W,
    faults: u64,
}

impl<W: Write> Output<W> {
    /// A sink with no faults so far. It takes no memory.
    pub fn new(inner: W) -> Output<W>
        ensures { result ≡ record { inner = inner; faults = 0 } }
    {
        Output { inner, faults: 0 }
    }
}

impl<W: Write> Sink for Output<W> {
    ghost written = { λ s. None };

    ghost faults = { λ s. s.faults };

    fn write(&mut self, piece: &[u8]) -> Result<usize, Failed>
        ensures bound { WritesAtMost result piece.now }
        ensures bytes { WriteGives None None result piece.now }
        ensures cause { HasCause self.old.faults self.new.faults result }
        ensures refused { result ≡ Ok 0 → 0 < length piece.now → Rose self.old.faults self.new.faults }
        ensures appends { WriteAppends (W.contents self.old.inner) (W.contents self.new.inner) result piece.now }
    {
        match write_some(&mut self.inner, piece) {
            Ok(0) => {
                if !piece.is_empty() {
                    count_fault(&mut self.faults);
                }
                Ok(0)
            }
            Ok(count) => Ok(count),
            Err(_) => {
                count_fault(&mut self.faults);
                Err(Failed)
            }
        }
    }
}
