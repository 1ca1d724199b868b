//! A source over any reader.
ghost use Rattle.std.specs.Prelude.{◌≡◌, ◌≢◌, IfErr};
ghost use Rattle.std.specs.Io.{ReadsAtMost};
ghost use Rattle.std.specs.Io.KnownBytes.{ReadConsumes};
ghost use Rattle.std.specs.IoError.{error_kind};

use crate::faults::count_fault;
use std::io;
use std::io::{Error, ErrorKind, Read};
use vch_base::{Failed, Source};

/// Reads once. A read that the system interrupted is done again; only after 18446744073709551615 of them it fails.
fn read_some<R: Read>(inner: &mut R, buffer: &mut [u8]) -> io::Result<usize>
    ensures bound { ReadsAtMost result buffer.new }
    ensures bytes { ReadConsumes (R.remaining inner.old) (R.remaining inner.new) result buffer.new }
    ensures retried { IfErr result (λ e. error_kind e ≢ ErrorKind.Interrupted) }
{
    for _ in 0..u64::MAX {
        match inner.read(buffer) {
            Ok(count) => return Ok(count),
            Err(error) => {
                if error.kind() != ErrorKind::Interrupted {
                    return Err(error);
                }
            }
        }
    }
    Err(Error::from(ErrorKind::TimedOut))
}

/// A source over any reader. It tells what is left where the reader does.
#[derive(Drop)]
pub struct Input<R: Read> {
    inner: R,
    faults: u64,
}

impl<R: Read> Input<R> {
    /// A source with no faults so far. It takes no memory.
    pub fn new(inner: R) -> Input<R>
        ensures { result ≡ record { inner = inner; faults = 0 } }
    {
        Input { inner, faults: 0 }
    }
}

impl<R: Read> Source for Input<R> {
    ghost left = { λ s. R.remaining s.inner };

    ghost faults = { λ s. s.faults };

    fn read(&mut self, buffer: &mut [u8]) -> Result<usize, Failed> {
        match read_some(&mut self.inner, buffer) {
            Ok(count) => Ok(count),
            Err(_) => {
                count_fault(&mut self.faults);
                Err(Failed)
            }
        }
    }
}
