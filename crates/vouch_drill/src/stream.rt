//! The trusted edge: a sink over a writer. It counts its faults and tells nothing of content.
ghost use Rattle.std.specs.Prelude.{◌≡◌, ◌≤◌, None, IfSome, length};
ghost use Rattle.vch_base.specs.Stream.{Rose};

use std::io::{ErrorKind, Write};
use vch_base::{Failed, Sink};

/// Writes once, or not at all where the writer fails. A write that the system interrupted is tried again.
fn write_some<W: Write>(inner: &mut W, piece: &[u8]) -> Option<usize>
    ensures { IfSome result (λ count. count ≤ length piece.now) }
{
    for _ in 0..u64::MAX {
        match inner.write(piece) {
            Ok(count) => return Some(count),
            Err(error) if error.kind() == ErrorKind::Interrupted => {}
            Err(_) => return None,
        }
    }
    None
}

/// One fault more, up to 18446744073709551615.
fn count_fault(faults: &mut u64)
    ensures later { faults.old ≤ faults.new }
    ensures rose { Rose faults.old faults.new }
{
    *faults = faults.saturating_add(1);
}

/// A sink over any writer.
#[derive(Drop)]
pub struct Output<W: Write> {
    inner: W,
    faults: u64,
}

impl<W: Write> Output<W> {
    /// A sink with no faults so far. It takes no memory.
    pub fn new(inner: W) -> Output<W>
        ensures { result ≡ record { inner = inner; faults = 0 } }
    {
        Output { inner, faults: 0 }
    }
}

impl<W: Write> Sink for Output<W> {
    ghost written = { λ s. None };

    ghost faults = { λ s. s.faults };

    fn write(&mut self, piece: &[u8]) -> Result<usize, Failed> {
        match write_some(&mut self.inner, piece) {
            Some(0) => {
                if !piece.is_empty() {
                    count_fault(&mut self.faults);
                }
                Ok(0)
            }
            Some(written) => Ok(written),
            None => {
                count_fault(&mut self.faults);
                Err(Failed)
            }
        }
    }
}
