ghost use Rattle.std.specs.Prelude.{◌≡◌, ◌<◌, ◌≤◌, ◌+◌, ◌-◌, ◌++◌, List, ℕ, length, take, IfOk, OnOk, OnErr, IfSome, IsErrOf, Option, vec_len};
ghost use Rattle.std.specs.Io.KnownBytes.{Consumes, IsAtEnd};
ghost use Rattle.vch_base.specs.Stream.{Rose};
ghost use Rattle.vch_replay.specs.declared.input.InputFault.TheVariants as faults;
ghost use Rattle.vch_replay.specs.Input.{limit, EachReadGave, GaveTooMuch, GaveAtMost};

use std::alloc::Global;
use vch_base::{NoMemory, Source};

/// The most bytes that are read.
pub const LIMIT: usize = 4194304;

/// Why the input was not read to its end.
#[derive(Debug, Drop, PartialEq, Eq)]
pub enum InputFault {
    Failed,
    TooLong,
    NoMemory { cause: NoMemory },
}

impl From<NoMemory> for InputFault {
    ghost from_gives = { λ cause e. e ≡ faults.NoMemory cause };

    fn from(cause: NoMemory) -> Self {
        InputFault::NoMemory { cause }
    }
}

/// Reads to the end of the source, or until one byte more than the limit was given. Each read asks for at least one byte.
pub fn read_all<S: Source>(alloc: Global, source: &mut S) -> Result<Vec<u8>, InputFault>
    ensures later { S.faults source.old ≤ S.faults source.new }
    ensures taken { IfOk result (λ bytes. Consumes (S.left source.old) (S.left source.new) bytes.items) }
    ensures ended { OnOk result (IsAtEnd (S.left source.new)) }
    ensures short { IfOk result (λ bytes. length bytes.items ≤ limit) }
    ensures failed { IsErrOf result InputFault.Failed → Rose (S.faults source.old) (S.faults source.new) }
    ensures long { IsErrOf result InputFault.TooLong → GaveTooMuch (S.left source.old) (S.left source.new) }
    ensures enough { (IsErrOf result InputFault.TooLong → ⊥) → GaveAtMost limit (S.left source.old) (S.left source.new) }
    ensures at_most { GaveAtMost (limit + 1) (S.left source.old) (S.left source.new) }
    ensures reads { S.reads source.new ≤ S.reads source.old + (limit + 1) }
    ensures each { EachReadGave (S.left source.old) (S.left source.new) (S.reads source.old) (S.reads source.new) }
{
    let mut bytes = Vec::new(alloc);
    let mut buffer = [0u8; 4096];
    loop {
        let want = (LIMIT + 1 - bytes.len()).min(buffer.len());
        let Ok(count) = source.read(&mut buffer[..want]) else {
            return Err(InputFault::Failed);
        };
        if count == 0 {
            return Ok(bytes);
        }
        if count > LIMIT - bytes.len() {
            return Err(InputFault::TooLong);
        }
        bytes
            .extend_from_slice(&buffer[..count])
            .map_err(NoMemory::from)?;
    }
}
