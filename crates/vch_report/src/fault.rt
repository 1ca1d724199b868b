ghost use Rattle.std.specs.Prelude.{◌≡◌};
ghost use Rattle.vch_report.specs.declared.fault.ReportFault.TheVariants as report_faults;
ghost use Rattle.vch_report.specs.declared.fault.Stop.TheVariants.{Memory};

use thiserror::Error;
use vch_base::NoMemory;

/// Why there is no report of a text.
#[derive(Debug, Drop, PartialEq, Eq, Error)]
pub enum ReportFault {
    /// The first line that can't stand at its place, counted from 1.
    #[error("fault report line {line}")]
    At { line: u32 },
    /// Memory ran out. It says nothing of the text.
    #[error("no memory")]
    NoMemory { cause: NoMemory },
}

impl From<NoMemory> for ReportFault {
    ghost from_gives = { λ cause e. e ≡ report_faults.NoMemory cause };

    fn from(cause: NoMemory) -> Self {
        ReportFault::NoMemory { cause }
    }
}

/// What stops the reading of a line.
#[derive(Debug, Drop, PartialEq, Eq)]
pub enum Stop {
    /// It can't stand at its place.
    Fault,
    /// Memory ran out.
    Memory { cause: NoMemory },
}

impl From<NoMemory> for Stop {
    ghost from_gives = { λ cause e. e ≡ Memory cause };

    fn from(cause: NoMemory) -> Self {
        Stop::Memory { cause }
    }
}
