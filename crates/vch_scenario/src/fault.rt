ghost use Rattle.std.specs.Prelude.{◌≡◌};
ghost use Rattle.vch_scenario.specs.declared.fault.Stop.TheVariants.{Fault, Memory};
ghost use Rattle.vch_scenario.specs.declared.fault.ScenarioFault.TheVariants as scenario_faults;
ghost use Rattle.vch_scenario.specs.Reading.{stop_of};

use thiserror::Error;
use vch_base::NoMemory;
use vch_text::HexFault;

/// Why a line can't stand at its place. The words are this project's own.
#[derive(Clone, Copy, Debug, PartialEq, Eq, Error)]
pub enum Why {
    /// It is none of the forms that may stand there, by its words and the shape of its numbers.
    #[error("form")]
    Form,
    /// It has such a form, and a number is out of its range.
    #[error("range")]
    Range,
    /// It is a good call line or phase line, and is one more than there may be.
    #[error("limit")]
    Limit,
    /// The text ends too early or inside the line, or the line stands behind the end.
    #[error("ending")]
    Ending,
}

/// Why a text is no scenario: its first line that can't stand, counted from 1.
#[derive(Debug, Drop, PartialEq, Eq, Error)]
pub enum ScenarioFault {
    #[error("fault line {line} why {why}")]
    At { line: u32, why: Why },
    /// Memory ran out. It says nothing of the text.
    #[error("no memory")]
    NoMemory { cause: NoMemory },
}

impl From<NoMemory> for ScenarioFault {
    ghost from_gives = { λ cause e. e ≡ scenario_faults.NoMemory cause };

    fn from(cause: NoMemory) -> Self {
        ScenarioFault::NoMemory { cause }
    }
}

/// What stops the reading of a line.
#[derive(Debug, Drop, PartialEq, Eq)]
pub enum Stop {
    Fault { why: Why },
    Memory { cause: NoMemory },
}

impl From<Why> for Stop {
    ghost from_gives = { λ w e. e ≡ Fault w };

    fn from(why: Why) -> Self {
        Stop::Fault { why }
    }
}

impl From<NoMemory> for Stop {
    ghost from_gives = { λ cause e. e ≡ Memory cause };

    fn from(cause: NoMemory) -> Self {
        Stop::Memory { cause }
    }
}

impl From<HexFault> for Stop {
    ghost from_gives = { λ h e. e ≡ stop_of h };

    fn from(fault: HexFault) -> Self {
        match fault {
            HexFault::Malformed => Stop::Fault { why: Why::Form },
            HexFault::NoMemory { cause } => Stop::from(cause),
        }
    }
}
