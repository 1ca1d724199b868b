ghost use Rattle.std.specs.Prelude.{◌≡◌};

use thiserror::Error;
use vch_base::NoMemory;

/// Why there is no header.
#[derive(Clone, Copy, Debug, PartialEq, Eq, Error)]
pub enum HeaderFault {
    /// There are fewer than 24 bytes: so many.
    #[error("fault header left {have}")]
    Short { have: usize },
    /// The disposition of the voucher port is none of 0, 17 and 19, but this one.
    #[error("fault disposition {number}")]
    Disposition { number: u32 },
}

/// Why a message line can't be translated. The words are this project's own.
#[derive(Clone, Copy, Debug, PartialEq, Eq, Error)]
pub enum MessageFault {
    /// Its third word is not 48 hexadecimal digits.
    #[error("form")]
    Form,
    /// Its digits are 24 bytes whose disposition is refused.
    #[error("disposition")]
    Disposition,
}

/// Why a text has no translation.
#[derive(Debug, Drop)]
pub enum TranslationFault {
    /// The first message line that can't be translated, counted from 1.
    At { line: usize, why: MessageFault },
    /// Memory ran out. It says nothing of the text.
    NoMemory { cause: NoMemory },
}

impl From<NoMemory> for TranslationFault {
    ghost use Rattle.std.specs.Prelude.{◌≡◌};
    ghost use Rattle.vch_header.specs.declared.fault.TranslationFault.TheVariants as faults;

    ghost from_gives = { λ cause e. e ≡ faults.NoMemory cause };

    fn from(cause: NoMemory) -> Self {
        TranslationFault::NoMemory { cause }
    }
}
