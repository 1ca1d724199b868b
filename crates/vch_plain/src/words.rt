ghost use Rattle.std.specs.Prelude.{◌≡◌};
ghost use Rattle.vch_model.specs.Words as words;

use vch_model::{Call, Word};

/// The command's word of a call.
pub fn word_of(call: &Call) -> Word
    ensures { result ≡ words.word_of call.now }
{
    match call {
        Call::Create { .. } => Word::Create,
        Call::GiveUp { .. } => Word::GiveUp,
        Call::Extract { .. } => Word::Extract,
        Call::Recipes { .. } => Word::Recipes,
        Call::Send { .. } => Word::Send,
        Call::Recv => Word::Recv,
        Call::Extern { .. } => Word::Extern,
        Call::Charge { .. } => Word::Charge,
        Call::Ledger => Word::Ledger,
        Call::Assertions => Word::Assertions,
        Call::Live => Word::Live,
        Call::Exit => Word::Exit,
    }
}
