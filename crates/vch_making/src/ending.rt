ghost use Rattle.std.specs.Prelude.{◌≡◌, ◌≤◌, ◌<◌, ◌++◌, length};
ghost use Rattle.vch_model.specs.Words as words;
ghost use Rattle.vch_frame.specs.Indices.{index_of};
ghost use Rattle.vch_frame.specs.Releases.{let_at};
ghost use Rattle.vch_moves.specs.Desks.{items, option_items};
ghost use Rattle.vch_moves.specs.Steps.{ended};

use vch_base::Key;
use vch_frame::{KeyIndex, Lets};
use vch_model::{Call, Word};
use vch_parts::{Frame, Keys};
use vch_table::Indices;

/// The word of a call, as its entry has it.
pub fn word_of(call: &Call) -> Word
    ensures { result ≡ words.word_of call.now }
{
    match call {
        Call::Create { .. } => Word::Create,
        Call::GiveUp { .. } => Word::GiveUp,
        Call::Extract { .. } => Word::Extract,
        Call::Recipes { .. } => Word::Recipes,
        Call::Extern { .. } => Word::Extern,
        Call::Charge { .. } => Word::Charge,
        Call::Ledger => Word::Ledger,
        Call::Assertions => Word::Assertions,
        Call::Live => Word::Live,
        Call::Send { .. } => Word::Send,
        Call::Recv => Word::Recv,
        Call::Exit => Word::Exit,
    }
}

/// Appends the index that a voucher has at a key, if there is one.
fn let_one_go(lets: &mut Lets, voucher: &Indices, key: Key)
    requires { length lets.old < 12 }
    ensures { lets.new ≡ lets.old ++ let_at key (index_of key voucher.now) }
{
    if let Some(index) = voucher.get(key.number()) {
        lets.push(KeyIndex { key, index });
    }
}

/// Appends the indices of a voucher, in rising order of their keys. At most four steps for each key.
pub fn let_all_go(lets: &mut Lets, voucher: &Indices)
    requires { length lets.old ≤ 8 }
    ensures { lets.new ≡ lets.old ++ items voucher.now }
{
    let_one_go(lets, voucher, Key::Importance);
    let_one_go(lets, voucher, Key::Bank);
    let_one_go(lets, voucher, Key::User);
    let_one_go(lets, voucher, Key::Test);
}

/// The frame of a call that is answered without the voucher that it formed, if it formed one: what that has is to be let go of.
pub fn end_frame(frame: &mut Frame)
    requires { length frame.old.lets ≤ 8 }
    ensures { frame.new ≡ ended frame.old (option_items frame.old.forming) }
{
    if let Some(voucher) = frame.forming.take() {
        let_all_go(&mut frame.lets, &voucher);
    }
    frame.answered = true;
    frame.keys = Keys::none();
}
