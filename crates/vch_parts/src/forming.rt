ghost use Rattle.std.specs.Prelude.{◌≡◌, ◌<◌, None, IfSome, length};
ghost use Rattle.vch_base.specs.Keys.{number_of};
ghost use Rattle.vch_table.specs.Indices.{index_at};
ghost use Rattle.vch_parts.specs.Moves.{PutsIndex};

use crate::Frame;
use vch_base::Key;
use vch_frame::KeyIndex;

/// Puts an index at a key of the voucher that the frame forms, or takes the key away. What stood there is to be let go of,
/// also where the same index is put there again. At most four steps.
pub fn put_index(frame: &mut Frame, key: Key, index: Option<u32>)
    requires keys { IfSome frame.old.forming (λ v. index_at v (number_of key) ≡ None → length v < 4) }
    requires lets { length frame.old.lets < 12 }
    ensures { IfSome frame.old.forming (λ v. PutsIndex key index v frame.old frame.new) }
{
    let Some(forming) = &mut frame.forming else {
        return;
    };
    let before = forming.get(key.number());
    forming.set(key.number(), index);
    forming.know();
    if let Some(index) = before {
        frame.lets.push(KeyIndex { key, index });
    }
}
