ghost use Rattle.std.specs.Prelude.{◌≡◌, ◌≤◌, ◌<◌, ◌^◌, Some, IfSome, IsSome, length};
ghost use Rattle.vch_base.specs.Keyed.{of_key, with_key};
ghost use Rattle.vch_frame.specs.Indices.{index_of};
ghost use Rattle.vch_parts.specs.Framed.{begun_of, with_begun_of, with_frame_of};
ghost use Rattle.vch_moves.specs.Shares.{SharesAt, SharesAll};
ghost use Rattle.vch_moves.specs.Steps as steps;
ghost use Rattle.vch_carry.specs.Carried.{MayShare, MayShareAt};

use vch_base::Key;
use vch_frame::{Claiming, Lets};
use vch_parts::{Frame, Keys, Parts};
use vch_table::Indices;
use vch_values::Values;

/// The entry that a voucher has at a key, if it has one, gets one reference more.
fn share_at(values: &mut Values, voucher: &Indices, key: Key)
    requires { MayShareAt values.old voucher.now key }
    ensures here { SharesAt (of_key key values.old) (index_of key voucher.now) (of_key key values.new) }
    ensures others { values.new ≡ with_key key (of_key key values.new) values.old }
{
    if let Some(index) = voucher.get(key.number()) {
        values.share(key, index);
    }
}

/// Each entry of a voucher gets one reference more.
fn share_all(values: &mut Values, voucher: &Indices)
    requires { MayShare values.old voucher.now }
    ensures { SharesAll values.old voucher.now values.new }
{
    share_at(values, voucher, Key::Importance);
    share_at(values, voucher, Key::Bank);
    share_at(values, voucher, Key::User);
    share_at(values, voucher, Key::Test);
}

/// The frame of a call that forms this voucher and has these keys to ask.
fn fresh_frame(voucher: Indices, keys: Keys) -> Frame
    ensures { result ≡ steps.fresh_frame voucher keys }
{
    Frame {
        forming: Some(voucher),
        answered: false,
        at: 0,
        keys,
        receipt: None,
        lets: Lets::new(),
        claim: Claiming::Nothing,
    }
}

/// A call begins that forms a copy of a voucher. It takes no memory and constant time.
pub(crate) fn begin_copy(parts: &mut Parts, task: u32, voucher: Indices, keys: Keys)
    requires task { (0 < task) × (task ≤ length parts.old.frames) }
    requires few { begun_of parts.old.frames task < 4294967295 }
    requires may { MayShare parts.old.values voucher }
    ensures shares { SharesAll parts.old.values voucher parts.new.values }
    ensures frames { parts.new.frames ≡ with_frame_of (with_begun_of parts.old.frames task) task (Some (steps.fresh_frame voucher keys)) }
    ensures parts { parts.new ≡ record parts.old { values = parts.new.values; frames = parts.new.frames } }
{
    share_all(&mut parts.values, &voucher);
    parts.frames.begin(task);
    parts.frames.put(task, Some(fresh_frame(voucher, keys)));
}
