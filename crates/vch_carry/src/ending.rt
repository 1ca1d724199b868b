ghost use Rattle.std.specs.Prelude.{◌≡◌, ◌≤◌, ◌++◌, [], if◌then◌else◌, length};
ghost use Rattle.vch_moves.specs.Desks.{items, option_items};
ghost use Rattle.vch_moves.specs.Steps as steps;

use crate::lets::push_voucher;
use vch_making::let_all_go;
use vch_parts::{Frame, Keys};
use vch_table::Indices;

/// Appends the indices of a voucher that was known before.
fn push_known(frame: &mut Frame, known: bool, voucher: &Indices)
    requires { length frame.old.lets ≤ 4 }
    ensures { frame.new ≡ record frame.old { lets = frame.old.lets ++ (if known then items voucher.now else []) } }
{
    if known {
        let_all_go(&mut frame.lets, voucher);
    }
}

/// Ends a call that has placed its voucher: the frame lets go of the voucher where it was known before, and of the one that
/// is an orphan now.
pub(crate) fn end_placed(
    frame: &mut Frame,
    known: bool,
    voucher: &Indices,
    orphan: &Option<Indices>,
)
    requires { length frame.old.lets ≤ 4 }
    ensures { frame.new ≡ steps.ended frame.old ((if known then items voucher.now else []) ++ option_items orphan.now) }
{
    push_known(frame, known, voucher);
    push_voucher(&mut frame.lets, orphan);
    frame.forming = None;
    frame.answered = true;
    frame.keys = Keys::none();
}
