ghost use Rattle.std.specs.Prelude.{◌≡◌, ◌≤◌, ◌++◌, length};
ghost use Rattle.vch_moves.specs.Desks as desks;

use vch_frame::Lets;
use vch_making::let_all_go;
use vch_table::Indices;

/// Appends the indices of a voucher, if there is one.
pub(crate) fn push_voucher(lets: &mut Lets, voucher: &Option<Indices>)
    requires { length lets.old ≤ 8 }
    ensures { lets.new ≡ lets.old ++ desks.option_items voucher.now }
{
    if let Some(voucher) = voucher {
        let_all_go(lets, voucher);
    }
}
