use crate::frames::Frames;
use vch_frame::Tally;
use vch_model::History;
use vch_script::Script;
use vch_values::Values;
use vch_vouchers::Vouchers;

/// All that a core has.
///
/// `phase` is the number of phases that have ended.
#[derive(Drop)]
pub struct Parts {
    pub scenario: Script,
    pub phase: u32,
    pub values: Values,
    pub vouchers: Vouchers,
    pub frames: Frames,
    pub tally: Tally,
    pub history: History,
}
