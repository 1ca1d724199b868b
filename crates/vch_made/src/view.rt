use atomic_table::TableRule;

/// What a seat at the table knows, a place a slot in each list. It stands in proofs alone: no value of it is made, so its lists
/// are written as arrays of no length.
pub struct View {
    pub own: [u64; 0],
    pub dead: [bool; 0],
    pub room: u64,
    pub tries: u64,
    pub freed: [bool; 0],
    pub steps: [u64; 0],
    pub met: [u64; 0],
    /// How many makes all seats of the row may do.
    pub makes: u64,
    /// How much of the room goes to the next new seat.
    pub offer: u64,
}

/// What a row is opened with.
#[derive(Drop)]
pub struct Terms {
    pub slots: u64,
    pub makes: u64,
}

/// The rule of the row.
pub struct Counting;

impl TableRule<(), View, Terms> for Counting {
    ghost use Rattle.vch_made.specs.Counting.{CountRule, opened};

    ghost holds = { CountRule };

    ghost first = { opened };
}
