use vch_model::{History, TotalList};

/// Which lines may stand next.
#[derive(Clone, Copy, Debug, PartialEq, Eq)]
pub enum Place {
    /// The title.
    Title,
    /// An entry, or the line of task 1.
    Entries,
    /// The line of the next task, or the counts.
    Totals,
    /// The last line.
    End,
    /// None: the last line was read.
    Done,
}

/// What was read so far.
#[derive(Drop)]
pub struct Draft {
    pub place: Place,
    pub version: u32,
    pub history: History,
    pub totals: TotalList,
    pub vouchers: u64,
    pub values: u64,
}
