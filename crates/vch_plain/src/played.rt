use vch_model::{History, TotalList};

/// What a run of a scenario to its end comes to: its history, what it adds up for each task, how many different vouchers
/// names and messages have then, and how many values are live, Default among them.
#[derive(Drop)]
pub struct Played {
    pub history: History,
    pub totals: TotalList,
    pub vouchers: u64,
    pub values: u64,
}
