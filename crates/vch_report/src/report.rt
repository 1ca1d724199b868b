use vch_model::{History, TotalList};

/// What a run tells when it has ended.
///
/// It may be any history, legal or not. It has a text exactly where it is well formed: each number
/// is in its range, each reply is a refusal or the one of its word, each value that is made belongs
/// to its key and is not Default, each entry is one of its version, and there is a task.
#[derive(Drop)]
pub struct Report {
    /// The version of its text, 1 or 2: that of the scenario.
    pub version: u32,
    /// The entries, the oldest first.
    pub history: History,
    /// The totals of the tasks 1, 2, 3 and so on.
    pub totals: TotalList,
    /// Different vouchers that names and messages have.
    pub vouchers: u64,
    /// Live values, with Default.
    pub values: u64,
}
