use vch_model::{Entry, Total};

/// A line of a report.
#[derive(Debug, Drop)]
pub enum Item {
    Title { version: u32 },
    Step { entry: Entry },
    Task { task: u32, total: Total },
    Counts { vouchers: u64, values: u64 },
    End,
}
