/// What a check of a report found.
#[derive(Clone, Copy, Debug, PartialEq, Eq)]
pub enum Verdict {
    /// The history is whole, and the report is the one of it.
    Whole,
    /// The first flaw in the order of [`Flaw`].
    Not { flaw: Flaw },
}

/// What is wrong with a report. Each is looked for in what passed those before it.
#[derive(Clone, Copy, Debug, PartialEq, Eq)]
pub enum Flaw {
    /// The scenario is of another version.
    Version,
    /// The first entry, counted from 1, with which the history is not legal.
    Entry { number: u32 },
    /// The first line without its Call, of the lowest task that has one.
    Call { task: u32, number: u32 },
    /// The first phase that has not ended.
    Phase { phase: u32 },
    /// The lowest Made entry of a value that is live at the end and not held.
    Left { made: u32 },
    /// The lowest task whose ledger, or assertions held or out, differ. A total that is missing or too many differs.
    Total { task: u32 },
    /// The number of vouchers or of values differs.
    Count,
}
