//! What scenarios, replies and histories are, and the definitions that every promise cites.
#![tactic(auto)]

mod call;
mod entry;
mod history;
mod laws;
mod lists;
mod total;

pub use call::{Call, Line, Word};
pub use entry::{Entry, Reply};
pub use history::History;
pub use laws::{
    equal_vouchers, illegal_histories, long_queues, managed_values, more_texts, texts_of_version_2,
    unended_histories, unwanted_calls, vouchers_of_version, whole_recipes, worked_histories,
    worked_parts, worked_starts,
};
pub use lists::{FlagList, LineList, PhaseList, QueueList, Scenario, TotalList};
pub use total::Total;
