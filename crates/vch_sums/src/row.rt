ghost use Rattle.std.specs.Prelude.{◌≡◌, IfOk, ◌+◌, ◌<◌, length};
ghost use Rattle.vch_base.specs.declared.value.Value.TheVariants as values;
ghost use Rattle.vch_model.specs.Transfer.{flags_of};
ghost use Rattle.vch_sums.specs.Steps.{share_weight};
ghost use Rattle.vch_sums.specs.Summed.{share_of};

use vch_base::{Chain, NoMemory, Value};
use vch_model::Scenario;

/// Whom a live value counts for.
#[derive(Clone, Copy, Debug, PartialEq, Eq)]
pub enum Share {
    /// A list of two or more: what it counts is out from its first task, and its last task holds it. A donor counts 1.
    List { first: u32, last: u32, donor: bool },
    /// An account: what is due on it is credited to its holder.
    Account { holder: u32 },
    /// Any other value.
    Other,
}

/// What a history adds up for a live value.
#[derive(Clone, Copy, Debug, PartialEq, Eq)]
pub struct Row {
    pub share: Share,
    /// The external count of a list, or what is due on an account; 0 of any other value.
    pub amount: u64,
}

/// Whether a task is a donor. An unknown task is none.
fn is_donor(scenario: &Scenario, task: u32) -> bool
    ensures { result ≡ (flags_of scenario.now task).donor }
{
    let tasks = scenario.flags.len();
    if task == 0 || task as usize > tasks {
        return false;
    }
    scenario.flags.at(task as usize - 1).donor
}

/// Whom a list counts for.
fn list_share(scenario: &Scenario, list: &Chain) -> Share
    ensures { result ≡ share_of scenario.now (values.Chain list.now) }
{
    if list.len() < 2 {
        return Share::Other;
    }
    let first = list.first();
    Share::List {
        first,
        last: list.last(),
        donor: is_donor(scenario, first),
    }
}

/// Whom a value counts for.
pub fn share_of(scenario: &Scenario, value: &Value) -> Share
    ensures { result ≡ share_of scenario.now value.now }
{
    match value {
        Value::Chain { list } => list_share(scenario, list),
        Value::Account { holder, .. } => Share::Account { holder: *holder },
        _ => Share::Other,
    }
}

/// A number and some more. It is out of memory where the sum would pass 2 to the 64.
pub fn sum(have: u64, more: u64) -> Result<u64, NoMemory>
    ensures { IfOk result (λ both. both ≡ have + more) }
{
    match have.checked_add(more) {
        Some(both) => Ok(both),
        None => Err(NoMemory::beyond(have, more, u64::MAX)),
    }
}

/// What a value counts with an amount.
pub fn weight(share: Share, amount: u64) -> Result<u64, NoMemory>
    ensures { IfOk result (λ n. n ≡ share_weight share amount) }
{
    match share {
        Share::List { donor: true, .. } => sum(amount, 1),
        Share::List { .. } => Ok(amount),
        _ => Ok(0),
    }
}
