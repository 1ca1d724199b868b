ghost use Rattle.std.specs.Prelude.{◌≡◌, ◌⊎◌, ◌≤◌, ◌<◌, IsTrue, drop, length};
ghost use Rattle.vch_model.specs.Eval as eval;
ghost use Rattle.vch_model.specs.Legal as legal;
ghost use Rattle.vch_model.specs.Legal.{asks};
ghost use Rattle.vch_model.specs.Lines.{is_task};
ghost use Rattle.vch_recipe.specs.Recipes.{first_of};
ghost use Rattle.vch_machine.specs.Next.{nth_call};
ghost use Rattle.vch_vouchers.specs.Desks.{desk};
ghost use Rattle.vch_parts.specs.Nexts as nexts;
ghost use Rattle.vch_parts.specs.Nexts.{known_name};
ghost use Rattle.vch_parts.specs.Reached.{IsNext, Reached};

use crate::{Frame, Parts, Working};
use vch_base::commands::{
    AUTO_REDEEM, COPY, NOOP, REDEEM, REMOVE, SEND_PREPROCESS, SET_VALUE_HANDLE,
};
use vch_base::{ALL_KEYS, Key, Kind};
use vch_model::Call;
use vch_recipe::{Step, next_recipe};
use vch_vouchers::Vouchers;

/// Whether a command is one that no record may give.
fn is_core_command(command: u32) -> bool
    ensures { result ≡ eval.is_core_command command }
{
    command == SET_VALUE_HANDLE || (command == AUTO_REDEEM || command == SEND_PREPROCESS)
}

/// Whether a command needs no manager.
fn is_plain_command(command: u32) -> bool
    ensures { result ≡ eval.is_plain_command command }
{
    command == NOOP || (command == COPY || command == REMOVE)
}

/// Whether a command is given to a manager.
fn is_managers(command: u32) -> bool
    ensures { result ≡ legal.is_managers command }
{
    !(is_core_command(command) || is_plain_command(command))
}

/// Whether a whole record asks a manager. One that names a previous voucher which is not there asks none.
fn asks_manager(
    version: u32,
    vouchers: &Vouchers,
    task: u32,
    key: u32,
    command: u32,
    previous: u32,
    content: &[u8],
) -> bool
    requires version { (version ≡ 1) ⊎ (version ≡ 2) }
    requires task { (1 ≤ task) × (task ≤ length vouchers.now) }
    ensures { result ≡ asks version (known_name (desk vouchers.now task).names) (record { key = key; command = command; previous = previous; content = content.now }) }
{
    if previous != 0 && vouchers.voucher(task, previous).is_none() {
        return false;
    }
    let redeems_all = command == REDEEM && (key == ALL_KEYS && content.is_empty());
    is_managers(command) && Key::of(key, version).is_some() || redeems_all
}

/// The event of a create at its next record, or at the end of its bytes.
fn record_kind(version: u32, vouchers: &Vouchers, task: u32, bytes: &[u8], at: usize) -> Kind
    requires version { (version ≡ 1) ⊎ (version ≡ 2) }
    requires task { (1 ≤ task) × (task ≤ length vouchers.now) }
    ensures { result ≡ nexts.record_kind version (desk vouchers.now task).names (first_of (drop at bytes.now)) }
{
    if bytes.len() <= at {
        return Kind::Place;
    }
    match next_recipe(bytes, at) {
        Step::One {
            key,
            command,
            previous,
            content,
            ..
        } => {
            if asks_manager(version, vouchers, task, key, command, previous, content) {
                Kind::Make
            } else {
                Kind::Work
            }
        }
        Step::End => Kind::Place,
        Step::HeaderCut { .. } | Step::ContentCut { .. } => Kind::Work,
    }
}

impl Parts {
    /// The event of a call, where its frame has nothing to do for a value.
    fn open_kind(&self, task: u32, begun: u32, frame: &Frame) -> Option<Kind>
        requires task { (1 ≤ task) × (task ≤ length self.now.vouchers) }
        ensures { result ≡ nexts.open_kind self.now.scenario.version (desk self.now.vouchers task).names (nth_call self.now.scenario task begun) frame.now }
    {
        if frame.answered {
            return None;
        }
        match self.scenario.call(task, begun)? {
            Call::Create { bytes } => {
                let version = self.scenario.version();
                let kind = record_kind(version, &self.vouchers, task, bytes.as_slice(), frame.at);
                Some(kind)
            }
            Call::Exit => Some(Kind::Work),
            _ if frame.keys.is_empty() => Some(Kind::Place),
            _ => Some(Kind::Make),
        }
    }

    /// The next event of a task that has a frame, or that has none.
    fn task_kind(&self, task: u32, working: &Working) -> Option<Kind>
        requires task { (1 ≤ task) × (task ≤ length self.now.vouchers) }
        ensures { result ≡ nexts.task_kind self.now.scenario (desk self.now.vouchers task).names task self.now.phase working.now.begun working.now.frame }
    {
        let Some(frame) = &working.frame else {
            return if self.scenario.has_call(task, working.begun, self.phase) {
                Some(Kind::Begin)
            } else {
                None
            };
        };
        match frame.value_kind() {
            Some(kind) => Some(kind),
            None => self.open_kind(task, working.begun, frame),
        }
    }

    /// The kind of the task's next event, or nothing where it has none in this phase. Constant time but for the look at a
    /// name, which is that of `Vouchers::voucher`.
    pub fn next_kind(&self, task: u32) -> Option<Kind>
        requires reached { Reached self.now }
        requires task { IsTrue (is_task self.now.scenario task) }
        ensures { IsNext self.now task result }
    {
        let working = self.frames.at(task);
        self.task_kind(task, working)
    }
}
