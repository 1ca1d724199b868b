ghost use Rattle.std.specs.Prelude.{◌≡◌, ◌⊎◌, ◌≤◌, None, Some, IfSome, IfNone, IsTrue, drop, length};
ghost use Rattle.vch_base.specs.Keys.{key_of};
ghost use Rattle.vch_model.specs.Lines.{is_task};
ghost use Rattle.vch_machine.specs.Making as making;
ghost use Rattle.vch_machine.specs.Next.{nth_call};
ghost use Rattle.vch_recipe.specs.Recipes.{first_of};
ghost use Rattle.vch_frame.specs.Indices.{index_of};
ghost use Rattle.vch_vouchers.specs.Desks.{desk};
ghost use Rattle.vch_parts.specs.Framed.{frame_of, begun_of};
ghost use Rattle.vch_parts.specs.Reached.{Reached};
ghost use Rattle.vch_making.specs.Asked as asked;

use vch_base::commands::{AUTO_REDEEM, SEND_PREPROCESS};
use vch_base::{ALL_KEYS, Key};
use vch_model::Call;
use vch_parts::{Frame, Keys, Parts};
use vch_recipe::{Step, next_recipe};
use vch_script::Script;
use vch_table::Indices;
use vch_vouchers::Vouchers;

/// What a call asks of a manager, beside the content: its key, the command, and the index of the value that it begins with, if
/// there is one.
#[derive(Clone, Copy, Debug)]
pub struct Question {
    pub key: Key,
    pub command: u32,
    pub previous: Option<u32>,
}

/// The index of the value that a record begins with, if there is one: that of the named previous voucher, or of the one that is
/// formed where the record names none.
fn previous_index(
    vouchers: &Vouchers,
    task: u32,
    forming: &Indices,
    name: u32,
    key: Key,
) -> Option<u32>
    requires { (1 ≤ task) × (task ≤ length vouchers.now) }
    ensures { result ≡ index_of key (asked.previous_of (desk vouchers.now task).names forming.now name) }
{
    if name != 0 {
        if let Some(from) = vouchers.voucher(task, name) {
            return from.get(key.number());
        }
    }
    forming.get(key.number())
}

/// The key that a record asks, or none where its key has no manager.
fn asked_key(version: u32, keys: &Keys, key: u32) -> Option<Key>
    requires { (version ≡ 1) ⊎ (version ≡ 2) }
    ensures { result ≡ asked.asked_key version keys.now key }
{
    if key == ALL_KEYS {
        keys.next_of_all(version)
    } else {
        Key::of(key, version)
    }
}

/// What the record at a place of the bytes of a create asks.
fn record_question(
    version: u32,
    vouchers: &Vouchers,
    task: u32,
    keys: &Keys,
    forming: &Indices,
    bytes: &[u8],
    at: usize,
) -> Option<Question>
    requires version { (version ≡ 1) ⊎ (version ≡ 2) }
    requires task { (1 ≤ task) × (task ≤ length vouchers.now) }
    ensures { result ≡ asked.question_first version (desk vouchers.now task).names keys.now forming.now (first_of (drop at bytes.now)) }
{
    if bytes.len() <= at {
        return None;
    }
    match next_recipe(bytes, at) {
        Step::One {
            key,
            command,
            previous,
            ..
        } => match asked_key(version, keys, key) {
            Some(key) => Some(Question {
                key,
                command,
                previous: previous_index(vouchers, task, forming, previous, key),
            }),
            None => None,
        },
        Step::End | Step::HeaderCut { .. } | Step::ContentCut { .. } => None,
    }
}

/// What a send or a recv asks at the next of its keys.
fn next_question(keys: &Keys, command: u32, forming: &Indices) -> Option<Question>
    ensures { result ≡ asked.question_next command forming.now (making.head_key keys.now) }
{
    match keys.first() {
        Some(key) => Some(Question {
            key,
            command,
            previous: forming.get(key.number()),
        }),
        None => None,
    }
}

/// What a call asks, with the voucher that it forms.
pub fn call_question(
    parts: &Parts,
    task: u32,
    call: &Call,
    frame: &Frame,
    forming: &Indices,
) -> Option<Question>
    requires task { (1 ≤ task) × (task ≤ length parts.now.vouchers) }
    ensures { result ≡ asked.question_by parts.now.scenario.version (desk parts.now.vouchers task).names frame.now.at frame.now.keys forming.now (Some call.now) }
{
    match call {
        Call::Create { bytes } => record_question(
            parts.scenario.version(),
            &parts.vouchers,
            task,
            &frame.keys,
            forming,
            bytes.as_slice(),
            frame.at,
        ),
        Call::Send { .. } => next_question(&frame.keys, SEND_PREPROCESS, forming),
        Call::Recv => next_question(&frame.keys, AUTO_REDEEM, forming),
        _ => None,
    }
}

/// The content that a call gives a manager: that of the record at a place of a create, and none of any other call. It is lent from
/// the script.
pub fn content_at(script: &Script, task: u32, number: u32, at: usize) -> &[u8]
    ensures { result.now ≡ asked.content_by at (nth_call script.now task number) }
{
    let Some(Call::Create { bytes }) = script.call(task, number) else {
        return &[];
    };
    if bytes.as_slice().len() <= at {
        return &[];
    }
    match next_recipe(bytes.as_slice(), at) {
        Step::One { content, .. } => content,
        _ => &[],
    }
}
