ghost use Rattle.std.specs.Prelude.{◌≡◌, ◌+◌, IfOk};
ghost use Rattle.vch_recipe.specs.Recipes.{First};
ghost use Rattle.vch_machine.specs.Making as making;
ghost use Rattle.vch_plain.specs.Reading.{Reads};

use crate::reading::step_at;
use crate::task::Frame;
use std::alloc::Global;
use vch_base::{ALL_KEYS, Key, NoMemory};
use vch_model::Call;
use vch_recipe::Step;

/// The keys behind the first one of those that a record which redeems all keys has still to ask.
fn later_keys(alloc: Global, version: u32, keys: &[Key]) -> Result<Vec<Key>, NoMemory>
    ensures { IfOk result (λ made. made.items ≡ making.tail_keys (making.keys_left version keys.now)) }
{
    let mut left = Vec::new(alloc);
    if keys.is_empty() {
        left.push(Key::Bank)?;
        left.push(Key::User)?;
        if version == 2 {
            left.push(Key::Test)?;
        }
        return Ok(left);
    }
    left.extend_from_slice(&keys[1..])?;
    Ok(left)
}

/// A record's key is done: the next of all keys, or the next record.
fn move_record(alloc: Global, version: u32, step: &Step, frame: Frame) -> Result<Frame, NoMemory>
    ensures { (first : First) → Reads frame.at_byte first step.now → IfOk result (λ made. made ≡ making.moved_first version frame first) }
{
    let mut frame = frame;
    let Step::One { key, next, .. } = step else {
        return Ok(frame);
    };
    let left = later_keys(alloc, version, frame.keys.as_slice())?;
    if *key == ALL_KEYS && !left.is_empty() {
        frame.keys = left;
    } else {
        frame.keys.clear();
        frame.at_byte = *next;
    }
    Ok(frame)
}

/// The first key of a call is done.
fn drop_key(frame: Frame) -> Frame
    ensures { result ≡ record frame { keys = making.tail_keys frame.keys } }
{
    let mut frame = frame;
    if !frame.keys.is_empty() {
        frame.keys.remove(0);
    }
    frame
}

/// The call's key is done.
pub fn move_on(alloc: Global, version: u32, call: &Call, frame: Frame) -> Result<Frame, NoMemory>
    ensures { IfOk result (λ made. made ≡ making.moved version call.now frame) }
{
    match call {
        Call::Create { .. } => {
            let step = step_at(call, frame.at_byte);
            move_record(alloc, version, &step, frame)
        }
        _ => Ok(drop_key(frame)),
    }
}
