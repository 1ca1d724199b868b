ghost use Rattle.std.specs.Prelude.{◌≡◌, ◌≤◌, length, take};
ghost use Rattle.vch_parts.specs.Pictures.{receipts_of};
ghost use Rattle.vch_making.specs.Answers.{receipts_in};

use vch_base::Key;
use vch_parts::{Frame, Frames};

/// How many receipts of a key a frame has.
fn receipts(frame: &Option<Frame>, key: Key) -> usize
    ensures { result ≡ length (receipts_of key frame.now) }
{
    let Some(frame) = frame else {
        return 0;
    };
    match &frame.receipt {
        Some(taken) if taken.key.number() == key.number() => 1,
        _ => 0,
    }
}

/// How many receipts of a key the frames of the first tasks have. The time is linear in their number.
pub fn flying(frames: &Frames, tasks: usize, key: Key) -> usize
    requires few { tasks ≤ 64 }
    requires there { tasks ≤ length frames.now }
    ensures { result ≡ length (receipts_in key (take tasks frames.now)) }
{
    let mut count = 0;
    for i in 0..tasks {
        count += receipts(&frames.at(i as u32 + 1).frame, key);
    }
    count
}
