//! The top call over ends in memory that never fail.
ghost use Rattle.std.specs.Prelude.{◌≡◌, ◌≢◌, ◌⊎◌, ◌↔◌, ◌<◌, ◌≤◌, ◌+◌, length, map, None, Some, string_bytes};
ghost use Rattle.vch_base.specs.Memory.{told};
ghost use Rattle.vch_replay.specs.Commands.{WordsRead, command_of};
ghost use Rattle.vch_replay.specs.Input.{limit};
ghost use Rattle.vch_replay.specs.Run.{IsGood, WritesAnswer, WritesRefusal, WritesSummary};

use crate::run::run_plain;
use std::alloc::Global;
use vch_base::{SteadySink, SteadySource};

/// `run_plain` from bytes to bytes: no read and no write fails, so 3 and 4 never come, and input in the grammar is answered
/// unless memory runs out. Each other status says of the bytes what it says there.
pub fn run_steady(
    alloc: Global,
    words: &[String],
    source: &mut SteadySource,
    sink: &mut SteadySink,
) -> u8
    ensures answered { WordsRead (command_of (map string_bytes words.now)) → result ≡ 0 → WritesAnswer (command_of (map string_bytes words.now)) source.old (told sink.old) (told sink.new) }
    ensures loaded { result ≡ 0 → WritesSummary (command_of (map string_bytes words.now)) (told sink.old) (told sink.new) }
    ensures words { (result ≡ 1) ↔ (command_of (map string_bytes words.now) ≡ None) }
    ensures refused { result ≡ 2 → WritesRefusal (command_of (map string_bytes words.now)) source.old (told sink.old) (told sink.new) }
    ensures no_read_fault { result ≢ 3 }
    ensures no_write_fault { result ≢ 4 }
    ensures long { result ≡ 6 → limit < length source.old }
    ensures enough { result ≢ 6 → length source.old ≤ length source.new + limit }
    ensures silent { (result ≡ 1) ⊎ (result ≡ 5) ⊎ (result ≡ 6) → sink.new ≡ sink.old }
    ensures statuses { result ≤ 6 }
    ensures complete { IsGood (command_of (map string_bytes words.now)) (Some source.old) → (result ≡ 0) ⊎ (result ≡ 5) }
{
    run_plain(alloc, words, source, sink)
}
