ghost use Rattle.std.specs.Prelude.{◌≡◌, ◌↔◌, ◌≤◌, ◌<◌, length, map, IfSome, None, string_bytes};
ghost use Rattle.vch_replay.specs.Commands.{WordsRead, command_of};
ghost use Rattle.vch_replay.specs.Input.{limit};
ghost use Rattle.vch_replay.specs.Run.{WritesAnswer, WritesRefusal};

use crate::input::Input;
use crate::output::Output;
use std::alloc::Global;
use std::io::{Read, Write};
use vch_replay::run_plain;

/// All that the program does with its words, over any reader and any writer. The status is the top call's.
///
/// Where the reader tells its bytes, the clauses speak of them; nothing is told of what a writer took. A source over it counts a
/// read that failed as a fault, and a sink a write that failed or took nothing.
pub fn run_over<R: Read + Drop, W: Write + Drop>(
    alloc: Global,
    words: &[String],
    reader: R,
    writer: W,
) -> u8
    ensures words { (result ≡ 1) ↔ (command_of (map string_bytes words.now) ≡ None) }
    // The input is in its grammar, and there is a text that answers it.
    ensures answered { WordsRead (command_of (map string_bytes words.now)) → result ≡ 0 → IfSome (R.remaining reader) (λ input. WritesAnswer (command_of (map string_bytes words.now)) input None None) }
    // The input is refused, and there is a line that says why.
    ensures refused { result ≡ 2 → IfSome (R.remaining reader) (λ input. WritesRefusal (command_of (map string_bytes words.now)) input None None) }
    ensures long { result ≡ 6 → IfSome (R.remaining reader) (λ input. limit < length input) }
    ensures statuses { result ≤ 6 }
{
    let mut source = Input::new(reader);
    let mut sink = Output::new(writer);
    run_plain(alloc, words, &mut source, &mut sink)
}
