ghost use Rattle.std.specs.Prelude.{◌≡◌, ◌<◌, ◌≤◌, List, ℕ, length, take, OnOk, OnErr};
ghost use Rattle.vch_base.specs.Stream.{Extends, Rose, WritesPrefix};

use crate::fault::Failed;
use crate::stream::Sink;

/// Writes a whole text, by as many writes as the sink asks for. A write that takes nothing fails, as one that is refused does.
pub fn write_all<K: Sink>(sink: &mut K, text: &[u8]) -> Result<(), Failed>
    ensures later { K.faults sink.old ≤ K.faults sink.new }
    ensures whole { OnOk result (Extends (K.written sink.old) (K.written sink.new) text.now) }
    ensures failed { OnErr result (Rose (K.faults sink.old) (K.faults sink.new)) }
    ensures prefix { OnErr result (WritesPrefix (K.written sink.old) (K.written sink.new) text.now) }
{
    let mut at = 0;
    while at < text.len() {
        let count = sink.write(&text[at..])?;
        if count == 0 {
            return Err(Failed);
        }
        at += count;
    }
    Ok(())
}
