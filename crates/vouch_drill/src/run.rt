ghost use Rattle.std.specs.Prelude.{◌≡◌, ◌≤◌, ◌⊎◌, ◌↔◌, ℕ, IfOk, map, string_bytes};
ghost use Rattle.vch_base.specs.Stream.{Extends, Rose, WritesPrefix};
ghost use Rattle.vouch_drill.specs.Words.{most_rounds, AsksMade, IsNoForm};
ghost use Rattle.vouch_drill.specs.Summaries.{made_text};

use crate::made::count_rounds;
use crate::text::counts_text;
use crate::words::made_rounds;
use std::alloc::Global;
use std::thread::Threads;
use vch_base::{Gate, NoMemory, Sink, write_all};

/// The text of so many rounds, made whole.
#[tactic(auto, unfolding(crate::specs::Summaries::made_text))]
fn made_report<R: Threads + Sync, G: Gate + Sync>(
    rt: &R,
    alloc: Global,
    rounds: u32,
    gate: &G,
) -> Result<Vec<u8>, NoMemory>
    requires { rounds ≤ most_rounds }
    ensures { IfOk result (λ text. text.items ≡ made_text rounds) }
{
    let counts = count_rounds(rt, alloc, rounds, gate)?;
    counts_text(alloc, rounds, counts)
}

/// Tasks of their own that keep counts together, and what their calls returned.
///
/// With the words `made N`, N from 1 to 1,000, a row of eight slots is opened with `2 * N` makes. Two seats of equal room run at
/// the same time; each makes a count of the slots 0 to 7, over and over, N in all, and passes the gate after each make with its
/// number, 1 or 2, and `Kind::Make`. Then they are joined, and every slot with a count is released. The lines written count the
/// answers: `made N`, `makes X`, `dead D`, `released S`, `raced R`, `end`.
///
/// | status | when |
/// |---|---|
/// | 0 | done: the whole text was written |
/// | 1 | the words are none of the forms |
/// | 4 | the sink failed; a prefix of the text was written |
/// | 5 | out of memory; nothing was written |
pub fn drill<R: Threads + Sync, K: Sink, G: Gate + Sync>(
    rt: &R,
    alloc: Global,
    words: &[String],
    sink: &mut K,
    gate: &G,
) -> u8
    // Of the makes none finds its slot released, and of the releases none races.
    ensures made { (n : ℕ) → AsksMade (map string_bytes words.now) n → result ≡ 0 → Extends (K.written sink.old) (K.written sink.new) (made_text n) }

    ensures words { (result ≡ 1) ↔ IsNoForm (map string_bytes words.now) }
    ensures write_fault { result ≡ 4 → Rose (K.faults sink.old) (K.faults sink.new) }
    ensures part { (n : ℕ) → AsksMade (map string_bytes words.now) n → result ≡ 4 → WritesPrefix (K.written sink.old) (K.written sink.new) (made_text n) }
    ensures silent { (result ≡ 1) ⊎ (result ≡ 5) → sink.new ≡ sink.old }

    // Words of a form and no fault are answered, unless memory runs out.
    ensures complete { (n : ℕ) → AsksMade (map string_bytes words.now) n → (Rose (K.faults sink.old) (K.faults sink.new) → ⊥) → (result ≡ 0) ⊎ (result ≡ 5) }
    ensures statuses { (result ≡ 0) ⊎ (result ≡ 1) ⊎ (result ≡ 4) ⊎ (result ≡ 5) }
{
    let Some(rounds) = made_rounds(words) else {
        return 1;
    };
    match made_report(rt, alloc, rounds, gate) {
        Ok(text) => match write_all(sink, text.as_slice()) {
            Ok(()) => 0,
            Err(_) => 4,
        },
        Err(_) => 5,
    }
}
