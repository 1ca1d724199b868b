ghost use Rattle.std.specs.Prelude.{◌≡◌, ◌++◌, OnOk, IfOk};
ghost use Rattle.vouch_drill.specs.Summaries.{line, counts_text};

use crate::counts::Counts;
use std::alloc::Global;
use vch_base::NoMemory;
use vch_text::{push_spaced, push_text};

/// Appends a line: a word and a number.
fn push_line(out: &mut Vec<u8>, word: &[u8], n: u64) -> Result<(), NoMemory>
    ensures { OnOk result (out.new.items ≡ out.old.items ++ line word.now n) }
{
    push_text(out, word)?;
    push_spaced(out, n)?;
    push_text(out, b"\n")
}

/// The text of a drill of made counts.
#[tactic(auto, unfolding(crate::specs::Summaries::counts_text))]
pub fn counts_text(alloc: Global, rounds: u32, counts: Counts) -> Result<Vec<u8>, NoMemory>
    ensures { IfOk result (λ text. text.items ≡ counts_text rounds counts) }
{
    let mut out = Vec::new(alloc);
    push_line(&mut out, b"made", u64::from(rounds))?;
    push_line(&mut out, b"makes", counts.makes)?;
    push_line(&mut out, b"dead", counts.dead)?;
    push_line(&mut out, b"released", counts.released)?;
    push_line(&mut out, b"raced", counts.raced)?;
    push_text(&mut out, b"end\n")?;
    Ok(out)
}
