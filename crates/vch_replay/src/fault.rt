//! The lines that tell why input is refused.
ghost use Rattle.std.specs.Prelude.{◌≡◌, IfOk};
ghost use Rattle.vch_replay.specs.Lines as lines;

use std::alloc::Global;
use vch_base::NoMemory;
use vch_scenario::Why;
use vch_text::{push_spaced, push_text};

fn why_text(why: Why) -> &'static [u8]
    ensures { result.now ≡ lines.why_text why }
{
    match why {
        Why::Form => b"form",
        Why::Range => b"range",
        Why::Limit => b"limit",
        Why::Ending => b"ending",
    }
}

/// The line of the first fault of a scenario's text.
pub fn scenario_line(alloc: Global, line: u32, why: Why) -> Result<Vec<u8>, NoMemory>
    ensures { IfOk result (λ text. text.items ≡ lines.scenario_fault line why) }
{
    let mut out = Vec::new(alloc);
    push_text(&mut out, b"fault line")?;
    push_spaced(&mut out, line)?;
    push_text(&mut out, b" why ")?;
    push_text(&mut out, why_text(why))?;
    push_text(&mut out, b"\n")?;
    Ok(out)
}
