//! A scenario's text, and a report's text behind it.
ghost use Rattle.std.specs.Prelude.{◌≡◌, ◌≤◌, length};
ghost use Rattle.vch_replay.specs.TwoTexts.{report_part, scenario_part, scenario_size};

use vch_text::{is_word, next_line};

/// How many bytes there are up to and with the first line that is exactly `end`; all, where there is none.
fn scenario_size(input: &[u8]) -> usize
    ensures size { result ≡ scenario_size input.now }
    ensures inside { result ≤ length input.now }
{
    let mut rest = input;
    while let Some((line, more)) = next_line(rest) {
        rest = more;
        if is_word(line, b"end") {
            return input.len() - rest.len();
        }
    }
    input.len()
}

/// The text of the scenario, and what stands behind it.
pub fn two_texts(input: &[u8]) -> (&[u8], &[u8])
    ensures scenario { result.0.now ≡ scenario_part input.now }
    ensures report { result.1.now ≡ report_part input.now }
{
    input.split_at(scenario_size(input))
}
