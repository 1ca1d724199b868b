ghost use Rattle.std.specs.Prelude.{◌≡◌, ◌^◌, ℕ, List, Option};
ghost use Rattle.std.specs.List.{list_all};
ghost use Rattle.vch_text.specs.Reading.{Finds};
ghost use Rattle.vch_report.specs.Numerals as numerals;
ghost use Rattle.vch_report.specs.Reading.{Gives};

use crate::fault::Stop;
use std::alloc::Global;
use vch_base::Bytes;
use vch_text::{HexFault, end, hex_bytes, is_word, parse_u32, parse_u64, parse_u128, word};

/// The number below 2 to the 32 that a word spells.
fn small(word: &[u8]) -> Option<u32>
    ensures { Finds (λ n. n) result (numerals.below (2 ^ 32) word.now) }
{
    let n = parse_u32(word)?;
    Some(n)
}

/// The number below 2 to the 64 that a word spells.
fn count(word: &[u8]) -> Option<u64>
    ensures { Finds (λ n. n) result (numerals.below (2 ^ 64) word.now) }
{
    let n = parse_u64(word)?;
    Some(n)
}

/// The number below 2 to the 128 that a word spells.
fn amount(word: &[u8]) -> Option<u128>
    ensures { Finds (λ n. n) result (numerals.below (2 ^ 128) word.now) }
{
    let n = parse_u128(word)?;
    Some(n)
}

/// The task, or what is numbered from 1, that a word spells.
#[tactic(auto, unfolding(crate::specs::Numerals::ordinal))]
pub fn ordinal(word: &[u8]) -> Option<u32>
    ensures { Finds (λ n. n) result (numerals.ordinal word.now) }
{
    let n = small(word)?;
    if n > 0 { Some(n) } else { None }
}

/// The number below 2 to the 32 that the next word spells, and what is left behind it.
#[tactic(auto, unfolding(crate::specs::Numerals::below_at))]
pub fn small_in(rest: &[u8]) -> Option<(u32, &[u8])>
    ensures { Finds (λ x. (x.0, x.1.now)) result (numerals.below_at (2 ^ 32) rest.now) }
{
    let (token, rest) = word(rest)?;
    let n = small(token)?;
    Some((n, rest))
}

/// The number below 2 to the 64 that the next word spells, and what is left behind it.
#[tactic(auto, unfolding(crate::specs::Numerals::below_at))]
pub fn count_in(rest: &[u8]) -> Option<(u64, &[u8])>
    ensures { Finds (λ x. (x.0, x.1.now)) result (numerals.below_at (2 ^ 64) rest.now) }
{
    let (token, rest) = word(rest)?;
    let n = count(token)?;
    Some((n, rest))
}

/// The number below 2 to the 128 that the next word spells, and what is left behind it.
#[tactic(auto, unfolding(crate::specs::Numerals::below_at))]
pub fn amount_in(rest: &[u8]) -> Option<(u128, &[u8])>
    ensures { Finds (λ x. (x.0, x.1.now)) result (numerals.below_at (2 ^ 128) rest.now) }
{
    let (token, rest) = word(rest)?;
    let n = amount(token)?;
    Some((n, rest))
}

/// The task, or what is numbered from 1, that the next word spells, and what is left behind it.
#[tactic(auto, unfolding(crate::specs::Numerals::ordinal_at))]
pub fn ordinal_in(rest: &[u8]) -> Option<(u32, &[u8])>
    ensures { Finds (λ x. (x.0, x.1.now)) result (numerals.ordinal_at rest.now) }
{
    let (token, rest) = word(rest)?;
    let n = ordinal(token)?;
    Some((n, rest))
}

/// What is left behind the next word, where that is this text.
#[tactic(auto, unfolding(crate::specs::Numerals::after))]
pub fn after<'a>(text: &[u8], rest: &'a [u8]) -> Option<&'a [u8]>
    ensures { Finds (λ x. x.now) result (numerals.after text.now rest.now) }
{
    let (token, rest) = word(rest)?;
    if is_word(token, text) {
        Some(rest)
    } else {
        None
    }
}

/// Whether no letter is a capital. It looks at every byte, so that several can be looked at in one step.
fn is_lower(word: &[u8]) -> bool
    ensures { result ≡ numerals.is_lower word.now }
{
    let mut lower = true;
    for byte in word {
        lower &= !byte.is_ascii_uppercase();
    }
    lower
}

/// The bytes that the one word left spells in lower-case hexadecimal digits.
#[tactic(auto, unfolding(crate::specs::Numerals::bytes_at))]
pub fn bytes_in(alloc: Global, rest: &[u8]) -> Result<Bytes, Stop>
    ensures { Gives (λ x. x) result (numerals.bytes_at rest.now) }
{
    let Some((digits, rest)) = word(rest) else {
        return Err(Stop::Fault);
    };
    let Some(()) = end(rest) else {
        return Err(Stop::Fault);
    };
    match hex_bytes(alloc, digits) {
        Ok(bytes) => {
            if is_lower(digits) {
                Ok(bytes)
            } else {
                Err(Stop::Fault)
            }
        }
        Err(HexFault::Malformed) => Err(Stop::Fault),
        Err(HexFault::NoMemory { cause }) => Err(Stop::from(cause)),
    }
}
