ghost use Rattle.std.specs.Prelude.{◌≡◌, ◌<◌, ◌≤◌, ◌^◌, ◌⊎◌, ℕ, List, Option, Some, None, IfSome, IfNone};
ghost use Rattle.std.specs.Fmt.{decimal};
ghost use Rattle.vch_model.specs.Grammar.{top};
ghost use Rattle.vch_text.specs.Reading.{Finds};
ghost use Rattle.vch_text.specs.Numbers as numbers;

use crate::words::{end, word};

/// A number that `number` reads is at most this one, which stands for every number above
/// 4294967295.
pub const TOP: u64 = 4294967296;

/// The number that digits spell, or the top where it is above.
fn digits(word: &[u8]) -> Option<u64>
    ensures told { Finds (λ n. n) result (numbers.number_after top 0 word.now) }
    ensures small { IfSome result (λ n. n ≤ 4294967296) }
{
    let mut n = 0;
    for byte in word {
        if !byte.is_ascii_digit() {
            return None;
        }
        n = (n * 10 + u64::from(*byte - b'0')).min(TOP);
    }
    Some(n)
}

/// The number that a word spells, or the top where it is above.
#[tactic(auto, unfolding(crate::specs::Numbers::number_of))]
fn bounded(word: &[u8]) -> Option<u64>
    ensures told { Finds (λ n. n) result (numbers.number_of top word.now) }
    ensures small { IfSome result (λ n. n ≤ 4294967296) }
{
    match word {
        [] => None,
        [b'0', _, ..] => None,
        _ => digits(word),
    }
}

/// The number that a word spells, of any size: one above 4294967295 is read as `TOP`. There is none
/// exactly where the word is no numeral: `0`, or digits that do not begin with `0`.
pub fn number(word: &[u8]) -> Option<u64>
    ensures { Finds (λ n. n) result (numbers.number_of top word.now) }
{
    bounded(word)
}

/// The number that the next word of a line spells, by `number`, and what is left behind it.
#[tactic(auto, unfolding(crate::specs::Numbers::number_at))]
pub fn number_in(rest: &[u8]) -> Option<(u64, &[u8])>
    ensures { Finds (λ x. (x.0, x.1.now)) result (numbers.number_at top rest.now) }
{
    let (token, rest) = word(rest)?;
    let n = number(token)?;
    Some((n, rest))
}

/// The number that the one word left of a line spells, by `number`.
#[tactic(auto, unfolding(crate::specs::Numbers::one_of))]
pub fn one_number(rest: &[u8]) -> Option<u64>
    ensures { Finds (λ x. x) result (numbers.one_of top rest.now) }
{
    let (a, rest) = number_in(rest)?;
    end(rest)?;
    Some(a)
}

/// The numbers that the two words left of a line spell, by `number`.
#[tactic(auto, unfolding(crate::specs::Numbers::two_of))]
pub fn two_numbers(rest: &[u8]) -> Option<(u64, u64)>
    ensures { Finds (λ x. (x.0, x.1)) result (numbers.two_of top rest.now) }
{
    let (a, rest) = number_in(rest)?;
    let (b, rest) = number_in(rest)?;
    end(rest)?;
    Some((a, b))
}

/// The number that digits spell, where it has at most 128 bits.
fn wide_digits(word: &[u8]) -> Option<u128>
    ensures { numbers.IsExact (2 ^ 128) (numbers.number_after (2 ^ 128) 0 word.now) result }
{
    let mut n: u128 = 0;
    for byte in word {
        if !byte.is_ascii_digit() {
            return None;
        }
        n = n.checked_mul(10)?.checked_add(u128::from(*byte - b'0'))?;
    }
    Some(n)
}

/// The number that a word spells, where it has at most 128 bits.
#[tactic(auto, unfolding(crate::specs::Numbers::number_of))]
fn wide_number(word: &[u8]) -> Option<u128>
    ensures { numbers.IsExact (2 ^ 128) (numbers.number_of (2 ^ 128) word.now) result }
{
    match word {
        [] | [b'0', _, ..] => None,
        _ => wide_digits(word),
    }
}

/// The number below 2 to the 128 that a word spells. There is none exactly where the word is no
/// numeral (`0`, or digits that do not begin with `0`) or its number is larger.
pub fn parse_u128(word: &[u8]) -> Option<u128>
    ensures found { IfSome result (λ n. word.now ≡ decimal n) }
    ensures only { (n : ℕ) → n < 2 ^ 128 → word.now ≡ decimal n → result ≡ Some n }
{
    wide_number(word)
}

/// The number below 2 to the 64 that a word spells, as `parse_u128` for 64 bits.
pub fn parse_u64(word: &[u8]) -> Option<u64>
    ensures found { IfSome result (λ n. word.now ≡ decimal n) }
    ensures only { (n : ℕ) → n < 2 ^ 64 → word.now ≡ decimal n → result ≡ Some n }
{
    let n = parse_u128(word)?;
    if n <= u64::MAX as u128 {
        Some(n as u64)
    } else {
        None
    }
}

/// The number that a word spells, where it has at most 32 bits.
fn short_number(word: &[u8]) -> Option<u32>
    ensures { numbers.IsExact 4294967296 (numbers.number_of top word.now) result }
{
    let n = bounded(word)?;
    if n < TOP { Some(n as u32) } else { None }
}

/// The number below 2 to the 32 that a word spells, as `parse_u128` for 32 bits.
pub fn parse_u32(word: &[u8]) -> Option<u32>
    ensures found { IfSome result (λ n. word.now ≡ decimal n) }
    ensures only { (n : ℕ) → n < 2 ^ 32 → word.now ≡ decimal n → result ≡ Some n }
{
    short_number(word)
}
