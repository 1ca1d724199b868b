ghost use Rattle.std.specs.Prelude.{◌≡◌, ℕ, List, Option};
ghost use Rattle.vch_text.specs.Reading.{Finds};
ghost use Rattle.vch_text.specs.Words as words;

use memchr::memchr;

/// Whether the word is this text, byte for byte.
#[tactic(auto, unfolding(crate::specs::Words::is_word))]
pub fn is_word(word: &[u8], text: &[u8]) -> bool
    ensures { result ≡ words.is_word word.now text.now }
{
    word == text
}

/// What stands before the first separator, and the bytes from it on; all and nothing where there is
/// no separator.
///
/// It looks at each byte up to the separator once.
pub fn front(separator: u8, bytes: &[u8]) -> (&[u8], &[u8])
    ensures { words.front_of separator bytes.now ≡ (result.0.now, result.1.now) }
{
    match memchr(separator, bytes) {
        Some(at) => bytes.split_at(at),
        None => bytes.split_at(bytes.len()),
    }
}

/// The next word of a line, and what is left behind it. There is none exactly where what is left
/// does not begin with a space. The word may be empty.
#[tactic(auto, unfolding(crate::specs::Words::word_at))]
pub fn word(rest: &[u8]) -> Option<(&[u8], &[u8])>
    ensures { Finds (λ x. (x.0.now, x.1.now)) result (words.word_at rest.now) }
{
    match rest {
        [b' ', rest @ ..] => Some(front(b' ', rest)),
        _ => None,
    }
}

/// Something exactly where nothing is left of the line.
#[tactic(auto, unfolding(crate::specs::Words::end_of))]
pub fn end(rest: &[u8]) -> Option<()>
    ensures { Finds (λ x. x) result (words.end_of rest.now) }
{
    if rest.is_empty() { Some(()) } else { None }
}
