ghost use Rattle.std.specs.Prelude.{◌≡◌, ℕ, ◌∷◌, [], Some, IfSome, map, string_bytes};
ghost use Rattle.vouch_drill.specs.Words.{AsksMade};

use vch_text::parse_u32;

/// The most rounds that can be asked for.
const MOST_ROUNDS: u32 = 1000;

/// The rounds that two words ask for.
fn rounds_in(word: &str, number: &str) -> Option<u32>
    ensures found { IfSome result (λ n. AsksMade (word.now ∷ number.now ∷ []) n) }
    ensures only { (n : ℕ) → AsksMade (word.now ∷ number.now ∷ []) n → result ≡ Some n }
{
    if word != "made" {
        return None;
    }
    let rounds = parse_u32(number.as_bytes())?;
    if rounds == 0 || rounds > MOST_ROUNDS {
        return None;
    }
    Some(rounds)
}

/// The rounds that the words `made` and a number ask for. There are none exactly where the words are no form.
pub fn made_rounds(words: &[String]) -> Option<u32>
    ensures found { IfSome result (λ n. AsksMade (map string_bytes words.now) n) }
    ensures only { (n : ℕ) → AsksMade (map string_bytes words.now) n → result ≡ Some n }
{
    match words {
        [word, number] => rounds_in(word.as_str(), number.as_str()),
        _ => None,
    }
}
