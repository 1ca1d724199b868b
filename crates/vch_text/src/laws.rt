ghost use Rattle.std.specs.Prelude.{◌≡◌, ◌^◌, ◌<◌, ◌↔◌, ℕ, List};
ghost use Rattle.std.specs.Fmt.{decimal};
ghost use Rattle.vch_model.specs.Grammar.{IsNumeral};
ghost use Rattle.vch_model.specs.TextLines.{split_of};
ghost use Rattle.vch_text.specs.Words.{joined};

/// The lines of a text and what stands behind the last line feed are the whole text.
pub fn lines_rejoin()
    ensures { (text : List ℕ) → joined (split_of text) ≡ text }
{}

/// A number has one numeral, which is its decimal spelling.
pub fn numerals()
    ensures { (w : List ℕ) (n : ℕ) → n < 10 ^ 64 → IsNumeral w n ↔ (w ≡ decimal n) }
{}
