ghost use Rattle.std.specs.Prelude.{◌≡◌, ◌<◌, [], length, IfSome, IfNone};
ghost use Rattle.vch_model.specs.TextLines.{split_of, with_line_before};

use crate::words::front;

/// The next line of a text without its line feed, and the text behind it. There is none exactly
/// where the text has no line feed; what is left then is no whole line.
pub fn next_line(text: &[u8]) -> Option<(&[u8], &[u8])>
    ensures found { IfSome result (λ x. split_of text.now ≡ with_line_before x.0.now (split_of x.1.now)) }
    ensures shorter { IfSome result (λ x. length x.1.now < length text.now) }
    ensures none { IfNone result (split_of text.now ≡ ([], text.now)) }
{
    let (line, more) = front(b'\n', text);
    match more {
        [_, more @ ..] => Some((line, more)),
        [] => None,
    }
}
