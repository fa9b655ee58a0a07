//! Lines of a text.
ghost use Rattle.std.specs.Prelude.{◌≡◌, ◌+◌, ◌<◌, [], ◌∷◌, length, MatchOption, IfSome, ◌==◌};
ghost use Rattle.text_core.specs.Lines.{is_skipped, lines_of};

use crate::parts::position_of;

/// The first line, and the text after it. An empty text has no line.
pub fn first_line(text: &[u8]) -> Option<(&[u8], &[u8])>
    ensures lines { MatchOption result (lines_of text.now ≡ [])
        (λ p. lines_of text.now ≡ p.0.now ∷ lines_of p.1.now) }
    ensures shorter { IfSome result (λ p. length p.1.now < length text.now) }
{
    if text.is_empty() {
        return None;
    }
    match position_of(text, b'\n') {
        None => Some((text, &[])),
        Some(end) => Some((&text[..end], &text[end + 1..])),
    }
}

/// Whether a line is empty or a comment.
pub fn is_skipped(line: &[u8]) -> bool
    ensures { result ≡ is_skipped line.now }
{
    line.is_empty() || line[0] == b'#'
}
