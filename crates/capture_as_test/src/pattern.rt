//! The pattern that a frame meets.
ghost use Rattle.std.specs.Prelude.{◌≡◌, ◌≤◌, length};
ghost use Rattle.capture_as_test.specs.Pattern.{before_quote, pattern_as, pattern_of, stars};
ghost use Rattle.capture_frames.specs.Frames.{frame_as};

use capture_frames::CapturedFrame;
use text_core::{before, len_before};

/// The most `*` of a pattern.
const MOST_STARS: usize = 4;

/// A pattern in its parts: the text of a frame, a space and the verdict.
#[derive(Clone, Copy)]
pub(crate) struct Pattern<'a> {
    pub(crate) text: &'a [u8],
    pub(crate) gap: &'static str,
    pub(crate) verdict: &'a [u8],
}

fn stars(text: &[u8]) -> usize
    ensures value { result ≡ stars text.now }
    ensures within { result ≤ length text.now }
{
    match text {
        [] => 0,
        [b'*', rest @ ..] => 1 + stars(rest),
        [_, rest @ ..] => stars(rest),
    }
}

// What stands before the space and the quote with which a text in quotes begins.
fn before_quote(text: &[u8]) -> &[u8]
    ensures { result.now ≡ before_quote text.now }
{
    before(text, len_before(text, b'"').saturating_sub(1))
}

/// The pattern of a frame: its text and its verdict. Of a text with more `*` than a pattern has it is what stands before the quotes.
pub(crate) fn pattern_of(frame: &CapturedFrame) -> Pattern<'_>
    ensures { pattern_as result ≡ pattern_of (frame_as frame.now) }
{
    if stars(&frame.text) <= MOST_STARS {
        Pattern {
            text: &frame.text,
            gap: " ",
            verdict: frame.verdict,
        }
    } else {
        Pattern {
            text: before_quote(&frame.text),
            gap: "",
            verdict: b"",
        }
    }
}
