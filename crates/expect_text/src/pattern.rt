//! Patterns of what a line says.
ghost use Rattle.std.specs.Prelude.{◌≡◌, []};
ghost use Rattle.expect_text.specs.Fits.{fits};

/// Whether a text begins as the pattern says, up to the end of a word. A `*` stands for any bytes of one word, also none.
pub fn fits(pattern: &[u8], text: &[u8]) -> bool
    ensures { result ≡ fits pattern.now text.now }
{
    match pattern {
        [] => match text {
            [] => true,
            [byte, ..] => *byte == b' ',
        },
        [b'*', rest @ ..] => {
            fits(rest, text)
                || match text {
                    [] => false,
                    [byte, more @ ..] => *byte != b' ' && fits(pattern, more),
                }
        }
        [due, rest @ ..] => match text {
            [] => false,
            [byte, more @ ..] => *byte == *due && fits(rest, more),
        },
    }
}
