//! The text of an EDID out of one with what it means.
ghost use Rattle.std.specs.Prelude.{◌≡◌, IfOk};
ghost use Rattle.conversion_notes.specs.Meanings.{is_plain, plain_text};

use edid_texts::first_line;
use std::alloc::{AllocError, Global};
use text_core::byte_at;

// Whether a line is one of an EDID's text, and not what one means.
fn is_plain(line: &[u8]) -> bool
    ensures { result ≡ is_plain line.now }
{
    byte_at(line, 0) != b' '
}

/// The lines of a text that do not begin with a space: of a text with what it means the text of the EDID.
pub fn plain_text(alloc: Global, text: &[u8]) -> Result<Vec<u8>, AllocError>
    ensures { IfOk result (λ plain. plain.items ≡ plain_text text.now) }
{
    let mut plain = Vec::new(alloc);
    let mut rest = text;
    'lines: while let Some((line, after)) = first_line(rest) {
        if is_plain(line) {
            plain.extend_from_slice(line)?;
        }
        rest = after;
    }
    Ok(plain)
}
