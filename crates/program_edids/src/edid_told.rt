//! What a file that has an EDID holds.
ghost use Rattle.std.specs.Prelude.{◌≡◌, take};
ghost use Rattle.std.specs.List.{list_all};
ghost use Rattle.program_edids.specs.Told.{detected, is_text, is_text_byte, told};

use cli_choice::Source;

/// The keyword that begins the text of each EDID.
const KEYWORD: &[u8] = b"edid ";

/// So many first bytes say whether a file is text. An EDID has its header there, which is none (E-EDID 1.4, 3.3).
const FIRST: usize = 8;

// Whether a byte may stand in text: a tab, a line feed, a carriage return, or no control character, or one of a longer character.
fn is_text_byte(byte: u8) -> bool
    ensures { result ≡ is_text_byte byte }
{
    byte == b'\t'
        || byte == b'\n'
        || byte == b'\r'
        || (byte >= b' ' && byte != 0x7f && byte != 0xff)
}

fn are_text(bytes: &[u8]) -> bool
    ensures { result ≡ list_all is_text_byte bytes.now }
{
    bytes.iter().all(|byte| is_text_byte(*byte))
}

fn first_bytes(input: &[u8]) -> &[u8]
    ensures { result.now ≡ take 8 input.now }
{
    if FIRST < input.len() {
        &input[..FIRST]
    } else {
        input
    }
}

// Whether there are bytes, and the first are of text.
fn is_text(input: &[u8]) -> bool
    ensures { result ≡ is_text input.now }
{
    let first = first_bytes(input);
    !first.is_empty() && are_text(first)
}

// What a file holds by its first bytes: the text of an EDID, other text with a hex dump, or bytes.
fn detected(input: &[u8]) -> Source
    ensures { result ≡ detected input.now }
{
    if input.starts_with(KEYWORD) {
        Source::Words
    } else if is_text(input) {
        Source::Dump { nth: 1 }
    } else {
        Source::Bytes
    }
}

/// What an input holds: what a flag says, or else what its first bytes do.
pub fn told(source: Option<Source>, input: &[u8]) -> Source
    ensures { result ≡ told source input.now }
{
    match source {
        Some(source) => source,
        None => detected(input),
    }
}
