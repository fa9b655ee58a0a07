//! The lines of an EDID's text: how many fields they have, and the room that they take in an extension.
use edid_text_lines::{LineContent, WORD_TEXTS, word_of};
use explain_lists::{Draft, word_at, word_count};
use explain_marks::{InputLine, is_line_end};
use text_core::spaces_unquoted;

/// The bytes of an extension for its data blocks and timings: 127, without the first four.
const ROOM: usize = 123;

/// The bytes of a detailed timing.
const TIMING: usize = 18;

/// The bytes of an HDMI block up to those in hex: its header, the identifier and the address.
const HDMI: usize = 6;

/// The most bytes after the header of a data block.
const PAYLOAD: usize = 31;

// The bytes of a word of hex digits; `-` has none.
fn bytes_of(word: Option<&str>) -> Option<usize> {
    let word = word?;
    if word == "-" {
        return Some(0);
    }
    let digits = word.len();
    if digits % 2 == 0 && word.bytes().all(|digit| digit.is_ascii_hexdigit()) {
        Some(digits / 2)
    } else {
        None
    }
}

/// Whether the word of this number is hex, two digits a byte or `-`, and the last of a line.
pub fn is_hex_alone(line: &str, number: usize) -> bool {
    bytes_of(word_at(line, number)).is_some() && word_count(line) == number.saturating_add(1)
}

// The bytes that a line stands for in an extension.
fn size_of(line: &str) -> Option<usize> {
    match word_at(line, 0)? {
        "timing" => Some(TIMING),
        "hdmi" => bytes_of(word_at(line, 2))?.checked_add(HDMI),
        "audio" | "video" | "vendor" | "speakers" | "extended" | "tag0" | "tag5" | "tag6" => {
            let payload = bytes_of(word_at(line, 1))?;
            if payload > PAYLOAD {
                return None;
            }
            payload.checked_add(1)
        }
        _ => None,
    }
}

// The bytes of an extension after a line that stands in it, or that begins another block.
fn after_line(taken: Option<usize>, line: &[u8]) -> Option<usize> {
    let line = str::from_utf8(line).ok()?;
    match word_at(line, 0) {
        Some("cta") => Some(0),
        Some("cta-none" | "ext" | "edid") => None,
        _ => taken?.checked_add(size_of(line).unwrap_or(0)),
    }
}

// The bytes that the lines above stand for in the extension of a line, where it is one with data blocks.
fn taken_above(place: InputLine<'_>) -> Option<usize> {
    let mut taken = None;
    let above = place.number.saturating_sub(1);
    for line in place.input.split(is_line_end).take(above) {
        taken = after_line(taken, line);
    }
    taken
}

// The bytes that a line itself stands for.
fn own_size(place: InputLine<'_>) -> Option<usize> {
    size_of(str::from_utf8(place.line).ok()?)
}

/// Whether a line's extension has no room for it, which is then said.
pub fn add_lack_of_room(draft: &mut Draft, place: InputLine<'_>) -> bool {
    let (Some(above), Some(own)) = (taken_above(place), own_size(place)) else {
        return false;
    };
    if above.saturating_add(own) <= ROOM {
        return false;
    }
    writeln!(
        draft,
        "  an extension has {ROOM} bytes for data blocks and timings: the lines above have {above}, and this one {own} more"
    );
    true
}

// How many fields a line of a form has, as it is said.
fn count_of(form: LineContent) -> (usize, &'static str) {
    match form {
        LineContent::Empty => (0, "no field"),
        LineContent::Three | LineContent::One | LineContent::Hex | LineContent::Quoted => (
            1,
            "one field",
        ),
        LineContent::Two | LineContent::Address => (2, "two fields"),
        LineContent::Eight => (8, "eight fields"),
        LineContent::Unused => (3, "three fields, or `unused`"),
        LineContent::Timing => (14, "14 fields"),
    }
}

// Whether blanks of a line part no words.
fn has_odd_blanks(line: &str) -> bool {
    line.starts_with(" ") || line.ends_with(" ") || line.contains("  ")
}

/// Whether a line has another count of fields than its word asks for, which is then said.
pub fn add_field_count(draft: &mut Draft, line: &str) -> bool {
    let Some(word) = word_at(line, 0) else {
        return false;
    };
    let Some(keyword) = word_of(word.as_bytes()) else {
        return false;
    };
    let form = keyword.form();
    let count = spaces_unquoted(line.as_bytes());
    let (wanted, fields) = count_of(form);
    let is_right = count == wanted || (form == LineContent::Unused && count == 1);
    if is_right || has_odd_blanks(line) {
        return false;
    }
    writeln!(
        draft,
        "  a `{word}` line has {fields}; this one has {count}"
    );
    true
}

/// How many lines a base block has up to its timings, one for each of the first words, and eight of the last of these.
const FRONT: usize = 19;

/// The number of that last one, `standard`, among the words.
const STANDARD: usize = 11;

/// The word of the line that has to stand at a place of a base block, where there is one alone. Lines that begin with a space are
/// none.
pub fn next_word(place: InputLine<'_>) -> Option<&'static str> {
    let lines = place
        .input
        .split(is_line_end)
        .take(place.number.saturating_sub(1));
    let above = lines.filter(|line| !line.starts_with(b" ")).count();
    if above < FRONT {
        WORD_TEXTS.get(above.min(STANDARD)).copied()
    } else {
        None
    }
}
