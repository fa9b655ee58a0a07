//! What a line of `dis` may have been meant for.
use explain_lists::Draft;
use message_hex::frame_in;
use message_text::assemble;
use std::alloc::{AllocError, Global};

// The text of a frame's bytes in hex.
fn add_bytes(draft: &mut Draft, bytes: &[u8]) {
    let mut before = "";
    for byte in bytes {
        draft.add(before);
        write!(draft, "{byte:02x}");
        before = ":";
    }
}

// A line that is the text of a frame, and its bytes. Returns whether it is one.
fn add_of_text(draft: &mut Draft, line: &str) -> bool {
    let Ok(frame) = assemble(line.as_bytes()) else {
        return false;
    };
    draft.add("  this is the text of a frame, as `hdminet asm` reads it; its bytes are `");
    add_bytes(draft, frame.bytes());
    draft.add("`\n");
    true
}

fn is_hex(text: &str) -> bool {
    !text.is_empty() && text.bytes().all(|byte| byte.is_ascii_hexdigit())
}

// The digits of a byte, without what stands before and after them elsewhere.
fn digits_of(word: &str) -> &str {
    let digits = word.strip_prefix("0").unwrap_or(word);
    let digits = digits.strip_prefix("x").unwrap_or(word);
    digits.strip_suffix("h").unwrap_or(digits)
}

// The words of a line that are bytes in hex, one space apart, where at most one other word stands among them.
fn bytes_among(alloc: Global, line: &str) -> Result<String, AllocError> {
    let mut text = Draft::new(alloc);
    let mut others = 0usize;
    let mut is_first = true;
    for word in line.split(|c: char| !c.is_ascii_alphanumeric()) {
        let digits = digits_of(word);
        if is_hex(digits) {
            text.add(if is_first { "" } else { " " });
            text.add(digits);
            is_first = false;
        } else if !word.is_empty() {
            others = others.saturating_add(1);
        }
    }
    if others > 1 {
        return Ok(String::new(alloc));
    }
    text.finish()
}

/// What a line that is no frame in hex may have been meant for: the bytes among its words, or the text of a frame.
pub fn add_hex_meant(draft: &mut Draft, line: &str) {
    if add_of_text(draft, line) {
        return;
    }
    match bytes_among(draft.alloc(), line) {
        Ok(bytes) => {
            if frame_in(bytes.as_bytes()).is_ok() {
                draft.add_all(&["  `", line, "`: did you mean `", bytes.as_str(), "`?\n"]);
            }
        }
        Err(AllocError) => draft.fail(),
    }
}
