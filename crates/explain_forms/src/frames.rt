//! What a frame's text at fault would have to look like, and what its words may have been meant for.
use explain_again::{Spot, is_taken};
use explain_lists::{Draft, add_name, add_shape, word_at, word_count};
use explain_near::{add_address_meant, add_count_meant, add_opcode_meant, add_operands_meant};
use line_frames::Frame;
use message_hex::remark;
use message_table::{code_named, name};
use message_text::AssembleError;
use std::alloc::AllocError;

// The digits of an opcode: after `op-`, `0x` or `:`, or alone.
fn opcode_digits(word: &str) -> &str {
    for before in ["op-", "0x", ":"] {
        if let Some(digits) = word.strip_prefix(before) {
            return digits;
        }
    }
    word
}

// The opcode whose two hex digits a word has, or one after a mark.
fn code_in_digits(word: &str) -> Option<u8> {
    let digits = opcode_digits(word);
    let is_one = digits.len() == 1 && digits.len() < word.len();
    if digits.len() != 2 && !is_one {
        return None;
    }
    u8::from_str_radix(digits, 16).ok()
}

// Whether a line has hex of operands that stands in more than one word, after its first words.
fn is_spaced_hex(line: &str, operands: usize) -> bool {
    match word_at(line, operands) {
        Some(word) => word.starts_with(":") && word_count(line) > operands.saturating_add(1),
        None => false,
    }
}

// Says that the hex of an operand stands for a word, where it is taken in its place.
fn add_hex(draft: &mut Draft, spot: Spot<'_>, operand: u8) {
    let word = spot.text();
    match format!(in draft.alloc(); ":{operand:02x}") {
        Ok(hex) => {
            let hex = hex.as_str();
            if is_taken(draft, spot, word, hex) {
                draft.add_all(&[
                    "  `",
                    word,
                    "` is no word of a frame's text: `",
                    hex,
                    "` stands for it\n",
                ]);
            }
        }
        Err(AllocError) => draft.fail(),
    }
}

// The hex of an operand that has a word in the standard, which `dis` shows after the frame.
fn add_operand_hex(draft: &mut Draft, spot: Spot<'_>, code: u8) {
    for operand in 0..=u8::MAX {
        if remark_of(&[0, code, operand]) == Some(spot.text()) {
            return add_hex(draft, spot, operand);
        }
    }
}

// What the operands of a frame are whose opcode is a word of a line.
fn add_operands(draft: &mut Draft, spot: Spot<'_>) {
    let code = code_named(spot.text().as_bytes());
    add_shape(draft, code);
    let operands = spot.after(1);
    if let Some(code) = code {
        add_operand_hex(draft, operands, code);
    }
    if is_spaced_hex(spot.at.text, operands.word) {
        draft.add_line("the digits after `:` stand without spaces");
    }
}

// What the standard calls a frame's opcode or operand, where the text of the frame has no word for it.
fn remark_of(bytes: &[u8]) -> Option<&'static str> {
    remark(&Frame::new(bytes).ok()?)
}

// The opcode that has a name in the standard, and none in a frame's text.
fn code_of_standard(word: &str) -> Option<u8> {
    for code in 0..=u8::MAX {
        if remark_of(&[0, code]) == Some(word) {
            return Some(code);
        }
    }
    None
}

// Whether the word of an opcode is taken in the place of a word: its name, or `op-XX` of one that has none.
fn is_code_taken(draft: &mut Draft, spot: Spot<'_>, code: u8) -> bool {
    let word = spot.text();
    if let Some(name) = name(code) {
        return is_taken(draft, spot, word, name);
    }
    match format!(in draft.alloc(); "op-{code:02x}") {
        Ok(text) => is_taken(draft, spot, word, text.as_str()),
        Err(AllocError) => {
            draft.fail();
            false
        }
    }
}

/// What an opcode would be, whose digits or name in the standard are a word of a line. Returns whether there is one.
pub fn add_opcode(draft: &mut Draft, spot: Spot<'_>) -> bool {
    let word = spot.text();
    let found = match code_in_digits(word) {
        Some(code) => Some(code),
        None => code_of_standard(word),
    };
    let Some(code) = found else {
        return false;
    };
    let is_right = is_code_taken(draft, spot, code);
    if is_right {
        add_name(draft, code, word);
    }
    is_right
}

/// What the frame of a line would be, which begins at a word and is refused for a cause.
pub fn add_frame(draft: &mut Draft, cause: AssembleError, spot: Spot<'_>) {
    match cause {
        AssembleError::Name => {
            let _ = add_opcode(draft, spot.after(1));
        }
        AssembleError::Count | AssembleError::Operand => add_operands(draft, spot.after(1)),
        AssembleError::Address | AssembleError::TooLong => {}
    }
}

/// What a word of a frame may have been meant for.
pub fn add_frame_meant(draft: &mut Draft, cause: AssembleError, spot: Spot<'_>) {
    match cause {
        AssembleError::Address => add_address_meant(draft, spot),
        AssembleError::Name => add_opcode_meant(draft, spot),
        AssembleError::Operand => add_operands_meant(draft, spot),
        AssembleError::Count => add_count_meant(draft, spot),
        AssembleError::TooLong => {}
    }
}
