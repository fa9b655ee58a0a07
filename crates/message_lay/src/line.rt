//! The pulls of a line.
ghost use Rattle.std.specs.Prelude.{◌≡◌, ◌≤◌, ◌<◌, ◌+◌, ◌*◌, codes, length};
ghost use Rattle.std.specs.Str.{bytes_eq};
ghost use Rattle.std.specs.List.{list_all};
ghost use Rattle.std.specs.Option.{option_copied};
ghost use Rattle.text_core.specs.Hex.{hex_bytes};
ghost use Rattle.text_core.specs.Phys.{is_hex_digit};
ghost use Rattle.text_core.specs.Words.{words_after};
ghost use Rattle.message_lay.specs.Bits.{most_blocks};
ghost use Rattle.message_lay.specs.Faults.{pulls_in};
ghost use Rattle.message_lay.specs.Line.{IsContent, IsFrameRead, IsLineRead, are_blocks, blocks_in, blocks_read};

use crate::bits::MOST_BLOCKS;
use crate::fault::LayCause;
use crate::pulls::{LinePulls, pulls_read};
use crate::words::{fault_in, time_in};
use arrayvec::ArrayVec;
use message_text::{assemble, frame_word, frames_are_whole};
use text_core::{AtWord, at_word, first_word, hex_bytes, is_hex_digit, is_skipped};

type Blocks = ArrayVec<u8, MOST_BLOCKS>;

fn are_hex_digits(digits: &[u8]) -> bool
    ensures { result ≡ list_all is_hex_digit digits.now }
{
    digits.iter().all(|digit| is_hex_digit(*digit))
}

/// Whether these are the hex digits of 1 to 64 bytes.
fn are_blocks(digits: &[u8]) -> bool
    ensures { result ≡ are_blocks digits.now }
{
    2 <= digits.len()
        && digits.len() <= 2 * MOST_BLOCKS
        && digits.len() % 2 == 0
        && are_hex_digits(digits)
}

// The bytes of hex digits, the word of this number.
fn blocks_of(digits: &[u8], at: usize) -> Result<Blocks, AtWord<LayCause>>
    ensures { blocks_in result ≡ blocks_read at digits.now }
{
    if !are_blocks(digits) {
        return Err(at_word(at, LayCause::Blocks));
    }
    Ok(hex_bytes(digits))
}

// The bytes of a frame's text, whose first word has this number.
fn frame_of(text: &[u8], at: usize) -> Result<Blocks, AtWord<LayCause>>
    requires { at < 8 }
    ensures { IsFrameRead at text.now (blocks_in result) }
{
    match assemble(text) {
        Ok(frame) => {
            frames_are_whole(&frame);
            let mut bytes = ArrayVec::new();
            let _ = bytes.try_extend_from_slice(frame.bytes());
            Ok(bytes)
        }
        Err(cause) => Err(at_word(at + frame_word(cause), LayCause::Frame(cause))),
    }
}

fn is_blocks_word(word: &[u8]) -> bool
    ensures { result ≡ bytes_eq word.now (codes "blocks") }
{
    word == b"blocks".as_slice()
}

/// The bytes of what stands after the fault, whose first word has this number: of `blocks HEX`, or of a frame's text.
fn content_of(rest: Option<&[u8]>, at: usize) -> Result<Blocks, AtWord<LayCause>>
    requires { at < 8 }
    ensures { IsContent at (words_after (option_copied rest.entry)) (blocks_in result) }
{
    let Some(text) = rest else {
        return Err(at_word(at, LayCause::Word));
    };
    let (word, after) = first_word(text);
    if !is_blocks_word(word) {
        return frame_of(text, at);
    }
    match after {
        None => Err(at_word(at + 1, LayCause::Word)),
        Some(digits) => blocks_of(digits, at + 1),
    }
}

/// The pulls of a line, none where it is skipped.
///
/// # Errors
///
/// The first cause from the left, and last `Slot`, with the word at fault.
pub fn line_pulls(line: &[u8]) -> Result<LinePulls, AtWord<LayCause>>
    ensures { IsLineRead line.now (pulls_in result) }
{
    if is_skipped(line) {
        return Ok(ArrayVec::new());
    }
    let (time, rest) = first_word(line);
    let Some(start) = time_in(time) else {
        return Err(at_word(0, LayCause::Number));
    };
    match fault_in(rest) {
        Err(fault) => Err(fault),
        Ok((fault, at, rest)) => match content_of(rest, at) {
            Err(fault) => Err(fault),
            Ok(bytes) => pulls_read(start, fault, &bytes),
        },
    }
}
