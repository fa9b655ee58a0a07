//! An EDID's text in which payloads may stand in words.
ghost use Rattle.std.specs.Prelude.{◌≡◌, ◌==◌, ◌++◌, ◌∷◌, [], codes, IfOk, OnOk};
ghost use Rattle.std.specs.List.{before_first, list_all};
ghost use Rattle.std.specs.Option.{option_copied};
ghost use Rattle.text_core.specs.Phys.{is_hex_digit, phys_of};
ghost use Rattle.text_core.specs.Words.{words_after};
ghost use Rattle.edid_spelling.specs.Canonical.{addressed, canonical_line, canonical_text, doubts, hdmi_line, in_words, is_hex, refused_line, said_after, with_bytes, with_timing};
ghost use Rattle.edid_cta.specs.declared.block.BlockKind.{BlockKind as KindValue};
ghost use Rattle.edid_spelling.specs.Audio.{descriptors_of};
ghost use Rattle.edid_spelling.specs.Hdmi.{hdmi_of};
ghost use Rattle.edid_spelling.specs.Speakers.{speakers_of};
ghost use Rattle.edid_spelling.specs.Timing.{timing_of};
ghost use Rattle.edid_spelling.specs.Video.{codes_of};

use crate::audio::descriptors_in;
use crate::hdmi::hdmi_in;
use crate::rows::next_word;
use crate::speakers::speakers_in;
use crate::timing::timing_in;
use crate::video::codes_in;
use arrayvec::ArrayVec;
use edid_cta::BlockKind;
use edid_text_lines::{Fields, Keyword, Line};
use std::alloc::{AllocError, Global};
use text_core::{Phys, before, first_line, first_word, is_hex_digit, len_before};

fn are_digits(word: &[u8]) -> bool
    ensures { result ≡ list_all is_hex_digit word.now }
{
    word.iter().all(|byte| is_hex_digit(*byte))
}

// Whether what is left is a payload in hex, or nothing.
fn is_hex(rest: Option<&[u8]>) -> bool
    ensures { result ≡ is_hex (words_after (option_copied rest.entry)) }
{
    let Some(text) = rest else {
        return true;
    };
    match first_word(text) {
        (word, None) => word == b"-".as_slice() || (word.len() % 2 == 0 && are_digits(word)),
        (_, Some(next)) => {
            // No effect at run time. The proof reads from it that one word more is left.
            let (_word, _others) = first_word(next);
            false
        }
    }
}

// The line of a video block.
fn video_line(rest: Option<&[u8]>) -> Result<Line, usize>
    ensures { result ≡ with_bytes KindValue.Video (codes_of (words_after (option_copied rest.entry))) }
{
    match codes_in(rest) {
        Ok(bytes) => Ok(Line {
            word: Keyword::Block(BlockKind::Video),
            fields: Fields::Bytes(bytes),
        }),
        Err(number) => Err(number),
    }
}

// The line of an audio block.
fn audio_line(rest: Option<&[u8]>) -> Result<Line, usize>
    ensures { result ≡ with_bytes KindValue.Audio (descriptors_of (words_after (option_copied rest.entry))) }
{
    match descriptors_in(rest) {
        Ok(bytes) => Ok(Line {
            word: Keyword::Block(BlockKind::Audio),
            fields: Fields::Bytes(bytes),
        }),
        Err(number) => Err(number),
    }
}

// The line of an HDMI block.
fn addressed_line(address: &[u8], rest: Option<&[u8]>) -> Result<Line, usize>
    ensures { result ≡ addressed (phys_of address.now) (hdmi_of (words_after (option_copied rest.entry))) }
{
    let Some(phys) = Phys::read(address) else {
        return Err(1);
    };
    match hdmi_in(rest) {
        Ok(bytes) => Ok(Line {
            word: Keyword::Hdmi,
            fields: Fields::Address(phys, bytes),
        }),
        Err(number) => Err(number),
    }
}

fn hdmi_line(rest: Option<&[u8]>) -> Result<Line, usize>
    ensures { result ≡ hdmi_line (words_after (option_copied rest.entry)) }
{
    let (address, more) = next_word(rest);
    if is_hex(more) {
        Err(0)
    } else {
        addressed_line(address, more)
    }
}

// The line of a detailed timing.
fn timing_line(rest: Option<&[u8]>) -> Result<Line, usize>
    ensures { result ≡ with_timing (timing_of (words_after (option_copied rest.entry))) }
{
    match timing_in(rest) {
        Ok(timing) => Ok(Line {
            word: Keyword::Timing,
            fields: Fields::Timed(timing.numbers, timing.flags),
        }),
        Err(number) => Err(number),
    }
}

// The line of a speaker block.
fn speaker_line(rest: Option<&[u8]>) -> Result<Line, usize>
    ensures { result ≡ with_bytes KindValue.Speakers (speakers_of (words_after (option_copied rest.entry))) }
{
    match speakers_in(rest) {
        Ok(bytes) => Ok(Line {
            word: Keyword::Block(BlockKind::Speakers),
            fields: Fields::Bytes(bytes),
        }),
        Err(number) => Err(number),
    }
}

fn said_after(keyword: &[u8], rest: Option<&[u8]>) -> Result<Line, usize>
    ensures { result ≡ said_after keyword.now (words_after (option_copied rest.entry)) }
{
    if keyword == b"video".as_slice() {
        video_line(rest)
    } else if keyword == b"audio".as_slice() {
        audio_line(rest)
    } else if keyword == b"speakers".as_slice() {
        speaker_line(rest)
    } else if keyword == b"hdmi".as_slice() {
        hdmi_line(rest)
    } else if keyword == b"timing".as_slice() {
        timing_line(rest)
    } else {
        Err(0)
    }
}

/// The line that a line without its line feed says in words.
///
/// # Errors
///
/// The number of its first word at fault, of which the keyword has 0; where a word is missing, the number that it would
/// have. 0 where the line is not in words.
#[tactic(auto, unfolding(crate::specs::Canonical::in_words))]
pub fn in_words(line: &[u8]) -> Result<Line, usize>
    ensures { result ≡ in_words line.now }
{
    let (keyword, rest) = first_word(line);
    if is_hex(rest) {
        Err(0)
    } else {
        said_after(keyword, rest)
    }
}

// A line as it stands, with its line feed.
fn push_kept(text: &mut Vec<u8>, line: &[u8]) -> Result<(), AllocError>
    ensures { OnOk result (text.new.items ≡ text.old.items ++ (line.now ++ 10 ∷ [])) }
{
    text.extend_from_slice(line)?;
    text.push(b'\n')?;
    Ok(())
}

// So many `?` as a line has fields after its keyword.
fn doubts(keyword: &[u8]) -> &'static [u8]
    ensures { result.now ≡ doubts keyword.now }
{
    if keyword == b"hdmi".as_slice() {
        b" ? ?\n"
    } else if keyword == b"timing".as_slice() {
        b" ? ? ? ? ? ? ? ? ? ? ? ? ? ?\n"
    } else {
        b" ?\n"
    }
}

// A line of which no EDID's text has the fields: the keyword, and `?` for each of them.
fn push_refused(text: &mut Vec<u8>, line: &[u8]) -> Result<(), AllocError>
    ensures { OnOk result (text.new.items ≡ text.old.items ++ refused_line (before_first (λ b. b == 32) line.now)) }
{
    let keyword = before(line, len_before(line, b' '));
    text.extend_from_slice(keyword)?;
    text.extend_from_slice(doubts(keyword))
}

// A line with its payload in hex.
#[tactic(auto, unfolding(crate::specs::Canonical::canonical_line))]
fn push_line(text: &mut Vec<u8>, line: &[u8]) -> Result<(), AllocError>
    ensures { OnOk result (text.new.items ≡ text.old.items ++ canonical_line line.now) }
{
    match &in_words(line) {
        Ok(said) => text.extend_from_slice(said.write().as_slice()),
        Err(0) => push_kept(text, line),
        Err(_) => push_refused(text, line),
    }
}

/// A text with the payloads in hex that stand in words. Other lines stay as they are, but one whose words are at fault is its
/// keyword and `?` for each of its fields. Each line ends with a line feed, also the last where it lacks one.
///
/// # Errors
///
/// `AllocError` where there is no memory.
pub fn canonical_text(alloc: Global, text: &[u8]) -> Result<Vec<u8>, AllocError>
    ensures { IfOk result (λ written. written.items ≡ canonical_text text.now) }
{
    let mut written = Vec::new(alloc);
    let mut rest = text;
    'lines: while let Some((line, after)) = first_line(rest) {
        push_line(&mut written, line)?;
        rest = after;
    }
    Ok(written)
}
