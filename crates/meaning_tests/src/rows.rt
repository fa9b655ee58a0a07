//! Payloads and what stands below their line.
ghost use Rattle.std.specs.Prelude.{◌≤◌, length};

use crate::{abilities, displays, videos};
use arrayvec::ArrayVec;
use edid_base::Revision;
use meaning_base::{
    append_chroma, append_descriptor, append_established, append_ext, append_features,
    append_gamma, append_input, append_made, append_range, append_raw, append_size,
    append_standard,
};
use meaning_cta::{append_audio, append_flags, append_hdmi, append_speakers};
use meaning_words::{Page, append_timing, append_video};
use std::process::Abort;

/// The video codes of the EDID whose HDMI blocks are read.
const CODES: &[u8] = &[32, 4, 5, 16];
/// The features that indicate GTF.
const GTF: u8 = 1;
/// An input that is digital.
const DIGITAL: u8 = 0x80;

fn bytes_of(rt: &impl Abort, digits: &str) -> ArrayVec<u8, 31> {
    let mut bytes = ArrayVec::new();
    let mut rest = digits.as_bytes();
    while let [high, low, more @ ..] = rest {
        let mut byte = [0u8; 1];
        let digits = [*high, *low];
        assert!(rt;
            hex::decode_to_slice(&digits, &mut byte).is_ok(),
            "hex digits"
        );
        assert!(rt; bytes.try_push(byte[0]).is_ok(), "a payload");
        rest = more;
    }
    bytes
}

fn numbers_of(rt: &impl Abort, words: &str) -> ArrayVec<u32, 14> {
    let mut numbers = ArrayVec::new();
    for word in words.split(' ') {
        let number = u32::from_str_radix(word, 10).ok();
        assert!(rt;
            numbers.try_push(number.expect(rt, "a number")).is_ok(),
            "few numbers"
        );
    }
    numbers
}

/// The lines that are wanted, which ` | ` parts.
fn wanted(rt: &impl Abort, lines: &str) -> Page {
    let mut page = ArrayVec::new();
    for line in lines.split(" | ") {
        assert!(rt; page.try_extend_from_slice(b"  ").is_ok(), "room");
        assert!(rt; page.try_extend_from_slice(line.as_bytes()).is_ok(), "room");
        assert!(rt; page.try_extend_from_slice(b"\n").is_ok(), "room");
    }
    page
}

fn payload_page(word: &str, bytes: &[u8]) -> Page
    requires { length bytes.now ≤ 31 }
{
    let mut page = ArrayVec::new();
    match word {
        "audio" => append_audio(&mut page, bytes),
        "speakers" => append_speakers(&mut page, bytes),
        "cta" => append_flags(&mut page, bytes),
        "hdmi" => append_hdmi(&mut page, CODES, bytes),
        "form" => append_descriptor(&mut page, bytes),
        _ => append_video(&mut page, bytes),
    }
    page
}

fn revision_of(word: &str) -> Revision {
    if word == "four" {
        Revision::Four
    } else {
        Revision::Three
    }
}

fn display_page(kind: &str, word: &str, bytes: &[u8]) -> Page
    requires { length bytes.now ≤ 31 }
{
    let revision = revision_of(kind);
    let input = if kind == "analog" { 0 } else { DIGITAL };
    let features = if kind == "gtf" { GTF } else { 0 };
    let mut page = ArrayVec::new();
    match word {
        "input" => append_input(&mut page, revision, bytes),
        "features" => append_features(&mut page, revision, input, bytes),
        "established" => append_established(&mut page, bytes),
        "range" => append_range(&mut page, revision, features, bytes),
        "raw" => append_raw(&mut page, bytes),
        "form" => append_descriptor(&mut page, bytes),
        _ => append_ext(&mut page, bytes),
    }
    page
}

fn number_page(kind: &str, word: &str, numbers: &[u32]) -> Page {
    let revision = revision_of(kind);
    let mut page = ArrayVec::new();
    match word {
        "made" => append_made(&mut page, revision, numbers),
        "size" => append_size(&mut page, revision, numbers),
        "gamma" => append_gamma(&mut page, numbers),
        "chroma" => append_chroma(&mut page, numbers),
        _ => append_standard(&mut page, numbers),
    }
    page
}

fn check(rt: &impl Abort, found: &Page, row: &str, lines: &str) {
    let want = wanted(rt, lines);
    assert!(rt; found.as_slice() == want.as_slice(), "{row}");
}

/// A row of bytes of a video data block.
fn check_video(rt: &impl Abort, row: &str) {
    let (digits, lines) = row.split_once(" = ").expect(rt, "a row");
    let bytes = bytes_of(rt, digits);
    check(rt, &payload_page("video", bytes.as_slice()), row, lines);
}

/// A row of a payload, after its word.
fn check_payload(rt: &impl Abort, row: &str) {
    let (front, lines) = row.split_once(" = ").expect(rt, "a row");
    let (word, digits) = front.split_once(' ').expect(rt, "a word");
    let bytes = bytes_of(rt, digits);
    check(rt, &payload_page(word, bytes.as_slice()), row, lines);
}

/// A row of bytes of a base block, after what decides them and their word; `raw`, `form` and `ext` have a word alone.
fn check_display(rt: &impl Abort, row: &str) {
    let (front, lines) = row.split_once(" = ").expect(rt, "a row");
    let (words, digits) = front.rsplit_once(' ').expect(rt, "digits");
    let (kind, word) = words.split_once(' ').unwrap_or(("three", words));
    let bytes = bytes_of(rt, digits);
    check(rt, &display_page(kind, word, bytes.as_slice()), row, lines);
}

/// A row of numbers, after their word and, for some, the revision.
fn check_numbers(rt: &impl Abort, row: &str) {
    let (front, lines) = row.split_once(" = ").expect(rt, "a row");
    let (first, rest) = front.split_once(' ').expect(rt, "a word");
    let is_revision = first == "three" || first == "four";
    let (word, words) = if is_revision {
        rest.split_once(' ').expect(rt, "a word")
    } else {
        (first, rest)
    };
    let numbers = numbers_of(rt, words);
    check(
        rt,
        &number_page(first, word, numbers.as_slice()),
        row,
        lines,
    );
}

/// A row of a timing's numbers, and its flags.
fn check_timing(rt: &impl Abort, row: &str) {
    let (front, lines) = row.split_once(" = ").expect(rt, "a row");
    let mut numbers = numbers_of(rt, front);
    let flags = numbers.pop().expect(rt, "flags") % 256;
    let mut page = ArrayVec::new();
    append_timing(&mut page, numbers.as_slice(), flags as u8);
    check(rt, &page, row, lines);
}

/// The bits of a byte.
const WEIGHTS: &[u8] = &[1, 2, 4, 8, 16, 32, 64, 128];

/// The lines of a payload are others once a bit of it is flipped.
fn check_told(rt: &impl Abort, row: &str) {
    let (word, digits) = row.split_once(' ').expect(rt, "a word");
    let bytes = bytes_of(rt, digits);
    let page = payload_page(word, bytes.as_slice());
    for place in 0..bytes.len() {
        for weight in WEIGHTS {
            let mut other = bytes_of(rt, digits);
            if let Some(byte) = other.get_mut(place) {
                *byte ^= *weight;
            }
            let flipped = payload_page(word, other.as_slice());
            assert!(rt;
                flipped.as_slice() != page.as_slice(),
                "{row} {place} {weight}"
            );
        }
    }
}

#[test]
fn formats_by_code(rt: HostRuntime) {
    for row in videos::FORMATS.lines() {
        check_video(&rt, row);
    }
}

#[test]
fn bytes_of_video(rt: HostRuntime) {
    for row in videos::BYTES.lines() {
        check_video(&rt, row);
    }
}

#[test]
fn payloads(rt: HostRuntime) {
    for row in abilities::ROWS.lines() {
        check_payload(&rt, row);
    }
}

#[test]
fn each_bit_of_payloads(rt: HostRuntime) {
    for row in abilities::TOLD.lines() {
        check_told(&rt, row);
    }
}

#[test]
fn bytes_of_base_blocks(rt: HostRuntime) {
    for row in displays::ROWS.lines() {
        check_display(&rt, row);
    }
}

#[test]
fn numbers_of_lines(rt: HostRuntime) {
    for row in displays::NUMBERS.lines() {
        check_numbers(&rt, row);
    }
}

#[test]
fn timings(rt: HostRuntime) {
    for row in displays::TIMINGS.lines() {
        check_timing(&rt, row);
    }
}
