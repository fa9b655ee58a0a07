//! What is wrong with EDIDs, their texts, what a port passes on, and what is read of them, with each number.
use crate::rooms::{UNTOUCHED, byte, first_word, holds, is_put, is_refused, is_small, number};
use crate::samples::{bytes_of, first_bytes_of};
use library_wire::{edid_fault, put_edid_port, put_edid_text, read_edid};
use std::process::Abort;

/// How many bytes of which blocks are no EDID, and the number of each cause.
pub(crate) const REFUSED: &str = "\
0 tv..0052 => 30
127 tv..0052 => 30
129 tv..0151 speaking..e8 => 30
255 tv..0151 speaking..e8 => 30
640 tv..044e empty..06 empty..06 empty..06 empty..06 => 30
128 tv..0151 => 31
256 tv..0250 speaking..e8 => 31
128 tv..0052 0=01 => 32
128 tv..0053 => 33
128 tv..0053 19=02 => 34
128 tv..0032 8=6c => 35
256 tv..0151 speaking..e9 => 36
512 tv..034f map..0c speaking..e9 empty..07 => 37
512 tv..034f map..0c empty..06 speaking..e9 => 38";

/// EDIDs of one block to four, and the lines that their texts begin with.
pub(crate) const READ: &str = "\
128 tv..0052
256 tv..0151 speaking..e8
384 tv..0250 map..0c speaking..e8
512 tv..034f map..0c speaking..e8 empty..06";

const FIRST_LINES: &str = "edid 1.3\nmaker SAM\nproduct 258\nserial 1\n";

/// EDIDs without an HDMI block, so without an address.
pub(crate) const SILENT: &str = "\
128 tv..0052
512 tv..034f map..0c empty..06 empty..06";

/// An EDID, and what a port with the address 1.2.3.4 passes on of it: below a television, and below an amplifier, whose audio
/// block (26 0f 7f 07 15 07 50) stands in place of the television's of three bytes (23 09 07 07).
const PASSED: &str = "tv..0151 speaking..e8";

const BELOW_A_TELEVISION: &str = "tv..0151 020316f143900403230907078301000065030c001234..a2";

const BELOW_AN_AMPLIFIER: &str = "tv..0151 020319f143900403260f7f071507508301000065030c001234..b2";

/// The address 1.2.3.4.
const ADDRESS: u16 = 0x1234;

/// Each call refuses such bytes with this number.
fn is_fault(rt: &impl Abort, bytes: &[u8], code: u32, row: &str) {
    holds(rt, edid_fault(bytes) == code, row);
    let mut room = [UNTOUCHED; 600];
    let answer = put_edid_text(bytes, &mut room);
    holds(rt, is_refused(answer, &room, code), row);
    let answer = put_edid_port(bytes, ADDRESS, false, &mut room);
    holds(rt, is_refused(answer, &room, code), row);
    let answer = put_edid_port(bytes, ADDRESS, true, &mut room);
    holds(rt, is_refused(answer, &room, code), row);
}

#[test]
fn edids_are_refused_by_numbers(rt: HostRuntime) {
    for row in REFUSED.lines() {
        let (words, code) = row.split_once(" => ").expect(&rt, row);
        let code = number(&rt, code);
        is_fault(&rt, &first_bytes_of(&rt, words), code, row);
    }
}

fn is_read(rt: &impl Abort, bytes: &[u8], row: &str) {
    holds(rt, edid_fault(bytes) == 0, row);
    let mut room = [UNTOUCHED; 4096];
    let answer = put_edid_text(bytes, &mut room);
    holds(rt, answer.code == 0 && answer.line == 0, row);
    let text = room.get(..answer.length).unwrap_or(b"");
    holds(rt, text.starts_with(FIRST_LINES.as_bytes()), row);
    let mut small = [UNTOUCHED; 100];
    let answer = put_edid_text(bytes, &mut small);
    holds(rt, is_small(answer, &small, text.len()), row);
}

#[test]
fn edids_have_texts(rt: HostRuntime) {
    for words in READ.lines() {
        is_read(&rt, &first_bytes_of(&rt, words), words);
    }
}

fn has_no_address(rt: &impl Abort, bytes: &[u8], row: &str) {
    let mut room = [UNTOUCHED; 600];
    let answer = put_edid_port(bytes, ADDRESS, false, &mut room);
    holds(rt, is_refused(answer, &room, 39), row);
    let answer = put_edid_port(bytes, ADDRESS, true, &mut room);
    holds(rt, is_refused(answer, &room, 39), row);
}

#[test]
fn edids_without_an_address_are_refused(rt: HostRuntime) {
    for words in SILENT.lines() {
        has_no_address(&rt, &first_bytes_of(&rt, words), words);
    }
}

/// A port passes on these bytes, where there is room for them.
fn passes_on(rt: &impl Abort, bytes: &[u8], from_amplifier: bool, want: &[u8], row: &str) {
    let mut room = [UNTOUCHED; 600];
    let answer = put_edid_port(bytes, ADDRESS, from_amplifier, &mut room);
    holds(rt, is_put(answer, &room, want), row);
    let mut small = [UNTOUCHED; 255];
    let answer = put_edid_port(bytes, ADDRESS, from_amplifier, &mut small);
    holds(rt, is_small(answer, &small, 256), row);
}

#[test]
fn ports_pass_on_address_and_audio(rt: HostRuntime) {
    let bytes = bytes_of(&rt, PASSED);
    let of_television = bytes_of(&rt, BELOW_A_TELEVISION);
    let of_amplifier = bytes_of(&rt, BELOW_AN_AMPLIFIER);
    passes_on(&rt, &bytes, false, &of_television, "below a television");
    passes_on(&rt, &bytes, true, &of_amplifier, "below an amplifier");
}

/// So many bytes of which blocks; a segment, an offset, and the four bytes that are read, or the number of the refusal.
const READINGS: &str = "\
256 tv..0151 speaking..e8 => 0 126 01510203
256 tv..0151 speaking..e8 => 0 254 00e800ff
256 tv..0151 speaking..e8 => 1 0 refused 4
384 tv..0250 map..0c speaking..e8 => 1 0 020316f1
384 tv..0250 map..0c speaking..e8 => 1 126 00e8ffff
384 tv..0250 map..0c speaking..e8 => 1 255 ff020316
384 tv..0250 map..0c speaking..e8 => 2 0 refused 4
128 tv..0053 => 0 127 53ffffff
127 tv..0052 => 0 0 refused 30
0 tv..0052 => 0 0 refused 30
640 tv..044e empty..06 empty..06 empty..06 empty..06 => 0 0 refused 30";

fn is_read_over(rt: &(impl Abort + AllocGlobal), row: &str) {
    let (words, asked) = row.split_once(" => ").expect(rt, row);
    let (segment, asked) = first_word(asked);
    let (offset, due) = first_word(asked);
    let bytes = first_bytes_of(rt, words);
    let mut room = [UNTOUCHED; 4];
    let answer = read_edid(&bytes, byte(rt, segment), byte(rt, offset), &mut room);
    match due.strip_prefix("refused ") {
        Some(code) => holds(rt, is_refused(answer, &room, number(rt, code)), row),
        None => {
            let want = hex::decode(rt.alloc(), due).expect(rt, row);
            holds(rt, is_put(answer, &room, &want), row);
        }
    }
}

#[test]
fn edids_are_read_over_ddc(rt: HostRuntime) {
    for row in READINGS.lines() {
        is_read_over(&rt, row);
    }
}
