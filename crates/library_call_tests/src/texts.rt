//! EDIDs of their texts, what is wrong with them, and what they mean, with each number.
use crate::edids::{READ, REFUSED};
use crate::reports::{is_line_refused, is_number};
use crate::rooms::{UNTOUCHED, holds, is_put, is_refused, is_small, number};
use crate::runs::{lines_of, wanted};
use crate::samples::{bytes_of, first_bytes_of};
use conversion_calls::{EdidToTextError, TextToHexError};
use edid_core::EdidError;
use library_edid::{
    edid_refused, put_edid_bytes, put_edid_findings, put_edid_meaning, text_refused,
};
use library_wire::put_edid_text;
use std::process::Abort;

/// The lines of texts that are no EDID's, and the number and the line of each refusal.
const NO_TEXTS: &str = "\
frob => 40 1
edid 1.3 => 40 2
edid 1.3|frob 1 => 40 2
 edid 1.3 => 40 1
edid 1.3|  of a display|maker SAM => 40 2
edid 1.3|maker SAM|serial 1 => 40 3
edid 1.5 => 41 1
edid 1.3|maker sam => 41 2
edid 1.3|maker SAM|product 65536 => 41 3";

/// EDIDs, and after the bar the rules that they break, each as it is written and a bar. The last two have chromaticities of sRGB
/// and bit 2 of the features, 640x480, and range limits of 50 to 75 Hz, 30 to 80 kHz and 150 MHz.
const FINDINGS: &str = "\
tv..0052 => fail no-range-limits|fail srgb
tv..0151 speaking..e8 => fail no-range-limits|fail srgb|fail no-640x480|warn no-video-capability
tv..017c speaking..e8 24=0e 35=20 93=fd 95=32 96=4b 97=1e 98=50 99=0f 101=0a 102=20 103=20 104=20 105=20 106=20 107=20 => warn no-video-capability";

const KEEPS_ALL: &str =
    "tv..007d 24=0e 35=20 93=fd 95=32 96=4b 97=1e 98=50 99=0f 101=0a 102=20 103=20 104=20 105=20 106=20 107=20";

/// The lines that a meaning begins with.
const MEANING: &str = "\
edid 1.3
maker SAM
product 258
serial 1
made 10 2011
  week 10 of 2011
input 80
  digital
";

/// The EDID that has the text of one is that one.
fn comes_back(rt: &(impl Abort + AllocGlobal), bytes: &[u8], row: &str) {
    let mut room = [UNTOUCHED; 4096];
    let answer = put_edid_text(bytes, &mut room);
    let text = room.get(..answer.length).unwrap_or(b"");
    let mut edid = [UNTOUCHED; 600];
    let answer = put_edid_bytes(rt.alloc(), text, &mut edid);
    holds(rt, is_put(answer, &edid, bytes), row);
    let mut small = [UNTOUCHED; 127];
    let answer = put_edid_bytes(rt.alloc(), text, &mut small);
    holds(rt, is_small(answer, &small, bytes.len()), row);
}

#[test]
fn edids_come_back_from_their_texts(rt: HostRuntime) {
    for words in READ.lines() {
        comes_back(&rt, &first_bytes_of(&rt, words), words);
    }
}

#[test]
fn texts_are_refused_by_numbers(rt: HostRuntime) {
    let mut room = [UNTOUCHED; 128];
    let answer = put_edid_bytes(rt.alloc(), b"", &mut room);
    holds(&rt, is_line_refused(answer, &room, 40, 1), "no line");
    for row in NO_TEXTS.lines() {
        let (words, want) = row.split_once(" => ").expect(&rt, row);
        let (code, line) = wanted(&rt, want);
        let text = lines_of(&rt, words);
        let answer = put_edid_bytes(rt.alloc(), text.as_bytes(), &mut room);
        holds(&rt, is_line_refused(answer, &room, code, line), row);
    }
}

/// The calls of bytes refuse such ones with this number.
fn is_fault(rt: &(impl Abort + AllocGlobal), bytes: &[u8], code: u32, row: &str) {
    let mut room = [UNTOUCHED; 600];
    let mut fails = true;
    let answer = put_edid_findings(rt.alloc(), bytes, &mut room, &mut fails);
    holds(rt, is_refused(answer, &room, code) && fails, row);
    let answer = put_edid_meaning(rt.alloc(), bytes, &mut room);
    holds(rt, is_refused(answer, &room, code), row);
}

#[test]
fn no_edids_are_refused_by_numbers(rt: HostRuntime) {
    for row in REFUSED.lines() {
        let (words, code) = row.split_once(" => ").expect(&rt, row);
        let code = number(&rt, code);
        is_fault(&rt, &first_bytes_of(&rt, words), code, row);
    }
}

/// An EDID breaks these rules, of which one is a failure or not.
fn breaks(rt: &(impl Abort + AllocGlobal), bytes: &[u8], rules: &[u8], due: bool, row: &str) {
    let mut room = [UNTOUCHED; 600];
    let mut fails = !due;
    let answer = put_edid_findings(rt.alloc(), bytes, &mut room, &mut fails);
    holds(rt, is_put(answer, &room, rules) && fails == due, row);
}

#[test]
fn findings_are_put(rt: HostRuntime) {
    for row in FINDINGS.lines() {
        let (words, rules) = row.split_once(" => ").expect(&rt, row);
        let rules = lines_of(&rt, rules);
        let due = rules.starts_with("fail");
        breaks(&rt, &bytes_of(&rt, words), rules.as_bytes(), due, row);
    }
    breaks(&rt, &bytes_of(&rt, KEEPS_ALL), b"", false, "no rule");
}

#[test]
fn findings_are_judged_in_any_room(rt: HostRuntime) {
    let mut room = [UNTOUCHED; 30];
    let mut fails = false;
    let bytes = bytes_of(&rt, "tv..0052");
    let answer = put_edid_findings(rt.alloc(), &bytes, &mut room, &mut fails);
    holds(&rt, is_small(answer, &room, 31) && fails, "a small room");
}

#[test]
fn meanings_are_put(rt: HostRuntime) {
    let bytes = bytes_of(&rt, "tv..0052");
    let mut room = [UNTOUCHED; 4096];
    let answer = put_edid_meaning(rt.alloc(), &bytes, &mut room);
    let text = room.get(..answer.length).unwrap_or(b"");
    holds(
        &rt,
        answer.code == 0 && text.starts_with(MEANING.as_bytes()),
        "a meaning",
    );
    let mut small = [UNTOUCHED; 100];
    let answer = put_edid_meaning(rt.alloc(), &bytes, &mut small);
    holds(&rt, is_small(answer, &small, text.len()), "a small room");
}

// What is written stands in memory, so that a write fails for want of memory alone.
#[test]
fn causes_of_edids_have_numbers(rt: HostRuntime) {
    is_number(
        &rt,
        text_refused(&TextToHexError::Syntax(3)),
        40,
        3,
        "a line",
    );
    let field = TextToHexError::Field { line: 3, word: 1 };
    is_number(&rt, text_refused(&field), 41, 3, "a word");
    is_number(
        &rt,
        text_refused(&TextToHexError::Write(5)),
        50,
        0,
        "a write",
    );
    is_number(&rt, text_refused(&TextToHexError::Memory), 50, 0, "a text");
    let count = EdidToTextError::Edid(EdidError::Count);
    is_number(&rt, edid_refused(&count), 31, 0, "an edid");
    is_number(
        &rt,
        edid_refused(&EdidToTextError::Write(5)),
        50,
        0,
        "a write",
    );
}
