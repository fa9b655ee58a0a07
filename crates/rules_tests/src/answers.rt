//! What is reported of EDIDs, a case each.
use crate::contents::{BLOCKS, EXTENSIONS, MAPS, VALUES};
use crate::displays::bytes_of;
use crate::explains::{EXPLAINED, HINTED, explained, hinted};
use crate::links::LINKS;
use crate::rules::{IN_PORTS, NATIVES, RULES};
use crate::timings::{ESTABLISHED, FORMATS, TIMINGS};
use crate::ways::{
    ADDRESSES, FRONTS, PASSED, address_reported, fronts_reported, passed_checked, passed_reported,
};
use conversion_calls::edid_to_findings;
use rules_explain::lacks_line_feed;
use std::process::Abort;
use text_core::Writes;

/// A case and what comes of it.
fn parted<'a>(rt: &impl Abort, case: &'a str) -> (&'a str, &'a str) {
    case.rsplit_once(" => ").expect(rt, case)
}

/// Asserts that a case came out as its text says.
fn holds(rt: &impl Abort, is_right: bool, case: &str) {
    assert!(rt; is_right, "{case}");
}

/// The lines of what is wrong with an EDID, with `;` for each line feed, or `none`. Whether one fails is as the lines report.
fn lines_of(rt: &(impl Abort + AllocGlobal), text: &[u8]) -> String {
    let text = str::from_utf8(text).expect(rt, "a text");
    if text.is_empty() {
        return String::from_str(rt.alloc(), "none").expect(rt, "a text");
    }
    text.replace(rt.alloc(), "\n", ";").expect(rt, "a line")
}

/// What is wrong with an EDID.
fn checked(rt: &(impl Abort + AllocGlobal), words: &str) -> String {
    let mut text = Vec::new(rt.alloc());
    let fails = edid_to_findings(&bytes_of(rt, words), &mut Writes::new(&mut text)).expect(
        rt, words,
    );
    let lines = lines_of(rt, &text);
    holds(rt, fails == lines.as_str().contains("fail "), words);
    lines
}

/// Asserts what is reported in each case.
fn are_checked(rt: &(impl Abort + AllocGlobal), cases: &str) {
    for case in cases.lines() {
        let (words, want) = parted(rt, case);
        holds(rt, checked(rt, words).as_str() == want, case);
    }
}

#[test]
fn each_rule_is_broken_alone_and_just_kept(rt: HostRuntime) {
    are_checked(&rt, RULES);
    are_checked(&rt, NATIVES);
    are_checked(&rt, TIMINGS);
    are_checked(&rt, FORMATS);
    are_checked(&rt, ESTABLISHED);
    are_checked(&rt, EXTENSIONS);
    are_checked(&rt, BLOCKS);
    are_checked(&rt, MAPS);
    are_checked(&rt, VALUES);
    are_checked(&rt, LINKS);
}

/// The answer that is wanted: in place of bytes in hex, words give them.
fn wanted(rt: &(impl Abort + AllocGlobal), want: &str) -> String {
    if want.starts_with("tv") {
        let digits = hex::encode(rt.alloc(), &bytes_of(rt, want)).expect(rt, "hex digits");
        format!(in rt.alloc(); "{digits}\n").expect(rt, "a line")
    } else {
        String::from_str(rt.alloc(), want).expect(rt, "a text")
    }
}

#[test]
fn edids_are_passed_on(rt: HostRuntime) {
    for case in PASSED.lines() {
        let (words, want) = parted(&rt, case);
        let want = wanted(&rt, want);
        holds(
            &rt,
            passed_reported(&rt, words).as_str() == want.as_str(),
            case,
        );
    }
}

#[test]
fn what_is_passed_on_is_checked(rt: HostRuntime) {
    for case in IN_PORTS.lines() {
        let (words, want) = parted(&rt, case);
        let reported = passed_checked(&rt, words);
        let reported = if reported.is_empty() {
            "none"
        } else {
            reported.as_str()
        };
        holds(&rt, reported == want, case);
    }
}

#[test]
fn addresses_are_reported(rt: HostRuntime) {
    for case in ADDRESSES.lines() {
        let (words, want) = parted(&rt, case);
        holds(&rt, address_reported(&rt, words).as_str() == want, case);
    }
}

#[test]
fn fronts_are_written_before_a_fault(rt: HostRuntime) {
    for case in FRONTS.lines() {
        let (words, want) = parted(&rt, case);
        holds(&rt, fronts_reported(&rt, words).as_str() == want, case);
    }
}

#[test]
fn broken_rules_are_explained(rt: HostRuntime) {
    for case in EXPLAINED.lines() {
        let (words, want) = parted(&rt, case);
        holds(&rt, explained(&rt, words).as_str() == want, case);
    }
}

#[test]
fn edids_without_an_hdmi_block_are_explained(rt: HostRuntime) {
    for case in HINTED.lines() {
        let (words, want) = parted(&rt, case);
        holds(&rt, hinted(&rt, words).as_str() == want, case);
    }
}

#[test]
fn a_last_line_feed_is_missed(rt: HostRuntime) {
    assert!(rt; lacks_line_feed(b"edid 1.3"));
    assert!(rt; lacks_line_feed(b"edid 1.3\n "));
    assert!(rt; !lacks_line_feed(b"edid 1.3\n"));
    assert!(rt; !lacks_line_feed(b"\n"));
    assert!(rt; !lacks_line_feed(b""));
}
