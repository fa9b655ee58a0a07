//! What is reported of bytes and texts, a case each.
use crate::bases::{self, base_reported, letters_reported, timing_reported};
use crate::blocks::{self, edid_reported, parts_reported, passed_on_reported};
use crate::extensions::{self, address_reported, addressed_reported, heard_reported};
use crate::neighbours::{self, neighbours_reported};
use crate::samples::{comes_out, owned, parted};
use crate::texts::{self, change_reported, fronts_reported, refusals_reported, text_reported};
use crate::words::{self as payloads, canonical_reported, words_reported};
use edid_core::AudioFrom;
use std::process::Abort;

/// What is reported of blocks that are read, or passed on.
fn blocks_reported(rt: &(impl Abort + AllocGlobal), verb: &str, words: &str) -> String {
    match verb {
        "base" => base_reported(rt, words),
        "timing" => timing_reported(rt, words),
        "letters" => letters_reported(rt, words),
        "edid" => edid_reported(rt, words),
        "parts" => parts_reported(rt, words),
        "television" => passed_on_reported(rt, AudioFrom::Television, words),
        "amplifier" => passed_on_reported(rt, AudioFrom::Amplifier, words),
        "heard" => heard_reported(rt, words),
        "addressed" => addressed_reported(rt, words),
        "address" => address_reported(rt, words),
        _ => owned(rt, "no such verb"),
    }
}

/// What is reported of texts, and otherwise of blocks.
fn reported(rt: &(impl Abort + AllocGlobal), asked: &str) -> String {
    let (verb, words) = asked.split_once(' ').expect(rt, asked);
    match verb {
        "change" => change_reported(rt, words),
        "refusals" => refusals_reported(rt, words),
        "text" => text_reported(rt, words),
        "fronts" => fronts_reported(rt, words),
        "neighbours" => neighbours_reported(rt, words),
        "words" => words_reported(rt, words),
        "canonical" => canonical_reported(rt, words),
        _ => blocks_reported(rt, verb, words),
    }
}

/// Asserts what is reported in each case.
fn are_reported(rt: &(impl Abort + AllocGlobal), cases: &str) {
    for case in cases.lines() {
        let (asked, want) = parted(rt, case);
        comes_out(rt, reported(rt, asked), want, case);
    }
}

#[test]
fn blocks_are_read_and_passed_on(rt: HostRuntime) {
    are_reported(&rt, bases::CASES);
    are_reported(&rt, blocks::CASES);
    are_reported(&rt, extensions::CASES);
}

#[test]
fn texts_are_read_and_written(rt: HostRuntime) {
    are_reported(&rt, texts::CHANGES);
    are_reported(&rt, texts::RETURNED);
    are_reported(&rt, texts::FRONTS);
    are_reported(&rt, neighbours::HASHES);
    are_reported(&rt, payloads::CASES);
}
