//! What captures are read as.
use crate::rows::ROWS;
use audit_core::watch_from_idle;
use capture_core::Capture;
use capture_forms::{CaptureError, CaptureForm, read_capture};
use capture_pin::lost_lines;
use capture_scale::scale;
use capture_smooth::smooth_edges;
use std::process::Abort;
use text_core::Writes;

const HEAD: &str = "$timescale 1 us $end|$var wire 1 ! CEC $end|$enddefinitions $end";

const PINS: &str =
    "# cec-ctl --store-pin|# version 1|# start_monotonic 100.000000000|# start_timeofday 0.000000|# log_addr_mask 0x0000|# phys_addr f.f.f.f";

/// A text without its short forms.
fn spelled(rt: &(impl Abort + AllocGlobal), text: &str) -> String {
    let text = text.replace(rt.alloc(), "HEAD", HEAD).expect(rt, "a text");
    let text = text.replace(rt.alloc(), "PINS", PINS).expect(rt, "a text");
    let text = text.replace(rt.alloc(), "^", "\t").expect(rt, "a text");
    let text = text.replace(rt.alloc(), "~", "\r").expect(rt, "a text");
    text.replace(rt.alloc(), "|", "\n").expect(rt, "a text")
}

/// The edges of a capture, and its end.
fn capture_text(rt: &(impl Abort + AllocGlobal), capture: &Capture) -> String {
    let mut text = String::new(rt.alloc());
    for edge in capture.edges() {
        let mark = if edge.low { "f" } else { "r" };
        let word = format!(in rt.alloc(); "{}{mark} ", edge.at).expect(rt, "a word");
        text.push_str(&word).expect(rt, "a text");
    }
    let end = format!(in rt.alloc(); "end {}", capture.end()).expect(rt, "a word");
    text.push_str(&end).expect(rt, "a text");
    text
}

/// The form of a word, or that of the text.
fn form_of(word: &str, text: &str) -> CaptureForm {
    match word {
        "edges" | "smooth" | "scale" => CaptureForm::Edges,
        "vcd" => CaptureForm::Vcd,
        "pin" => CaptureForm::Pin,
        "csv" => CaptureForm::Csv,
        _ => CaptureForm::of(text.as_bytes()),
    }
}

/// A capture without what is shorter than a number.
fn smooth_text(rt: &(impl Abort + AllocGlobal), capture: &Capture, number: &str) -> String {
    let shortest = number.parse::<u64>().expect(rt, "a number");
    let left = smooth_edges(rt.alloc(), capture, shortest).expect(rt, "memory");
    capture_text(rt, &left)
}

/// A capture whose times are multiplied by so many ten-thousandths.
fn scaled_text(rt: &(impl Abort + AllocGlobal), capture: &Capture, number: &str) -> String {
    let factor = number.parse::<u64>().expect(rt, "a number");
    match scale(rt.alloc(), capture, factor) {
        Ok(scaled) => capture_text(rt, &scaled),
        Err(error) => format!(in rt.alloc(); "{error}").expect(rt, "a fault"),
    }
}

/// A fault, and after it the word at fault.
fn fault_text(rt: &(impl Abort + AllocGlobal), error: &CaptureError) -> String {
    match error {
        CaptureError::Fault(fault) => {
            format!(in rt.alloc(); "{error} {}", fault.word).expect(rt, "a fault")
        }
        CaptureError::Memory => format!(in rt.alloc(); "{error}").expect(rt, "a fault"),
    }
}

/// What a text is read as.
fn reported(rt: &(impl Abort + AllocGlobal), form: &str, signal: &str, text: &str) -> String {
    let read = read_capture(
        rt.alloc(),
        form_of(form, text),
        if form == "smooth" || form == "scale" {
            b"".as_slice()
        } else {
            signal.as_bytes()
        },
        text.as_bytes(),
    );
    match read {
        Ok(capture) if form == "smooth" => smooth_text(rt, &capture, signal),
        Ok(capture) if form == "scale" => scaled_text(rt, &capture, signal),
        Ok(capture) => capture_text(rt, &capture),
        Err(error) => fault_text(rt, &error),
    }
}

/// The lines of a pin file before which events were lost.
fn lost_text(rt: &(impl Abort + AllocGlobal), text: &str) -> String {
    let mut reported = String::new(rt.alloc());
    for line in &lost_lines(rt.alloc(), text.as_bytes()).expect(rt, "memory") {
        let word = format!(in rt.alloc(); "{line} ").expect(rt, "a word");
        reported.push_str(&word).expect(rt, "a text");
    }
    reported.push_str(".").expect(rt, "a text");
    reported
}

/// The readings of an edge file, from idle on.
fn idle_text(rt: &(impl Abort + AllocGlobal), text: &str) -> String {
    let read = read_capture(
        rt.alloc(),
        CaptureForm::Edges,
        b"".as_slice(),
        text.as_bytes(),
    );
    let capture = read.expect(rt, "a capture");
    let mut out = Vec::new(rt.alloc());
    watch_from_idle(&capture, &mut Writes::new(&mut out)).expect(rt, "memory");
    let reported = String::from_utf8(out).expect(rt, "a text");
    reported.replace(rt.alloc(), "\n", "|").expect(rt, "a text")
}

fn answer(rt: &(impl Abort + AllocGlobal), form: &str, signal: &str, text: &str) -> String {
    match form {
        "lost" => lost_text(rt, text),
        "idle" => idle_text(rt, text),
        _ => reported(rt, form, signal, text),
    }
}

fn check(rt: &(impl Abort + AllocGlobal), row: &str) {
    let (asked, want) = row.rsplit_once(" => ").expect(rt, "a row");
    let (words, text) = asked.split_once(' ').expect(rt, "a text");
    let (form, signal) = words.split_once(':').expect(rt, "a form");
    let text = spelled(rt, text);
    let reported = answer(rt, form, signal, &text);
    assert!(rt; reported.as_str() == want, "{row}: {reported}");
}

#[test]
fn captures_are_read(rt: HostRuntime) {
    for row in ROWS.lines() {
        if !row.starts_with("# ") {
            check(&rt, row);
        }
    }
}
