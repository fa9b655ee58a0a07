//! Expectations of captures.
use crate::sweep_rows::{
    END, EXPECTED, FAULTS, FRAMES, OBJECTS, REMARKED, REMARKS_REPORT, REPORT, WANTED,
};
use audit_expect::{CaptureCheckError, check_capture};
use capture_core::Capture;
use capture_monitor::read_edges;
use expect_run::Tally;
use record_core::Form;
use std::process::Abort;
use text_core::Writes;

fn holds(rt: &impl Abort, holds: bool, case: &str) {
    assert!(rt; holds, "{case}");
}

/// Appends a time in which the line is low.
fn add_low(rt: &(impl Abort + AllocGlobal), text: &mut String, from: u64, to: u64) {
    let lines = format!(in rt.alloc(); "{from} 0\n{to} 1\n").expect(rt, "edges");
    text.push_str(&lines).expect(rt, "edges");
}

/// Appends the edges of a frame of the nominal times.
fn add_frame(rt: &(impl Abort + AllocGlobal), text: &mut String, begin: u64, bits: &str) {
    add_low(rt, text, begin, begin.saturating_add(3_700));
    let mut slot = begin.saturating_add(4_500);
    for bit in bits.bytes() {
        let low = if bit == b'1' { 600 } else { 1_500 };
        add_low(rt, text, slot, slot.saturating_add(low));
        slot = slot.saturating_add(2_400);
    }
}

fn captured(rt: &(impl Abort + AllocGlobal), frames: &str) -> Capture {
    let mut text = String::new(rt.alloc());
    for line in frames.lines() {
        let (begin, bits) = line.split_once(' ').expect(rt, line);
        add_frame(rt, &mut text, begin.parse().expect(rt, line), bits);
    }
    let end = format!(in rt.alloc(); "{END} end\n").expect(rt, "an end");
    text.push_str(&end).expect(rt, "an end");
    read_edges(rt.alloc(), text.as_bytes()).expect(rt, "a capture")
}

fn reported(rt: &(impl Abort + AllocGlobal), done: Result<Tally, CaptureCheckError>) -> String {
    match done {
        Ok(Tally { count, failed }) => {
            format!(in rt.alloc(); "{failed} of {count}").expect(rt, "a tally")
        }
        Err(CaptureCheckError::Expect(fault)) => {
            let word = fault.word;
            format!(in rt.alloc(); "expectations {fault} in word {word}").expect(rt, "a refusal")
        }
        Err(error) => format!(in rt.alloc(); "{error}").expect(rt, "a refusal"),
    }
}

/// The report of expectations, and its counts, or why there is none.
fn report_of(
    rt: &(impl Abort + AllocGlobal),
    expectations: &str,
    capture: &Capture,
) -> (String, String) {
    report_in(rt, Form::Text, expectations, capture)
}

/// The same in a form.
fn report_in(
    rt: &(impl Abort + AllocGlobal),
    form: Form,
    expectations: &str,
    capture: &Capture,
) -> (String, String) {
    let mut out = Vec::new(rt.alloc());
    let done = check_capture(
        rt.alloc(),
        form,
        expectations.as_bytes(),
        capture,
        &mut Writes::new(&mut out),
    );
    (
        String::from_utf8(out).expect(rt, "a text"),
        reported(rt, done),
    )
}

#[test]
fn readings_are_judged(rt: HostRuntime) {
    let (text, counts) = report_of(&rt, EXPECTED, &captured(&rt, FRAMES));
    holds(&rt, counts.as_str() == "3 of 9", "counts");
    holds(&rt, text.as_str() == REPORT, "report");
}

#[test]
fn reports_of_captures_are_objects(rt: HostRuntime) {
    let (text, counts) = report_in(&rt, Form::Json, EXPECTED, &captured(&rt, FRAMES));
    holds(&rt, counts.as_str() == "3 of 9", "counts");
    holds(&rt, text.as_str() == OBJECTS, "objects");
}

#[test]
fn remarks_are_judged(rt: HostRuntime) {
    let capture = read_edges(rt.alloc(), REMARKED.as_bytes()).expect(&rt, "a capture");
    let (text, counts) = report_of(&rt, WANTED, &capture);
    holds(&rt, counts.as_str() == "4 of 8", "counts");
    holds(&rt, text.as_str() == REMARKS_REPORT, "report");
}

#[test]
fn nothing_is_expected(rt: HostRuntime) {
    let (text, counts) = report_of(&rt, "", &captured(&rt, FRAMES));
    holds(&rt, counts.as_str() == "0 of 0", "counts");
    holds(&rt, text.as_str() == "TAP version 13\n1..0\n", "report");
}

fn fault_of(rt: &(impl Abort + AllocGlobal), row: &str) -> String {
    let text = row.replace(rt.alloc(), "|", "\n").expect(rt, row);
    let (report, reported) = report_of(rt, &text, &captured(rt, FRAMES));
    match report.as_str() {
        "" => reported,
        _ => String::from_str(rt.alloc(), "none").expect(rt, row),
    }
}

#[test]
fn the_first_line_at_fault_is_found(rt: HostRuntime) {
    for line in FAULTS.lines() {
        let (row, want) = line.rsplit_once(" => ").expect(&rt, line);
        holds(&rt, fault_of(&rt, row).as_str() == want, line);
    }
}
