//! Limits, at each of them and one past it, and scripts and traces that are long.
use crate::cases::{fault_of, holds, report_of};
use crate::rows::TOPOLOGY;
use std::process::Abort;

/// So many of a text, one after another.
fn repeated(rt: &(impl Abort + AllocGlobal), text: &str, count: usize) -> String {
    let mut all = String::new(rt.alloc());
    for _ in 0..count {
        all.push_str(text).expect(rt, "room");
    }
    all
}

/// Where an expectation of a pattern of so many bytes is at fault.
fn fault_of_pattern(rt: &(impl Abort + AllocGlobal), bytes: usize) -> String {
    let bits = repeated(rt, "0", bytes.saturating_sub(6));
    let script = format!(in rt.alloc(); "expect from 0 to 9 short {bits}\n").expect(rt, "a script");
    fault_of(rt, &script)
}

#[test]
fn a_pattern_has_160_bytes_at_most(rt: HostRuntime) {
    holds(&rt, fault_of_pattern(&rt, 160).as_str() == "none", "160");
    holds(
        &rt,
        fault_of_pattern(&rt, 161).as_str() == "line 1: word at 5",
        "161",
    );
}

/// The script of so many frames, 100,000 microseconds apart, of which none is expected.
fn unexpected(rt: &(impl Abort + AllocGlobal), frames: u64) -> String {
    let mut script = String::new(rt.alloc());
    let mut at = 1_000_000u64;
    for _ in 0..frames {
        let line = format!(in rt.alloc(); "at {at} send p1 4>0 image-view-on\n").expect(
            rt, "a line",
        );
        script.push_str(&line).expect(rt, "room");
        at = at.saturating_add(100_000);
    }
    script
        .push_str("expect none from 1000000 to 2000000 4>0\nend 2000000\n")
        .expect(rt, "room");
    script
}

/// The report of it, of which the first eight frames are shown. A frame of two blocks is read 51,150 after it began.
fn report_of_unexpected(rt: &(impl Abort + AllocGlobal), frames: u64) -> String {
    let number = frames.saturating_add(1);
    let mut report = format!(in rt.alloc();
        "TAP version 13\nnot ok 1 - line {number}: expect none from 1000000 to 2000000 4>0\n# seen {frames} from 1000000 to 2000000\n"
    ).expect(rt, "a report");
    let mut at = 1_000_000u64;
    for _ in 0..frames.min(8) {
        let end = at.saturating_add(51_150);
        let line = format!(in rt.alloc();
            "# {at} {end} complete 4>0 image-view-on ack by p1 out -\n"
        ).expect(rt, "a line");
        report.push_str(&line).expect(rt, "room");
        at = at.saturating_add(100_000);
    }
    report.push_str("1..1\n").expect(rt, "room");
    report
}

#[test]
fn eight_rounds_are_shown_at_most(rt: HostRuntime) {
    for frames in 7..10u64 {
        let (text, counts) = report_of(&rt, TOPOLOGY, &unexpected(&rt, frames));
        holds(&rt, counts.as_str() == "1 of 1", "counts");
        holds(&rt, text == report_of_unexpected(&rt, frames), "a report");
    }
}

#[test]
fn a_script_has_any_number_of_lines(rt: HostRuntime) {
    let remarks = repeated(&rt, "#\n", 70_000);
    let script = format!(in rt.alloc(); "{remarks}end 10\n").expect(&rt, "a script");
    let (text, counts) = report_of(&rt, TOPOLOGY, &script);
    holds(&rt, counts.as_str() == "0 of 0", "counts");
    holds(&rt, text.as_str() == "TAP version 13\n1..0\n", "report");
}

/// So many of a line, each with a label of its own.
fn labelled(rt: &(impl Abort + AllocGlobal), line: &str, count: u64) -> String {
    let mut all = String::new(rt.alloc());
    for number in 0..count {
        let line = format!(in rt.alloc(); "label l{number} {line}\n").expect(rt, line);
        all.push_str(&line).expect(rt, "room");
    }
    all
}

/// Of each event that is refused a line of 31 bytes at least is kept.
#[test]
fn a_report_needs_any_number_of_lines(rt: HostRuntime) {
    let events = labelled(&rt, "at 5 press tv eject", 5_000);
    let script = format!(in rt.alloc(); "{events}end 10\n").expect(&rt, "a script");
    let (text, counts) = report_of(&rt, TOPOLOGY, &script);
    holds(&rt, counts.as_str() == "5000 of 5000", "counts");
    let end = "not ok 5000 - line 5000: refused not-for-kind\n1..5000\n";
    holds(&rt, text.ends_with(end), "report");
}

#[test]
fn a_script_has_any_number_of_expectations(rt: HostRuntime) {
    let expectations = labelled(&rt, "expect from 0 to 9 short", 5_000);
    let script = format!(in rt.alloc(); "{expectations}end 10\n").expect(&rt, "a script");
    let (text, counts) = report_of(&rt, TOPOLOGY, &script);
    holds(&rt, counts.as_str() == "5000 of 5000", "counts");
    let end =
        "not ok 5000 - line 5000: label l4999 expect from 0 to 9 short\n# seen 0 from 0 to 9\n1..5000\n";
    holds(&rt, text.ends_with(end), "report");
}

#[test]
fn a_script_has_any_number_of_states(rt: HostRuntime) {
    let states = repeated(&rt, "expect state 5 tv on\n", 200);
    let script = format!(in rt.alloc(); "{states}end 10\n").expect(&rt, "a script");
    let (text, counts) = report_of(&rt, TOPOLOGY, &script);
    holds(&rt, counts.as_str() == "0 of 200", "counts");
    let end = "ok 200 - line 200: expect state 5 tv on\n1..200\n";
    holds(&rt, text.ends_with(end), "report");
}
