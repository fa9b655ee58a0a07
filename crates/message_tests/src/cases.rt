//! Each row through the call that the program makes.
use crate::rows::{LAID, REFUSED};
use message_lay::{LayError, lay_lines};
use record_core::Form;
use std::process::Abort;
use text_core::Writes;

/// What is written of a text, or why nothing is, and the word at fault.
fn written(rt: &(impl Abort + AllocGlobal), text: &str, form: Form) -> String {
    let mut out = Vec::new(rt.alloc());
    match lay_lines(text.as_bytes(), form, &mut Writes::new(&mut out)) {
        Ok(()) => String::from_utf8(out).expect(rt, "a text"),
        Err(LayError::Line(fault)) => {
            format!(in rt.alloc(); "{fault} {}", fault.word).expect(rt, "a refusal")
        }
        Err(LayError::Write(fault)) => format!(in rt.alloc(); "{fault}").expect(rt, "a fault"),
    }
}

/// Its lines.
fn reported(rt: &(impl Abort + AllocGlobal), text: &str) -> String {
    written(rt, text, Form::Text)
}

fn holds(rt: &impl Abort, holds: bool, case: &str) {
    assert!(rt; holds, "{case}");
}

/// The lines of pulls, each of which is given as its begin and its width.
fn pulls_text(rt: &(impl Abort + AllocGlobal), pulls: &str) -> String {
    let mut text = String::new(rt.alloc());
    for pull in pulls.split(' ') {
        let (from, width) = pull.split_once("/").expect(rt, pull);
        let line = format!(in rt.alloc(); "pull {from} {width}\n").expect(rt, pull);
        text.push_str(&line).expect(rt, pull);
    }
    text
}

#[test]
fn frames_are_laid(rt: HostRuntime) {
    for row in LAID.lines() {
        let (input, want) = row.split_once(" => ").expect(&rt, row);
        holds(&rt, reported(&rt, input) == pulls_text(&rt, want), row);
    }
}

/// The objects of those pulls.
fn pull_objects(rt: &(impl Abort + AllocGlobal), pulls: &str) -> String {
    let mut text = String::new(rt.alloc());
    for pull in pulls.split(' ') {
        let (from, width) = pull.split_once("/").expect(rt, pull);
        let object = format!(in rt.alloc();
            "{{\"line\":\"pull {from} {width}\",\"type\":\"pull\",\"at\":{from},\"width\":{width}}}\n"
        ).expect(rt, pull);
        text.push_str(&object).expect(rt, pull);
    }
    text
}

#[test]
fn pulls_are_objects(rt: HostRuntime) {
    for row in LAID.lines() {
        let (input, want) = row.split_once(" => ").expect(&rt, row);
        holds(
            &rt,
            written(&rt, input, Form::Json) == pull_objects(&rt, want),
            row,
        );
    }
    let text = "1000000 44\n";
    holds(
        &rt,
        written(&rt, text, Form::Json) == reported(&rt, text),
        text,
    );
}

/// A line at fault is reported by its number, and nothing of the lines above it is written.
#[test]
fn other_lines_are_refused(rt: HostRuntime) {
    for row in REFUSED.lines() {
        let (input, want) = row.split_once(" => ").expect(&rt, row);
        let text = format!(in rt.alloc(); "# above\n\n{input}\n0 4>g\n").expect(&rt, row);
        let fault = format!(in rt.alloc(); "line 3: {want}").expect(&rt, row);
        holds(&rt, reported(&rt, &text) == fault, row);
    }
}

/// Lines are alike whatever way they say the same bytes.
fn are_alike(rt: &(impl Abort + AllocGlobal), one: &str, other: &str) {
    holds(rt, reported(rt, one) == reported(rt, other), one);
    holds(rt, !reported(rt, one).starts_with("line"), one);
}

#[test]
fn texts_of_frames_are_operands(rt: HostRuntime) {
    are_alike(
        &rt,
        "0 4>0 set-osd-name \"last 1 4>4\"",
        "0 blocks 40476c617374203120343e34",
    );
}

/// Frames follow one another, and a frame does not begin as the last pull above ends.
#[test]
fn frames_are_in_order(rt: HostRuntime) {
    let text = reported(&rt, "0 last 1 4>4\n# between\n\n6001 last 1 4>4");
    let want = "pull 0 3700\npull 4500 1500\npull 6001 3700\npull 10501 1500\n";
    holds(&rt, text.as_str() == want, want);
    let refused = reported(&rt, "0 last 1 4>4\n# between\n\n6000 last 1 4>4");
    holds(&rt, refused.as_str() == "line 4: order 0", "as it ends");
}

/// How many lines a text has.
fn lines_in(text: &str) -> usize {
    text.lines().count()
}

#[test]
fn more_blocks_than_a_frame_has(rt: HostRuntime) {
    let byte = "40";
    let seventeen = byte.repeat(rt.alloc(), 17).expect(&rt, "17 blocks");
    let text = format!(in rt.alloc(); "0 blocks {seventeen}").expect(&rt, "17 blocks");
    holds(&rt, lines_in(&reported(&rt, &text)) == 171, "17 blocks");
    let most = byte.repeat(rt.alloc(), 64).expect(&rt, "64 blocks");
    let text = format!(in rt.alloc(); "0 glitch 640 5000 1 blocks {most}").expect(&rt, "64 blocks");
    holds(&rt, lines_in(&reported(&rt, &text)) == 642, "64 blocks");
    let text = format!(in rt.alloc(); "0 blocks {most}40").expect(&rt, "65 blocks");
    holds(
        &rt,
        reported(&rt, &text).as_str() == "line 1: blocks 2",
        "65 blocks",
    );
}
