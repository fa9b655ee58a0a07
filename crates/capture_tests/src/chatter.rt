//! A capture whose slow rises chatter.
use audit_core::watch_capture;
use capture_core::Capture;
use capture_forms::{CaptureForm, read_capture};
use capture_smooth::smooth_edges;
use std::process::Abort;
use text_core::Writes;

/// The low time of each slot of a poll from 4 to 4 that nobody acknowledges (HDMI 1.4 CEC, 5.2.1): a 0 is low for 1,500
/// microseconds, a 1 for 600.
const LOWS: &[u64] = &[1500, 600, 1500, 1500, 1500, 600, 1500, 1500, 600, 600];

fn push(rt: &(impl Abort + AllocGlobal), text: &mut String, at: u64, mark: &str) {
    let line = format!(in rt.alloc(); "{at} {mark}\n").expect(rt, "a line");
    text.push_str(&line).expect(rt, "a text");
}

/// A low time, and 2 microseconds after its rise a pulse of 4.
fn push_low(
    rt: &(impl Abort + AllocGlobal),
    text: &mut String,
    from: u64,
    low: u64,
    chatters: bool,
) {
    push(rt, text, from, "0");
    let rise = from.saturating_add(low);
    push(rt, text, rise, "1");
    if chatters {
        push(rt, text, rise.saturating_add(2), "0");
        push(rt, text, rise.saturating_add(6), "1");
    }
}

/// A poll, with a chatter in its third slot and in its ninth.
fn push_poll(rt: &(impl Abort + AllocGlobal), text: &mut String, from: u64) {
    push_low(rt, text, from, 3700, false);
    let mut at = from.saturating_add(4500);
    for (slot, low) in LOWS.iter().enumerate() {
        push_low(rt, text, at, *low, slot == 2 || slot == 8);
        at = at.saturating_add(2400);
    }
}

/// Sixteen polls, with 32 chatters.
fn polls(rt: &(impl Abort + AllocGlobal)) -> Capture {
    let mut text = String::new(rt.alloc());
    for poll in 1..17u64 {
        push_poll(rt, &mut text, poll.saturating_mul(60_000));
    }
    push(rt, &mut text, 1_100_000, "end");
    read_capture(
        rt.alloc(),
        CaptureForm::Edges,
        b"".as_slice(),
        text.as_bytes(),
    )
    .expect(rt, "a capture")
}

/// How many readings of a capture are polls that nobody acknowledged.
fn polls_in(rt: &(impl Abort + AllocGlobal), capture: &Capture) -> usize {
    let mut out = Vec::new(rt.alloc());
    watch_capture(capture, &mut Writes::new(&mut out)).expect(rt, "memory");
    let text = String::from_utf8(out).expect(rt, "a text");
    text.lines()
        .filter(|line| line.ends_with(" complete 4>4 nack"))
        .count()
}

#[test]
fn chatter_is_left_out(rt: HostRuntime) {
    let capture = polls(&rt);
    let left = smooth_edges(rt.alloc(), &capture, 50).expect(&rt, "memory");
    assert_eq!(&rt; polls_in(&rt, &capture), 0);
    assert_eq!(&rt; polls_in(&rt, &left), 16);
}
