//! Receivers that read by windows that are wider.
use crate::words::{is_reported, number};
use line_frames::Ending;
use line_reading::{MOST_MARGIN, Told, WideReceiver, Windows};
use std::process::Abort;

/// No line of these tests goes on longer.
const END: u64 = 1_000_000;

/// A margin, the instants at which a line falls and rises in turn, and when and how its first reading ends. Each width stands
/// at the border of its window, or one beside it: a start bit is low for 3,500 to 3,900 and lasts 4,300 to 4,700, a data bit
/// lasts 2,050 to 2,750, each wider by the margin.
const CASES: &str = "\
# Without a margin, the windows are the standard's.
0 1000 4500 5300 5900 => 8051 Silent
0 1000 4499 => 4499 BadStart
0 1000 4900 5700 6300 => 8451 Silent
0 1000 4901 => 4901 BadStart
# A start bit that is low for 3,200 and 4,200, and one beside each.
300 1000 4200 5500 6100 => 8551 Silent
300 1000 4199 => 4199 BadStart
300 1000 5200 5500 6100 => 8551 Silent
300 1000 5201 => 5201 BadStart
# A start bit of 4,000 and of 5,000, and one beside each.
300 1000 4700 5000 5600 => 8051 Silent
300 1000 4700 4999 => 4999 BadStart
300 1000 4700 6000 6600 => 9051 Silent
300 1000 4700 6001 => 6001 BadStart
# A bit of 1,750 and of 3,050, and one beside each. The sample stays where it is.
300 1000 4700 5500 6100 7250 7850 => 10301 Silent
300 1000 4700 5500 6100 7249 => 7249 Short
300 1000 4700 5500 6100 8550 9150 => 11601 Silent
300 1000 4700 5500 6100 8551 => 8551 Silent
# By 25: a start bit that is low for 3,475 and lasts 4,275, and one that is too short.
25 1000 4475 5275 5875 => 8051 Silent
25 1000 4474 => 4474 BadStart";

/// Ticks, and notes the first ending.
fn tick(receiver: &mut WideReceiver, t: u64, first: &mut Option<(u64, Ending)>) {
    if t <= END {
        if let Told::Ended(ending) = receiver.tick(t) {
            if first.is_none() {
                *first = Some((t, ending));
            }
        }
    }
}

/// Ticks at each wake before `t`.
fn wait(receiver: &mut WideReceiver, t: u64, first: &mut Option<(u64, Ending)>) {
    for _wake in 0..200 {
        let Some(wake) = receiver.wakes_at() else {
            return;
        };
        if wake >= t {
            return;
        }
        tick(receiver, wake, first);
    }
}

fn ending_text(rt: &(impl Abort + AllocGlobal), margin: u64, words: &str) -> String {
    let mut receiver = WideReceiver::new(Windows::wider(margin.min(MOST_MARGIN)));
    let mut first = None;
    let mut low = false;
    for word in words.split(' ') {
        let t = u64::from(number(rt, word));
        wait(&mut receiver, t, &mut first);
        if low {
            receiver.rise(t);
        } else {
            receiver.fall(t);
        }
        low = !low;
        tick(&mut receiver, t, &mut first);
    }
    wait(&mut receiver, END, &mut first);
    let (at, ending) = first.expect(rt, "an ending");
    format!(in rt.alloc(); "{at} {ending:?}").expect(rt, "a text")
}

/// Asserts that a case comes out as it was worked out. A comment is none.
fn comes_out(rt: &(impl Abort + AllocGlobal), case: &str) {
    if !case.starts_with('#') {
        let (asked, want) = case.split_once(" => ").expect(rt, "a case");
        let (margin, words) = asked.split_once(' ').expect(rt, "a margin");
        let ending = ending_text(rt, u64::from(number(rt, margin)), words);
        is_reported(rt, ending, want, case);
    }
}

#[test]
fn windows_are_wider(rt: HostRuntime) {
    for case in CASES.lines() {
        comes_out(&rt, case);
    }
}
