//! Receivers that hear a line from edge to edge.
use crate::lines::laid;
use crate::words::{bits_text, number, stretches_of};
use arrayvec::ArrayVec;
use line_frames::Ending;
use line_reading::{Receiver, Told};
use line_wave::Stretch;
use std::process::Abort;

/// No line of these tests goes on longer.
const END: u64 = 2_000_000;

/// A receiver that is told edges, whether the line is low, how often something was told, and what last, and when; and the
/// bits of its first reading, and when and how that ended.
#[derive(Drop)]
struct Listener {
    receiver: Receiver,
    low: bool,
    count: u32,
    at: u64,
    reported: Told,
    bits: ArrayVec<bool, 160>,
    ended: Option<(u64, Ending)>,
}

impl Listener {
    fn new() -> Self {
        Listener {
            receiver: Receiver::new(),
            low: false,
            count: 0,
            at: 0,
            reported: Told::Nothing,
            bits: ArrayVec::new(),
            ended: None,
        }
    }

    fn end(&mut self, t: u64, ending: Ending) {
        if self.ended.is_none() {
            self.ended = Some((t, ending));
        }
    }

    fn read(&mut self, bit: bool) {
        if self.ended.is_none() {
            let _ = self.bits.try_push(bit);
        }
    }

    fn take_reported(&mut self, t: u64, reported: Told) {
        match reported {
            Told::Nothing => {}
            Told::Bit(_, bit) => self.read(bit),
            Told::Last(bit, ending) => {
                self.read(bit);
                self.end(t, ending);
            }
            Told::Ended(ending) => self.end(t, ending),
        }
    }

    fn tick(&mut self, t: u64) {
        if t <= END {
            match self.receiver.tick(t) {
                Told::Nothing => {}
                reported => {
                    self.count = self.count.saturating_add(1);
                    self.at = t;
                    self.reported = reported;
                    self.take_reported(t, reported);
                }
            }
        }
    }

    /// Ticks at each wake before `t`.
    fn wait(&mut self, t: u64) {
        for _wake in 0..200 {
            let Some(wake) = self.receiver.wakes_at() else {
                return;
            };
            if wake >= t {
                return;
            }
            self.tick(wake);
        }
    }

    /// The line falls, or rises where it is low.
    fn hear(&mut self, t: u64) {
        self.wait(t);
        if self.low {
            self.receiver.rise(t);
        } else {
            self.receiver.fall(t);
        }
        self.low = !self.low;
        self.tick(t);
    }

    fn hear_line(&mut self, line: &[Stretch]) {
        for stretch in line {
            self.hear(stretch.from);
            self.hear(stretch.to);
        }
    }

    /// An instant at which the line falls or rises, one at which it stays as it is, or what a sender pulls.
    fn take(&mut self, rt: &impl Abort, word: &str) {
        if let Some(at) = word.strip_prefix('.') {
            self.tick(u64::from(number(rt, at)));
        } else if word.contains(':') {
            self.hear_line(laid(rt, word).as_slice());
        } else {
            self.hear(u64::from(number(rt, word)));
        }
    }
}

/// A receiver of a line that falls and rises in turn at these instants.
fn listener_of(rt: &impl Abort, words: &str) -> Listener {
    let mut listener = Listener::new();
    for word in words.split_whitespace() {
        listener.take(rt, word);
    }
    listener
}

/// What is reported last, and when.
pub(crate) fn last_text(rt: &(impl Abort + AllocGlobal), words: &str) -> String {
    let mut listener = listener_of(rt, words);
    listener.wait(END);
    format!(in rt.alloc(); "{} {:?}", listener.at, listener.reported).expect(rt, "a text")
}

/// When and how the first reading ends of a line of these stretches, or of what a sender pulls, and its bits.
pub(crate) fn read_text(rt: &(impl Abort + AllocGlobal), words: &str) -> String {
    let mut listener = Listener::new();
    if words.contains(':') {
        listener.hear_line(laid(rt, words).as_slice());
    } else {
        listener.hear_line(&stretches_of(rt, words));
    }
    listener.wait(END);
    let (at, ending) = listener.ended.expect(rt, "an ending");
    let bits = bits_text(rt, &listener.bits);
    format!(in rt.alloc(); "{at} {ending:?} [{bits}]").expect(rt, "a text")
}

/// Where it stands before it wakes again, when that is, and how often something was told.
pub(crate) fn standing_text(rt: &(impl Abort + AllocGlobal), words: &str) -> String {
    let listener = listener_of(rt, words);
    let (standing, wake) = (listener.receiver.standing(), listener.receiver.wakes_at());
    format!(in rt.alloc(); "{standing:?} {wake:?} {}", listener.count).expect(rt, "a text")
}

/// The instant at which its reading is due, where the next fall did not come in time: one about its next wake, or a dash.
pub(crate) fn due_text(rt: &(impl Abort + AllocGlobal), words: &str) -> String {
    let receiver = listener_of(rt, words).receiver;
    let wake = receiver.wakes_at().unwrap_or(1);
    let due = (wake.saturating_sub(1)..=wake.saturating_add(1)).find(|t| receiver.is_due(*t));
    match due {
        Some(at) => format!(in rt.alloc(); "{at}").expect(rt, "a text"),
        None => format!(in rt.alloc(); "-").expect(rt, "a text"),
    }
}
