//! Captured lines, spelled slot by slot.
use line_wave::Edge;
use std::process::Abort;

/// How long the line stays high at the end of a capture, in microseconds.
const TAIL: u64 = 20_000;

/// The edges of a line, and where it has come.
#[derive(Drop)]
pub(crate) struct Line {
    pub(crate) edges: Vec<Edge>,
    pub(crate) end: u64,
}

fn number(rt: &impl Abort, text: &str) -> u64 {
    text.parse::<u64>().ok().expect(rt, "a number")
}

/// The low and the high part of a word: `S` a start bit, `0` and `1` bits of nominal times, or both parts in microseconds.
fn parts(rt: &impl Abort, word: &str) -> (u64, u64) {
    match word {
        "S" => (3_700, 800),
        "0" => (1_500, 900),
        "1" => (600, 1_800),
        _ => {
            let (low, high) = word
                .split_once("/")
                .expect(rt, "a low part and a high part");
            (number(rt, low), number(rt, high))
        }
    }
}

fn push(rt: &impl Abort, line: &mut Line, low: bool) {
    let edge = Edge { at: line.end, low };
    line.edges.push(edge).ok().expect(rt, "an edge");
}

fn add(rt: &impl Abort, line: &mut Line, low: u64, high: u64) {
    push(rt, line, true);
    line.end = line.end.saturating_add(low);
    push(rt, line, false);
    line.end = line.end.saturating_add(high);
}

/// These words, one after another: `@N` waits until an instant, `|`, the last word, ends the capture there, and each other word is
/// low and then high.
pub(crate) fn line_of(rt: &(impl Abort + AllocGlobal), words: &str) -> Line {
    let mut line = Line {
        edges: Vec::new(rt.alloc()),
        end: 0,
    };
    let whole = words.strip_suffix(" |");
    for word in whole.unwrap_or(words).split_ascii_whitespace() {
        match word.strip_prefix("@") {
            Some(instant) => line.end = number(rt, instant),
            None => {
                let (low, high) = parts(rt, word);
                add(rt, &mut line, low, high);
            }
        }
    }
    if whole.is_none() {
        line.end = line.end.saturating_add(TAIL);
    }
    line
}
