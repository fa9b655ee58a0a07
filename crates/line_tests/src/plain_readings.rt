//! The readings of a list of edges, found in the plainest way: each question looks through all edges. It shares nothing
//! with the receiver. Times are microseconds.
use arrayvec::ArrayVec;
use line_frames::{Ending, Reading};
use line_wave::Edge;
use message_text::write_reading;
use std::alloc::Global;
use text_core::Writes;

// The start bit: its rise, and the fall of slot 1, both after its fall.
const EARLIEST_RISE: u64 = 3500;

const LATEST_RISE: u64 = 3900;

const EARLIEST_SLOTS: u64 = 4300;

const LATEST_SLOTS: u64 = 4700;

// A slot: its sample, and the fall of the next slot, both after its fall.
const SAMPLE: u64 = 1050;

const EARLIEST_NEXT: u64 = 2050;

const LATEST_NEXT: u64 = 2750;

const SLOTS_OF_A_BLOCK: usize = 10;

const MOST_SLOTS: usize = 160;

// The first edge to this level after an instant.
fn first_after(edges: &[Edge], low: bool, t: u64) -> Option<u64> {
    for edge in edges {
        if edge.low == low && edge.at > t {
            return Some(edge.at);
        }
    }
    None
}

fn is_high_at(edges: &[Edge], t: u64) -> bool {
    let mut is_high = true;
    for edge in edges {
        if edge.at <= t {
            is_high = !edge.low;
        }
    }
    is_high
}

// The fall of slot 1 after a start bit, or the instant at which the start bit is bad.
fn first_slot(edges: &[Edge], begin: u64) -> Result<u64, u64> {
    let rise = match first_after(edges, false, begin) {
        Some(rise) if rise <= begin.saturating_add(LATEST_RISE) => rise,
        _ => return Err(begin.saturating_add(LATEST_RISE + 1)),
    };
    if rise < begin.saturating_add(EARLIEST_RISE) {
        return Err(rise);
    }
    match first_after(edges, true, rise) {
        Some(fall) if fall < begin.saturating_add(EARLIEST_SLOTS) => Err(fall),
        Some(fall) if fall <= begin.saturating_add(LATEST_SLOTS) => Ok(fall),
        _ => Err(begin.saturating_add(LATEST_SLOTS + 1)),
    }
}

// How the slots from this fall on end, and when. The bits are those that are sampled by the end of the file.
fn slots(edges: &[Edge], first: u64, end: u64, bits: &mut ArrayVec<bool, 160>) -> (Ending, u64) {
    let mut fall = first;
    let mut is_last_block = false;
    for slot in 1..=MOST_SLOTS {
        let sample = fall.saturating_add(SAMPLE);
        let next = first_after(edges, true, fall);
        match next {
            Some(at) if at <= sample => return (Ending::Short, at),
            _ => {}
        }
        let bit = is_high_at(edges, sample);
        if sample <= end {
            let _ = bits.try_push(bit);
        }
        if slot % SLOTS_OF_A_BLOCK == SLOTS_OF_A_BLOCK - 1 {
            is_last_block = bit;
        }
        if slot % SLOTS_OF_A_BLOCK == 0 && is_last_block {
            return (Ending::Complete, sample);
        }
        if slot == MOST_SLOTS {
            return (Ending::Long, sample);
        }
        match next {
            Some(at) if at < fall.saturating_add(EARLIEST_NEXT) => return (Ending::Short, at),
            Some(at) if at <= fall.saturating_add(LATEST_NEXT) => fall = at,
            _ => return (Ending::Silent, fall.saturating_add(LATEST_NEXT + 1)),
        }
    }
    (Ending::Long, fall)
}

// The reading that begins at a fall, in a file with this end.
fn reading_from(edges: &[Edge], begin: u64, end: u64) -> Reading {
    let mut bits = ArrayVec::new();
    let (ending, at) = match first_slot(edges, begin) {
        Ok(fall) => slots(edges, fall, end, &mut bits),
        Err(at) => (Ending::BadStart, at),
    };
    if at <= end {
        Reading {
            begin,
            at,
            ending,
            bits,
        }
    } else {
        Reading {
            begin,
            at: end,
            ending: Ending::Open,
            bits,
        }
    }
}

// The first instant at which the next reading may begin: after the ending, or at it where nothing fell in time.
fn next_begin(reading: &Reading) -> u64 {
    let late_start = reading.begin.saturating_add(LATEST_SLOTS + 1);
    match reading.ending {
        Ending::Silent => reading.at,
        Ending::BadStart if reading.at == late_start => reading.at,
        _ => reading.at.saturating_add(1),
    }
}

/// The lines of the readings of these edges, in a file with this end. How the readings end is kept.
pub(crate) fn lines_of(
    alloc: Global,
    edges: &[Edge],
    end: u64,
    endings: &mut Vec<Ending>,
) -> Vec<u8> {
    let mut lines = Vec::new(alloc);
    let mut from = 0;
    for edge in edges {
        if edge.low && edge.at >= from {
            let reading = reading_from(edges, edge.at, end);
            from = next_begin(&reading);
            let _ = write_reading(&reading, &mut Writes::new(&mut lines));
            let _ = endings.push(reading.ending);
        }
    }
    lines
}
