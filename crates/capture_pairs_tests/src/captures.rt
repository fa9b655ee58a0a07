//! Captures made of frames, and a writer that fails.
use capture_core::Capture;
use capture_monitor::read_edges;
use std::io::{self, ErrorKind, Write};
use std::process::Abort;

pub(crate) fn holds(rt: &impl Abort, holds: bool, case: &str) {
    assert!(rt; holds, "{case}");
}

/// Appends a time in which the line is low.
fn add_low(rt: &(impl Abort + AllocGlobal), text: &mut String, from: u64, to: u64) {
    let lines = format!(in rt.alloc(); "{from} 0\n{to} 1\n").expect(rt, "edges");
    text.push_str(&lines).expect(rt, "edges");
}

/// Appends the edges of a frame of the nominal times.
fn add_frame(rt: &(impl Abort + AllocGlobal), text: &mut String, begin: u64, bits: &str) {
    add_low(rt, text, begin, begin.saturating_add(3_700));
    let mut slot = begin.saturating_add(4_500);
    for bit in bits.bytes() {
        let low = if bit == b'1' { 600 } else { 1_500 };
        add_low(rt, text, slot, slot.saturating_add(low));
        slot = slot.saturating_add(2_400);
    }
}

/// Appends what a line says: `BEGIN BITS` is a frame, `low FROM TO` a time in which the line is low.
fn add_line(rt: &(impl Abort + AllocGlobal), text: &mut String, line: &str) {
    let (begin, bits) = line.split_once(' ').expect(rt, line);
    if begin == "low" {
        let (from, to) = bits.split_once(' ').expect(rt, line);
        add_low(
            rt,
            text,
            from.parse().expect(rt, line),
            to.parse().expect(rt, line),
        );
    } else {
        add_frame(rt, text, begin.parse().expect(rt, line), bits);
    }
}

/// The capture of these lines, which ends at 2,000,000.
pub(crate) fn captured(rt: &(impl Abort + AllocGlobal), frames: &str) -> Capture {
    let mut text = String::new(rt.alloc());
    for line in frames.lines() {
        add_line(rt, &mut text, line);
    }
    text.push_str("2000000 end\n").expect(rt, "an end");
    read_edges(rt.alloc(), text.as_bytes()).expect(rt, "a capture")
}

/// A writer that takes one byte a call, as many as it has room for.
#[derive(Drop)]
pub(crate) struct Narrow {
    pub(crate) bytes: Vec<u8>,
    pub(crate) room: usize,
}

impl Write for Narrow {
    fn write(&mut self, bytes: &[u8]) -> io::Result<usize> {
        if self.bytes.len() >= self.room {
            return Err(io::Error::from(ErrorKind::Other));
        }
        let taken = bytes.get(..1).unwrap_or(bytes);
        self.bytes.extend_from_slice(taken)?;
        Ok(taken.len())
    }

    fn flush(&mut self) -> io::Result<()> {
        Ok(())
    }
}
