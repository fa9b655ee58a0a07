//! How lines reach a writer: how often it is called, and what a failed write leaves.
use crate::samples::holds;
use std::io::{self, ErrorKind, Write};
use std::process::Abort;
use text_core::{Piece, Sink, WriteFault, Writes, write_line};

/// Counts its calls, takes at most so many bytes at each, and fails from one call on.
#[derive(Drop)]
struct Counted {
    calls: u32,
    fails_at: u32,
    step: usize,
    taken: usize,
}

impl Counted {
    fn new(fails_at: u32, step: usize) -> Self {
        Counted {
            calls: 0,
            fails_at,
            step,
            taken: 0,
        }
    }
}

impl Write for Counted {
    fn write(&mut self, bytes: &[u8]) -> io::Result<usize> {
        self.calls = self.calls.saturating_add(1);
        if self.calls >= self.fails_at {
            return Err(io::Error::from(ErrorKind::BrokenPipe));
        }
        let count = bytes.len().min(self.step);
        self.taken = self.taken.saturating_add(count);
        Ok(count)
    }

    fn flush(&mut self) -> io::Result<()> {
        Ok(())
    }
}

/// A line of 512 bytes: words, and bytes in hex.
fn line(bytes: &[u8; 252]) -> [Piece<'_>; 4] {
    [
        Piece::Text("port "),
        Piece::Text("a "),
        Piece::Hex(bytes),
        Piece::Text("\n"),
    ]
}

/// The longest line of a port: 512 bytes in hex.
fn port_line(bytes: &[u8; 512]) -> [Piece<'_>; 8] {
    [
        Piece::Decimal(1_000_000_000_000),
        Piece::Text(" port "),
        Piece::Bytes(b"a-long-name-14"),
        Piece::Text(" "),
        Piece::Decimal(15),
        Piece::Text(" "),
        Piece::Hex(bytes),
        Piece::Text("\n"),
    ]
}

/// What is reported of one line after another, and the writer's calls and bytes.
fn both_written(first: &[Piece], second: &[Piece]) -> Result<[u128; 4], WriteFault> {
    let mut writer = Counted::new(9, 10_000);
    let mut out = Writes::new(&mut writer);
    let first = write_line(&mut out, first)?;
    let second = write_line(&mut out, second)?;
    Ok([
        first,
        second,
        u128::from(writer.calls),
        writer.taken as u128,
    ])
}

#[test]
fn calls_the_writer_once_a_line(rt: HostRuntime) {
    let short = both_written(&line(&[0; 252]), &line(&[0; 252]));
    holds(&rt, short == Ok([512, 512, 2, 1_024]), "512 bytes");
    let long = both_written(&port_line(&[0; 512]), &port_line(&[0xff; 512]));
    holds(&rt, long == Ok([1_062, 1_062, 2, 2_124]), "a port's line");
}

/// What is reported of a line that is written in hundreds of bytes, one call of which fails, and how often the writer is called.
fn written(line: &[Piece], fails_at: u32) -> (Result<u128, WriteFault>, u32) {
    let mut writer = Counted::new(fails_at, 100);
    let reported = write_line(&mut Writes::new(&mut writer), line);
    (reported, writer.calls)
}

/// How many bytes are put after a line that was not written, and how often the writer is called.
fn put_after(line: &[Piece], fails_at: u32) -> (usize, u32) {
    let mut writer = Counted::new(fails_at, 100);
    let mut out = Writes::new(&mut writer);
    let _ = write_line(&mut out, line);
    let count = out.put(b"more");
    (count, writer.calls)
}

/// Whether a fault is told, with the bytes before it, and the writer not called again but for what is put then.
fn reports_fault(line: &[Piece], fails_at: u32) -> bool {
    let count = u128::from(fails_at.saturating_sub(1)) * 100;
    written(line, fails_at) == (Err(WriteFault { count }), fails_at)
        && put_after(line, fails_at) == (0, fails_at.saturating_add(1))
}

/// Asserts that each fault at one of the first calls is told.
fn reports_faults(rt: &impl Abort, line: &[Piece], calls: u32) {
    for fails_at in 1..=calls {
        assert!(rt; reports_fault(line, fails_at), "{fails_at}");
    }
}

#[test]
fn says_how_much_was_written_at_each_fault(rt: HostRuntime) {
    reports_faults(&rt, &line(&[0; 252]), 6);
    let long = port_line(&[0; 512]);
    reports_faults(&rt, &long, 11);
    holds(&rt, written(&long, 12) == (Ok(1_062), 11), "no fault");
}
