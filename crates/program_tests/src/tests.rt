//! What the program does, over readers and writers that it is handed.
use program_calls::program::program;
use program_input::{Opens, Shelf};
use std::io::{self, ErrorKind, Read, Write};
use std::process::Abort;
use text_core::Writes;

mod faults;
mod files;
mod readers;
mod writers;

/// A writer that takes what it is handed, or, where its room is bounded, one byte at a time, and fails once that is full.
#[derive(Drop)]
struct Held {
    bytes: Vec<u8>,
    room: Option<usize>,
}

impl Write for Held {
    fn write(&mut self, bytes: &[u8]) -> io::Result<usize> {
        let taken = match self.room {
            None => bytes,
            Some(room) if self.bytes.len() >= room => {
                return Err(io::Error::from(ErrorKind::Other));
            }
            Some(_) => bytes.get(..1).unwrap_or(bytes),
        };
        self.bytes.extend_from_slice(taken)?;
        Ok(taken.len())
    }

    fn flush(&mut self) -> io::Result<()> {
        Ok(())
    }
}

/// What a run of the program answers and writes.
#[derive(Drop)]
struct Answer {
    status: u8,
    out: Vec<u8>,
    err: Vec<u8>,
}

/// Where a case does not come out right, its command line and its name are told.
fn expect(rt: &impl Abort, right: bool, line: &str, name: &str) {
    assert!(rt; right, "hdminet {line}: {name}");
}

/// The program's name, and the words of a command line after it.
fn words(rt: &(impl Abort + AllocGlobal), line: &str) -> Vec<String> {
    let mut words = Vec::new(rt.alloc());
    for word in ["hdminet"].into_iter().chain(line.split_whitespace()) {
        let word = String::from_str(rt.alloc(), word).expect(rt, "a word");
        words.push(word).expect(rt, "words");
    }
    words
}

/// Runs the program with these words and files, into a writer with this room, if it is bounded.
fn reported_from<F: Opens, R: Read + Drop>(
    rt: &(impl Abort + AllocGlobal),
    files: &F,
    words: Vec<String>,
    mut input: R,
    room: Option<usize>,
) -> Answer {
    let alloc = rt.alloc();
    let mut out = Held {
        bytes: Vec::new(alloc),
        room,
    };
    let mut err = Vec::new(alloc);
    let status = program(
        alloc,
        files,
        words,
        &mut input,
        Writes::new(&mut out),
        &mut Writes::new(&mut err),
    )
    .status;
    Answer {
        status,
        out: out.bytes,
        err,
    }
}

/// The same with the words of this line, and no file.
fn reported_of<R: Read + Drop>(
    rt: &(impl Abort + AllocGlobal),
    line: &str,
    input: R,
    room: Option<usize>,
) -> Answer {
    let files = Shelf {
        files: &[],
        is_typed: false,
    };
    reported_from(rt, &files, words(rt, line), input, room)
}

/// The program ended with this status, and wrote this to standard output and this to standard error.
fn ends(
    rt: &impl Abort,
    reported: Answer,
    status: u8,
    out: &[u8],
    err: &[u8],
    line: &str,
    name: &str,
) {
    let right = reported.status == status
        && reported.out.as_slice() == out
        && reported.err.as_slice() == err;
    expect(rt, right, line, name);
}

/// What the program writes to standard output, and nothing else.
fn written(rt: &(impl Abort + AllocGlobal), line: &str, input: &[u8]) -> String {
    let reported = reported_of(rt, line, input, None);
    expect(
        rt,
        reported.status == 0 && reported.err.is_empty(),
        line,
        "taken",
    );
    String::from_utf8(reported.out).expect(rt, "a text")
}

/// The program writes the front of a text where a writer fails.
fn writes_front(rt: &(impl Abort + AllocGlobal), line: &str, input: &[u8], front: &[u8]) {
    let fault = format!(in rt.alloc(); "hdminet: write fault after {} bytes\n", front.len());
    let fault = fault.expect(rt, "a fault");
    let reported = reported_of(rt, line, input, Some(front.len()));
    ends(
        rt,
        reported,
        3,
        front,
        fault.as_bytes(),
        line,
        fault.as_str(),
    );
}
