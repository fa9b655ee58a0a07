//! A session over two pipes, and what went through them, in the order in which it did.
use live_dialogue::{SessionError, session};
use record_core::Form;
use std::cell::RefCell;
use std::io::{self, ErrorKind, Read, Write};
use std::process::Abort;
use text_core::{Buffered, Writes};

/// A reader that gives one line at each read, at most as many bytes as there is room for, and notes it. A line `#fault` can't
/// be read.
#[derive(Drop)]
struct Driver<'a> {
    rest: &'a [u8],
    said: &'a RefCell<Vec<u8>>,
}

impl<'a> Read for Driver<'a> {
    fn read(&mut self, buf: &mut [u8]) -> io::Result<usize> {
        if self.rest.starts_with(b"#fault") {
            return Err(io::Error::from(ErrorKind::Other));
        }
        let length = match self.rest.iter().position(|byte| *byte == b'\n') {
            Some(end) => end.saturating_add(1),
            None => self.rest.len(),
        };
        let length = length.min(buf.len());
        let (Some(line), Some(rest)) = (self.rest.get(..length), self.rest.get(length..)) else {
            return Ok(0);
        };
        let Some(place) = buf.get_mut(..length) else {
            return Err(io::Error::from(ErrorKind::Other));
        };
        place.copy_from_slice(line);
        if length > 0 {
            let Ok(mut said) = self.said.try_borrow_mut() else {
                return Err(io::Error::from(ErrorKind::Other));
            };
            said.extend_from_slice(b"> ")?;
            said.extend_from_slice(line)?;
            if !line.ends_with(b"\n") {
                said.extend_from_slice(b"\n")?;
            }
        }
        self.rest = rest;
        Ok(length)
    }
}

/// A writer that notes what it is handed, and fails once its room is full.
#[derive(Drop)]
struct Told<'a> {
    said: &'a RefCell<Vec<u8>>,
    room: usize,
}

impl<'a> Write for Told<'a> {
    fn write(&mut self, bytes: &[u8]) -> io::Result<usize> {
        let count = bytes.len().min(self.room);
        if count == 0 && !bytes.is_empty() {
            return Err(io::Error::from(ErrorKind::BrokenPipe));
        }
        let Some(taken) = bytes.get(..count) else {
            return Ok(0);
        };
        let Ok(mut said) = self.said.try_borrow_mut() else {
            return Err(io::Error::from(ErrorKind::Other));
        };
        said.extend_from_slice(taken)?;
        self.room = self.room.saturating_sub(count);
        Ok(count)
    }

    fn flush(&mut self) -> io::Result<()> {
        Ok(())
    }
}

/// What was said in a session with this input, in lines or in objects, over a writer with so much room, and how the session ended.
pub(crate) fn said_in(
    rt: &(impl Abort + AllocGlobal),
    form: Form,
    input: &[u8],
    room: usize,
) -> (Vec<u8>, Result<(), SessionError>) {
    let said = RefCell::new(Vec::new(rt.alloc()));
    let mut driver = Driver {
        rest: input,
        said: &said,
    };
    let mut out = Buffered::new(Writes::new(Told { said: &said, room }));
    let end = session(rt.alloc(), form, &mut driver, &mut out);
    drop(out);
    drop(driver);
    (said.into_inner(), end)
}

/// What was written of what was said: the lines that were sent are left out.
pub(crate) fn written_in(rt: &(impl Abort + AllocGlobal), said: &[u8]) -> Vec<u8> {
    let mut written = Vec::new(rt.alloc());
    for line in said.split_inclusive(|byte| *byte == b'\n') {
        if !line.starts_with(b"> ") {
            written.extend_from_slice(line).expect(rt, "a line");
        }
    }
    written
}

/// How a session ended: nothing where it came to its end.
pub(crate) fn end_of(rt: &(impl Abort + AllocGlobal), ended: &Result<(), SessionError>) -> String {
    match ended {
        Ok(()) => String::new(rt.alloc()),
        Err(error) => format!(in rt.alloc(); "{error}").expect(rt, "a text"),
    }
}
