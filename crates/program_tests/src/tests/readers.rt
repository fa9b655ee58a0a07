//! Readers that are slow or fail.
use super::*;
use std::process::Abort;

/// A reader that gives one byte at a time, and then fails so or ends.
#[derive(Drop)]
struct Slow<'a> {
    rest: &'a [u8],
    fault: Option<ErrorKind>,
}

impl<'a> Read for Slow<'a> {
    fn read(&mut self, buf: &mut [u8]) -> io::Result<usize> {
        let Some((first, rest)) = self.rest.split_first() else {
            return match self.fault {
                Some(kind) => Err(io::Error::from(kind)),
                None => Ok(0),
            };
        };
        match buf.first_mut() {
            None => Ok(0),
            Some(place) => {
                *place = *first;
                self.rest = rest;
                Ok(1)
            }
        }
    }
}

/// The program reads nothing of an input, for this reason.
fn reads_nothing<R: Read + Drop>(rt: &(impl Abort + AllocGlobal), line: &str, input: R, why: &str) {
    let reported = reported_of(rt, line, input, None);
    ends(rt, reported, 3, b"", why.as_bytes(), line, why);
}

#[test]
fn reports_a_read_fault(rt: HostRuntime) {
    let broken = Slow {
        rest: b"",
        fault: Some(ErrorKind::Interrupted),
    };
    let slow = Slow {
        rest: b"4>4\n",
        fault: Some(ErrorKind::Other),
    };
    reads_nothing(&rt, "run", broken, "hdminet: read fault\n");
    reads_nothing(&rt, "asm", slow, "hdminet: read fault\n");
}

#[test]
fn reads_byte_by_byte(rt: HostRuntime) {
    let slow = Slow {
        rest: b"4>4\n4>f active-source 1.0.0.0",
        fault: None,
    };
    let reported = reported_of(&rt, "asm", slow, None);
    ends(
        &rt,
        reported,
        0,
        b"44\n4f821000\n",
        b"",
        "asm",
        "byte by byte",
    );
}
