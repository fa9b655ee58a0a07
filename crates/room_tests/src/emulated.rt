//! Dumps of runs into writers that take few bytes a call, and that fail. What they hold stands in tests/cases/drives.txt.
use room_driven::{Wires, emulate_drives};
use std::io::{self, ErrorKind, Write};
use std::process::Abort;
use text_core::Writes;

/// A writer that takes at most so many bytes a call. It fails once, where it has no room left, and takes bytes again after that.
#[derive(Drop)]
struct Narrow {
    bytes: Vec<u8>,
    most: usize,
    room: usize,
}

impl Write for Narrow {
    fn write(&mut self, bytes: &[u8]) -> io::Result<usize> {
        let left = self.room.saturating_sub(self.bytes.len());
        if left == 0 {
            self.room = usize::MAX;
            return Err(io::Error::from(ErrorKind::Other));
        }
        let taken = bytes.get(..left.min(self.most)).unwrap_or(bytes);
        self.bytes.extend_from_slice(taken)?;
        Ok(taken.len())
    }

    fn flush(&mut self) -> io::Result<()> {
        Ok(())
    }
}

/// A television with four ports, and a player in its first port.
const TOPOLOGY: &str = "\
device tv tv 4
device p1 player 0
plug p1 tv 1
";

/// The television polls its address.
const POLL: &str = "end 40000\n";

/// What is written of a run, and why it was refused, or an empty text.
#[derive(Drop)]
struct Written {
    bytes: Vec<u8>,
    refusal: String,
}

/// What is written of a poll into a writer that takes so many bytes a call, and fails where so many have come.
fn dumped(rt: &(impl Abort + AllocGlobal), wires: Wires, most: usize, room: usize) -> Written {
    let mut narrow = Narrow {
        bytes: Vec::new(rt.alloc()),
        most,
        room,
    };
    let mut out = Writes::new(&mut narrow);
    let outcome = emulate_drives(
        rt.alloc(),
        TOPOLOGY.as_bytes(),
        POLL.as_bytes(),
        wires,
        &mut out,
    );
    let refusal = match outcome {
        Ok(_) => String::new(rt.alloc()),
        Err(error) => format!(in rt.alloc(); "{error}").expect(rt, "a refusal"),
    };
    Written {
        bytes: narrow.bytes,
        refusal,
    }
}

/// These bytes are written, with this refusal.
fn is_written(rt: &impl Abort, reported: Written, bytes: &[u8], refusal: &str) {
    assert!(rt;
        reported.bytes.as_slice() == bytes,
        "another text, with `{refusal}`"
    );
    assert!(rt;
        reported.refusal.as_str() == refusal,
        "{}",
        reported.refusal
    );
}

/// A writer that fails at a byte has all bytes before it, and the count is reported; one that takes a byte a call has them all.
fn is_cut(rt: &(impl Abort + AllocGlobal), wires: Wires) {
    let whole = dumped(rt, wires, usize::MAX, usize::MAX);
    assert!(rt; whole.refusal.is_empty() && whole.bytes.starts_with(b"$version hdminet $end\n"));
    let whole = whole.bytes;
    is_written(rt, dumped(rt, wires, 1, usize::MAX), &whole, "");
    for room in 0..whole.len() {
        let refusal = format!(in rt.alloc(); "write fault after {room} bytes").expect(rt, "a text");
        let front = whole.get(..room).unwrap_or(b"");
        let reported = dumped(rt, wires, usize::MAX, room);
        is_written(rt, reported, front, refusal.as_str());
    }
}

#[test]
fn faults_come_at_each_byte(rt: HostRuntime) {
    is_cut(&rt, Wires::Plain);
}

#[test]
fn faults_come_at_each_byte_of_names(rt: HostRuntime) {
    is_cut(&rt, Wires::Named);
}
