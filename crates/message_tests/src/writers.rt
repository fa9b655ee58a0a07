//! Frames in hex as sentences, into a writer that fails. What they are stands in tests/cases/dis.txt.
use message_hex::DisError;
use message_meaning::dis_lines;
use record_core::Form;
use std::io::{self, ErrorKind, Write};
use std::process::Abort;
use text_core::Writes;

fn holds(rt: &impl Abort, holds: bool, case: &str) {
    assert!(rt; holds, "{case}");
}

/// A writer that takes one byte a call, as many as it has room for.
#[derive(Drop)]
struct Narrow {
    bytes: Vec<u8>,
    room: usize,
}

impl Write for Narrow {
    fn write(&mut self, bytes: &[u8]) -> io::Result<usize> {
        if self.bytes.len() >= self.room {
            return Err(io::Error::from(ErrorKind::Other));
        }
        let taken = bytes.get(..1).unwrap_or(bytes);
        self.bytes.extend_from_slice(taken)?;
        Ok(taken.len())
    }

    fn flush(&mut self) -> io::Result<()> {
        Ok(())
    }
}

/// A writer with this much room gets the front of the text that fits, and its length is the count of the fault.
fn is_cut_off(
    rt: &(impl Abort + AllocGlobal),
    text: &str,
    form: Form,
    meaning: bool,
    want: &str,
    room: usize,
) -> bool {
    let mut out = Narrow {
        bytes: Vec::new(rt.alloc()),
        room,
    };
    let done = dis_lines(text.as_bytes(), form, meaning, &mut Writes::new(&mut out));
    let count = match done {
        Ok(()) => want.len() as u128,
        Err(DisError::Write(fault)) => fault.count,
        Err(DisError::Line(_)) => return false,
    };
    count == room as u128 && Some(out.bytes.as_slice()) == want.as_bytes().get(..room)
}

#[test]
fn a_writer_that_fails_has_the_front(rt: HostRuntime) {
    let text = "4f a6 06\n# none\n44\n";
    let want = "4>f op-a6 :06 # report-features\n4>4\n";
    for room in 0..=want.len() {
        holds(
            &rt,
            is_cut_off(&rt, text, Form::Text, false, want, room),
            want,
        );
    }
    let text = "4f a6 06\n# none\n44\n";
    let want =
        "4>f op-a6 :06 # report-features\n  Playback Device 1 sends all devices op-a6: report-features (operands 06)\n4>4\n  a device asks whether it may be Playback Device 1\n";
    for room in 0..=want.len() {
        holds(
            &rt,
            is_cut_off(&rt, text, Form::Text, true, want, room),
            want,
        );
    }
    let text = "44\n";
    let want =
        "{\"line\":\"4>4\",\"type\":\"frame\",\"frame\":\"4>4\",\"word\":null,\"initiator\":\"4\",\"destination\":\"4\",\"opcode\":null,\"name\":null,\"operands\":null,\"bytes\":\"44\"}\n";
    for room in 0..=want.len() {
        holds(
            &rt,
            is_cut_off(&rt, text, Form::Json, false, want, room),
            want,
        );
    }
}
