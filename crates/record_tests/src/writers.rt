//! Writers that are short, and that fail.
use record_core::{Form, Value, add_record, cells};
use std::io::{self, ErrorKind, Write};
use std::process::Abort;
use text_core::{Counted, Piece, WriteFault, Writes};

const LINE: &str = "5 end\n";

const OBJECT: &str = "{\"line\":\"5 end\",\"type\":\"end\",\"at\":5}\n";

/// A writer that takes so many bytes a call, as many as it has room for, and counts the calls.
#[derive(Drop)]
struct Narrow {
    bytes: Vec<u8>,
    most: usize,
    room: usize,
    calls: u64,
}

impl Write for Narrow {
    fn write(&mut self, bytes: &[u8]) -> io::Result<usize> {
        self.calls = self.calls.saturating_add(1);
        let left = self.room.saturating_sub(self.bytes.len());
        let taken = bytes.len().min(self.most).min(left);
        if taken == 0 {
            return Err(io::Error::from(ErrorKind::Other));
        }
        self.bytes
            .extend_from_slice(bytes.get(..taken).unwrap_or(bytes))?;
        Ok(taken)
    }

    fn flush(&mut self) -> io::Result<()> {
        Ok(())
    }
}

/// Writes the last line of a trace, or its object.
fn written(out: &mut Narrow, form: Form) -> Result<u128, WriteFault> {
    let mut writes = Writes::new(out);
    let mut text = Counted::new(&mut writes);
    let cells = cells![
        both("", "at", Value::One(Piece::Decimal(5))),
        line(" end", Value::Nothing),
    ];
    add_record(&mut text, form, "end", &cells);
    text.written()
}

fn with_room(rt: &impl AllocGlobal, most: usize, room: usize) -> Narrow {
    Narrow {
        bytes: Vec::new(rt.alloc()),
        most,
        room,
        calls: 0,
    }
}

/// A writer with less room gets the front that fits, and its length is the count of the fault.
fn is_cut_off(rt: &(impl Abort + AllocGlobal), form: Form, want: &str) {
    for room in 0..want.len() {
        let mut out = with_room(rt, 1, room);
        match written(&mut out, form) {
            Ok(_) => assert!(rt; false, "{want}"),
            Err(fault) => assert!(rt; fault.count == room as u128, "{want}"),
        }
        assert!(rt;
            Some(out.bytes.as_slice()) == want.as_bytes().get(..room),
            "{want}"
        );
    }
}

#[test]
fn fronts_are_written(rt: HostRuntime) {
    is_cut_off(&rt, Form::Text, LINE);
    is_cut_off(&rt, Form::Json, OBJECT);
}

#[test]
fn writers_that_take_little(rt: HostRuntime) {
    for most in 1..=40usize {
        let mut out = with_room(&rt, most, 4_096);
        assert!(&rt;
            written(&mut out, Form::Json).ok() == Some(OBJECT.len() as u128),
            "its length"
        );
        assert!(&rt; out.bytes.as_slice() == OBJECT.as_bytes(), "all of it");
    }
}

#[test]
fn a_record_goes_out_in_one_call(rt: HostRuntime) {
    let mut out = with_room(&rt, 4_096, 4_096);
    assert!(&rt;
        written(&mut out, Form::Text).is_ok() && out.calls == 1,
        "a line"
    );
    assert!(&rt;
        written(&mut out, Form::Json).is_ok() && out.calls == 2,
        "an object"
    );
}

/// A line of 1,024 bytes in hex has an object of more than 4,096 bytes, which goes out in parts.
#[test]
fn long_records(rt: HostRuntime) {
    let bytes = [0x5a; 1_024];
    let cells = cells![both("", "edid", Value::One(Piece::Hex(&bytes)))];
    let mut out = Vec::new(rt.alloc());
    let mut writes = Writes::new(&mut out);
    let mut text = Counted::new(&mut writes);
    add_record(&mut text, Form::Json, "edid", &cells);
    assert!(&rt; text.written().ok() == Some(4_132), "its length");
    let object = String::from_utf8(out).expect(&rt, "a text");
    assert!(&rt; object.starts_with("{\"line\":\"5a5a"), "its line");
    assert!(&rt; object.ends_with("5a5a\"}\n"), "its end");
}
