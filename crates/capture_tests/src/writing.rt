//! What is written, over writers that take one byte a call and that fail at each byte.
use audit_core::watch_capture;
use capture_forms::{CaptureForm, read_capture};
use line_wave::Stretch;
use std::io::{self, ErrorKind, Write};
use std::process::Abort;
use text_core::{Counted, WriteFault, Writes};

/// A writer that takes at most so many bytes a call. It fails once, where it has no room left, and takes bytes again after that.
#[derive(Drop)]
struct Narrow {
    bytes: Vec<u8>,
    most: usize,
    room: usize,
}

impl Write for Narrow {
    fn write(&mut self, bytes: &[u8]) -> io::Result<usize> {
        let left = self.room.saturating_sub(self.bytes.len());
        if left == 0 {
            self.room = usize::MAX;
            return Err(io::Error::from(ErrorKind::Other));
        }
        let taken = bytes.get(..left.min(self.most)).unwrap_or(bytes);
        self.bytes.extend_from_slice(taken)?;
        Ok(taken.len())
    }

    fn flush(&mut self) -> io::Result<()> {
        Ok(())
    }
}

type Out<'a> = Writes<&'a mut Narrow>;

/// A call, and the text that it writes.
type Row = (&'static str, &'static str);

const ROWS: &[Row] = &[
    (
        "vcd head",
        "$version hdminet $end\n$timescale 1 us $end\n$scope module hdmi $end\n$var wire 1 ! CEC $end\n$upscope $end\n$enddefinitions $end\n#0\n$dumpvars\n1!\n$end\n",
    ),
    (
        "vcd changes",
        "#12000\n0!\n#15700\n1!\n#1016500\n0!\n#2000000\n1!\n",
    ),
    ("vcd last", "#2030000\n"),
    (
        "pin head",
        "# cec-ctl --store-pin\n# version 1\n# start_monotonic 0.000000000\n# start_timeofday 0.000000\n# log_addr_mask 0x0000\n# phys_addr f.f.f.f\n0.000000000 1\n",
    ),
    ("pin fall", "1.016500000 0\n"),
    ("pin rise", "2.030000000 1\n"),
    ("csv head", "Time [s],CEC\n0.000000000,1\n"),
    (
        "csv changes",
        "0.012000000,0\n0.015700000,1\n1.016500000,0\n2.000000000,1\n",
    ),
    ("csv last", "2.030000000,1\n"),
    ("watch", "1000 4499 bad-start -\n9000 13000 open -\n"),
];

const STRETCHES: &[Stretch] = &[
    Stretch {
        from: 12_000,
        to: 15_700,
    },
    Stretch {
        from: 1_016_500,
        to: 2_000_000,
    },
];

/// A start bit that rises too early, and one that is open at the end.
const CAPTURE: &str = "1000 0\n4499 1\n9000 0\n12700 1\n13000 end\n";

fn watch(rt: &(impl Abort + AllocGlobal), out: &mut Out<'_>) -> Result<(), WriteFault> {
    let capture = read_capture(
        rt.alloc(),
        CaptureForm::Edges,
        b"".as_slice(),
        CAPTURE.as_bytes(),
    )
    .expect(rt, "a capture");
    watch_capture(&capture, out)
}

fn dump(name: &str, text: &mut Counted<'_, Out<'_>>) {
    match name {
        "vcd head" => capture_vcd::add_head(text),
        "vcd changes" => capture_vcd::add_changes(text, STRETCHES),
        _ => capture_vcd::add_last(text, 2_030_000),
    }
}

fn pins(name: &str, text: &mut Counted<'_, Out<'_>>) {
    match name {
        "pin head" => capture_pin::add_head(text),
        "pin fall" => capture_pin::add_fall(text, 1_016_500),
        _ => capture_pin::add_rise(text, 2_030_000),
    }
}

fn rows(name: &str, text: &mut Counted<'_, Out<'_>>) {
    match name {
        "csv head" => capture_csv::add_head(text),
        "csv changes" => capture_csv::add_changes(text, STRETCHES),
        _ => capture_csv::add_last(text, 2_030_000),
    }
}

fn write(name: &str, out: &mut Out<'_>) -> Result<(), WriteFault> {
    let mut text = Counted::new(out);
    match name.get(..3).unwrap_or(name) {
        "vcd" => dump(name, &mut text),
        "pin" => pins(name, &mut text),
        _ => rows(name, &mut text),
    }
    match text.written() {
        Ok(_) => Ok(()),
        Err(fault) => Err(fault),
    }
}

/// How many bytes a fault says were written, where there is one.
fn fault_of(outcome: Result<(), WriteFault>) -> Option<u128> {
    match outcome {
        Ok(()) => None,
        Err(fault) => Some(fault.count),
    }
}

fn call(rt: &(impl Abort + AllocGlobal), name: &str, out: &mut Out<'_>) -> Option<u128> {
    match name {
        "watch" => fault_of(watch(rt, out)),
        _ => fault_of(write(name, out)),
    }
}

/// The call writes as much of its text as there is room for, and returns how much that is where it is not all.
fn writes_front(rt: &(impl Abort + AllocGlobal), row: &Row, most: usize, room: usize) {
    let mut held = Narrow {
        bytes: Vec::new(rt.alloc()),
        most,
        room,
    };
    let reported = call(rt, row.0, &mut Writes::new(&mut held));
    let want = row.1.as_bytes();
    let right = match want.get(..room) {
        Some(front) if room < want.len() => {
            held.bytes.as_slice() == front && reported == Some(room as u128)
        }
        _ => held.bytes.as_slice() == want && reported.is_none(),
    };
    assert!(rt; right, "{}, {most} bytes a call, room for {room}", row.0);
}

/// How many bytes a writer takes a call: one, and as many as it is given.
const MOST: &[usize] = &[1, usize::MAX];

#[test]
fn each_call_writes_the_front_that_its_writer_takes(rt: HostRuntime) {
    for row in ROWS {
        for most in MOST {
            for room in 0..=row.1.len() {
                writes_front(&rt, row, *most, room);
            }
        }
    }
}
