//! Each call over writers that take few bytes a call, and that fail.
use capture_forms::CaptureForm;
use capture_monitor::watch;
use conversion_calls::{edid_to_text, text_to_hex};
use edid_texts::{edid_from_bytes, write_text};
use line_frames::Frame;
use message_text::{asm_lines, write_frame};
use record_core::Form;
use room_run::edges::emulate_edges;
use room_run::emulate::emulate;
use room_run::line::emulate_line;
use room_steps::step_run::step_run;
use std::fmt::Display;
use std::io::{self, ErrorKind, Write};
use std::process::Abort;
use text_core::Writes;

/// A writer that takes at most so many bytes a call. It fails once, where it has no room left, and takes bytes again after that:
/// what a call writes after a failed write is seen.
#[derive(Drop)]
struct Narrow {
    bytes: Vec<u8>,
    most: usize,
    room: usize,
}

impl Write for Narrow {
    fn write(&mut self, bytes: &[u8]) -> io::Result<usize> {
        let left = self.room.saturating_sub(self.bytes.len());
        if left == 0 {
            self.room = usize::MAX;
            return Err(io::Error::from(ErrorKind::Other));
        }
        let taken = bytes.get(..left.min(self.most)).unwrap_or(bytes);
        self.bytes.extend_from_slice(taken)?;
        Ok(taken.len())
    }

    fn flush(&mut self) -> io::Result<()> {
        Ok(())
    }
}

type Out<'a> = Writes<&'a mut Narrow>;

/// Why a call wrote no more, and nothing where it wrote all.
fn refusal<T: Drop, E: Display + Drop>(
    rt: &(impl Abort + AllocGlobal),
    outcome: Result<T, E>,
) -> String {
    match outcome {
        Ok(_) => String::new(rt.alloc()),
        Err(error) => format!(in rt.alloc(); "{error}").expect(rt, "a refusal"),
    }
}

/// A text up to the line of this word, and the text after that line.
fn parted<'a>(rt: &impl Abort, text: &'a str, line: &str) -> (&'a str, &'a str) {
    text.split_once(line).expect(rt, line)
}

fn run(rt: &(impl Abort + AllocGlobal), input: &str, out: &mut Out<'_>) -> String {
    let (topology, script) = parted(rt, input, "script\n");
    refusal(
        rt,
        emulate(rt.alloc(), topology.as_bytes(), script.as_bytes(), out),
    )
}

fn run_edges(rt: &(impl Abort + AllocGlobal), input: &str, out: &mut Out<'_>) -> String {
    let (topology, script) = parted(rt, input, "script\n");
    refusal(
        rt,
        emulate_edges(rt.alloc(), topology.as_bytes(), script.as_bytes(), out),
    )
}

fn run_line(
    rt: &(impl Abort + AllocGlobal),
    input: &str,
    format: CaptureForm,
    out: &mut Out<'_>,
) -> String {
    let (topology, script) = parted(rt, input, "script\n");
    refusal(
        rt,
        emulate_line(
            rt.alloc(),
            topology.as_bytes(),
            script.as_bytes(),
            format,
            out,
        ),
    )
}

fn step(rt: &(impl Abort + AllocGlobal), input: &str, out: &mut Out<'_>) -> String {
    let (topology, rest) = parted(rt, input, "script\n");
    let (script, steps) = parted(rt, rest, "steps\n");
    refusal(
        rt,
        step_run(
            rt.alloc(),
            Form::Text,
            topology.as_bytes(),
            script.as_bytes(),
            steps.as_bytes(),
            out,
        ),
    )
}

/// The bytes of a line of hex.
fn bytes_of(rt: &(impl Abort + AllocGlobal), digits: &str) -> Vec<u8> {
    hex::decode(rt.alloc(), digits.trim_end()).expect(rt, "hex digits")
}

fn spell_frame(rt: &(impl Abort + AllocGlobal), input: &str, out: &mut Out<'_>) -> String {
    let frame = Frame::new(&bytes_of(rt, input)).expect(rt, "a frame");
    refusal(rt, write_frame(&frame, out))
}

fn convert(rt: &(impl Abort + AllocGlobal), input: &str, out: &mut Out<'_>) -> String {
    refusal(rt, edid_to_text(&bytes_of(rt, input), out))
}

fn spell_edid(rt: &(impl Abort + AllocGlobal), input: &str, out: &mut Out<'_>) -> String {
    let edid = edid_from_bytes(&bytes_of(rt, input)).expect(rt, "an edid");
    refusal(rt, write_text(&edid, out))
}

/// The digits of an EDID's text, which is made of its digits first.
fn spell_digits(rt: &(impl Abort + AllocGlobal), input: &str, out: &mut Out<'_>) -> String {
    let mut text = Vec::new(rt.alloc());
    let made = edid_to_text(&bytes_of(rt, input), &mut Writes::new(&mut text));
    assert!(rt; made.is_ok(), "{input}");
    refusal(rt, text_to_hex(rt.alloc(), &text, out))
}

/// Makes the call of a row, and returns why it wrote no more.
fn call(rt: &(impl Abort + AllocGlobal), row: &Row<'_>, out: &mut Out<'_>) -> String {
    let input = row.input;
    match row.call {
        "emulate" => run(rt, input, out),
        "emulate_edges" => run_edges(rt, input, out),
        "emulate_line vcd" => run_line(rt, input, CaptureForm::Vcd, out),
        "emulate_line pin" => run_line(rt, input, CaptureForm::Pin, out),
        "emulate_line csv" => run_line(rt, input, CaptureForm::Csv, out),
        "step_run" => step(rt, input, out),
        "watch" => refusal(rt, watch(rt.alloc(), input.as_bytes(), out)),
        "asm_lines" => refusal(rt, asm_lines(input.as_bytes(), out)),
        "write_frame" => spell_frame(rt, input, out),
        "edid_to_text" => convert(rt, input, out),
        "write_text" => spell_edid(rt, input, out),
        _ => spell_digits(rt, input, out),
    }
}

/// What the call writes into a writer that takes so many bytes a call and has so much room, and why it wrote no more.
fn written(
    rt: &(impl Abort + AllocGlobal),
    row: &Row<'_>,
    most: usize,
    room: usize,
) -> (Vec<u8>, String) {
    let mut held = Narrow {
        bytes: Vec::new(rt.alloc()),
        most,
        room,
    };
    let reported = call(rt, row, &mut Writes::new(&mut held));
    (held.bytes, reported)
}

/// The call writes as much of its text as there is room for, and says how much that is where it is not all.
fn writes_front(rt: &(impl Abort + AllocGlobal), row: &Row<'_>, whole: &[u8], most: usize) {
    for room in 0..=whole.len() {
        let (bytes, reported) = written(rt, row, most, room);
        let right = match whole.get(..room) {
            Some(front) if room < whole.len() => {
                let fault = format!(in rt.alloc(); "write fault after {room} bytes");
                bytes.as_slice() == front && reported == fault.expect(rt, "a fault")
            }
            _ => bytes.as_slice() == whole && reported.is_empty(),
        };
        assert!(rt;
            right,
            "{}, {most} bytes a call, room for {room}: {reported}",
            row.call
        );
    }
}

/// How many bytes a writer takes a call: one, and as many as it is given.
const MOST: &[usize] = &[1, usize::MAX];

#[test]
fn each_call_writes_the_front_that_its_writer_takes(rt: HostRuntime) {
    for row in ROWS {
        let (whole, reported) = written(&rt, row, usize::MAX, usize::MAX);
        assert!(&rt; reported.is_empty() && !whole.is_empty(), "{}", row.call);
        for most in MOST {
            writes_front(&rt, row, &whole, *most);
        }
    }
}

/// A call, and what it is given. What it then writes stands in examples/ and in tests/cases.
struct Row<'a> {
    call: &'a str,
    input: &'a str,
}

const ROWS: &[Row<'static>] = &[
    Row {
        call: "emulate",
        input: FIRST_PATH,
    },
    Row {
        call: "emulate_edges",
        input: POLL,
    },
    Row {
        call: "emulate_line vcd",
        input: POLL,
    },
    Row {
        call: "emulate_line pin",
        input: POLL,
    },
    Row {
        call: "emulate_line csv",
        input: POLL,
    },
    Row {
        call: "step_run",
        input: STEPS,
    },
    Row {
        call: "watch",
        input: EDGES,
    },
    Row {
        call: "asm_lines",
        input: FRAMES,
    },
    Row {
        call: "write_frame",
        input: "44",
    },
    Row {
        call: "write_frame",
        input: "04475456",
    },
    Row {
        call: "edid_to_text",
        input: EDID,
    },
    Row {
        call: "write_text",
        input: EDID,
    },
    Row {
        call: "text_to_hex",
        input: EDID,
    },
];

/// A television with a player in its first port, whose key `play` is pressed.
const FIRST_PATH: &str = "\
device tv tv 4
device p1 player 0
plug p1 tv 1
script
at 1000000 press p1 play
end 1500000
";

/// A television that polls its address.
const POLL: &str = "device tv tv 1\nscript\nend 20000\n";

/// A television with a player, and single steps of their run.
const STEPS: &str = "\
device tv tv 4
device p1 player 0
plug p1 tv 1
script
end 400000
steps
until device p1
show p1
until opcode 84
until break
round
";

/// A captured line with two readings.
const EDGES: &str = "1000 0\n4700 1\n5500 0\n6100 1\n30000 0\n30400 1\n40000 end\n";

/// Frames as texts.
const FRAMES: &str = "\
# The player takes its address, and is asked for its name.
4>4
0>4 give-osd-name
4>0 set-osd-name \"P1\"
0>4 play :99
";

/// An EDID of two blocks.
const EDID: &str =
    "00ffffffffffff0010ac0041000000000c1e0104a53c22783eee91a3544c99260f5054a54b008180a9c0d1c001010101010101010101023a801871382d40582c450056502100001e000000ff00434656394e303132330a202020000000fc004445534b204d4f4e49544f520a000000fd00314b1e5311010a202020202020018f020315f14590040302012309070783010000e200ca011d007251d01e206e28550056502100001e00000000000000000000000000000000000000000000000000000000000000000000000000000000000000000000000000000000000000000000000000000000000000000000000000000000000000000000000000000000ed\n";
