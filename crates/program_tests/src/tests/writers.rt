//! Writers that fail, everywhere.
use super::*;
use std::process::Abort;

const PAIR: &str =
    "device tv tv 4\ndevice p1 player 0\nplug p1 tv 1\nscript\nat 1000000 press p1 play\nend 1300000\n";

const FRAMES: &str = "4>f active-source 1.0.0.0\n4>0 play forward\n4>4\n";

const LAID: &str = "5 last 2 4>4\n20000 drive 1 4>4\n";

/// A start bit and a bit 1, after which the line stays high.
const EDGES: &str = "1000 0\n4700 1\n5500 0\n6100 1\n20000 end\n";

/// What is said of them on standard error.
const SHORT: &str =
    "hdminet: verdict short: no block of a frame is read, the capture is short, low stretches: 2\n";

/// A poll that nobody answers, of which nothing is to say.
const POLLS: &str = "\
12000 0
15700 1
16500 0
18000 1
18900 0
20400 1
21300 0
22800 1
23700 0
25200 1
26100 0
27600 1
28500 0
30000 1
30900 0
32400 1
33300 0
34800 1
35700 0
36300 1
38100 0
38700 1
60000 end
";

/// A start bit and a bit 1, twice, for a comparison.
const TWICE: &str =
    "1000 0\n4700 1\n5500 0\n6100 1\n20000 end\ncapture\n1000 0\n4700 1\n5500 0\n6100 1\n20000 end\n";

/// The same as rows, of two wires.
const LEVELS: &str =
    "Time [s],HPD,CEC\n0.0,1,1\n0.001,1,0\n0.0047,1,1\n0.0055,1,0\n0.0061,1,1\n0.02,1,1\n";

const STEPS: &str =
    "device tv tv 1\nscript\nend 200000\nsteps\nedge\nedge\nedge\nround\nuntil break\n";

const TELEVISION: &str = "device tv tv 1\nscript\nend 200000\n";

/// A television polls address 0, and the script ends before the round has closed.
const POLL: &str = "device tv tv 1\nscript\nend 20000\n";

/// A network under test, all of whose tests hold.
const TEST: &str = "device tv tv 4\nscript\nexpect once from 0 to 50000 0>0 nack\nend 60000\n";

/// A session of a television alone; after its end stands what no session looks at.
const SESSION: &str = "\
device tv tv 1
script
run to 50000
frob
# a remark
wait
end 178651
end 5
";

/// A command line and its input.
const WRITTEN: &[(&str, &str)] = &[
    ("run", PAIR),
    ("asm", FRAMES),
    ("dis", "44\n4f:82:10:00\n"),
    ("dis --meaning", "44\n4f:82:10:00\n"),
    ("dis --json", "44\n4f:82:10:00\n"),
    ("dis --meaning --json", "44\n4f:82:10:00\n"),
    ("lay", LAID),
    ("lay --json", LAID),
    ("mon", EDGES),
    ("mon --follow --from edges", EDGES),
    ("mon --follow --from edges --audit", EDGES),
    ("mon --follow --from csv --signal CEC", LEVELS),
    ("run --edges", POLL),
    ("run --strict", TELEVISION),
    ("run --json", TELEVISION),
    ("run --json --room", TELEVISION),
    ("mon --json", POLLS),
    ("mon --report", POLLS),
    ("mon --verdict", POLLS),
    ("mon --as-test", POLLS),
    ("mon --diff", TWICE),
    ("check", TEST),
    ("check --trace", TEST),
    ("check --plain", TEST),
    ("step", STEPS),
    ("run", TELEVISION),
    ("", TELEVISION),
    ("live", SESSION),
    ("live --json", SESSION),
];

/// Writes byte by byte, into a writer with room for all and into one that fails after each count of bytes in turn.
fn is_cut(rt: &(impl Abort + AllocGlobal), line: &str, input: &[u8]) {
    let whole = written(rt, line, input);
    let whole = whole.as_bytes();
    let reported = reported_of(rt, line, input, Some(whole.len()));
    ends(rt, reported, 0, whole, b"", line, "byte by byte");
    expect(rt, !whole.is_empty(), line, "something written");
    for room in 0..whole.len() {
        writes_front(rt, line, input, &whole[..room]);
    }
}

#[test]
fn a_writer_that_fails_at_each_byte(rt: HostRuntime) {
    for row in WRITTEN {
        let (line, input) = *row;
        is_cut(&rt, line, input.as_bytes());
    }
}

/// What `mon --json` writes of a start bit and a bit 1.
const READ: &str =
    "{\"line\":\"1000 8251 silent 1\",\"type\":\"reading\",\"begin\":1000,\"close\":8251,\"ending\":\"silent\",\"bits\":\"1\"}\n";

#[test]
fn a_verdict_where_a_writer_fails(rt: HostRuntime) {
    let (line, input, read) = ("mon --json", EDGES.as_bytes(), READ.as_bytes());
    let reported = reported_of(&rt, line, input, Some(read.len()));
    ends(&rt, reported, 0, read, SHORT.as_bytes(), line, "a verdict");
    for room in [0, 1, 60] {
        writes_front(&rt, line, input, &read[..room]);
    }
}

/// The text of an EDID of a display.
const TEXT: &str = "\
edid 1.3
maker SAM
product 258
serial 1
made 10 2011
input 80
size 52 29
gamma 120
features 0a
chroma 655 338 307 614 154 61 320 337
established 000000
standard unused
standard unused
standard unused
standard unused
standard unused
standard unused
standard unused
standard unused
timing 14850 1920 280 1080 45 88 44 4 5 520 290 0 0 1e
name \"LOUNGE TV 001\"
dummy
dummy
cta f1
video 900403
audio 090707
speakers 010000
hdmi 0.0.0.0 -
tail -
";

#[test]
fn an_edid_and_its_text_into_a_writer_that_fails(rt: HostRuntime) {
    is_cut(&rt, "edid --text", TEXT.as_bytes());
    let digits = written(&rt, "edid --text", TEXT.as_bytes());
    let bytes = hex::decode(rt.alloc(), digits.as_str().trim_ascii()).expect(&rt, "hex digits");
    is_cut(&rt, "edid", &bytes);
    is_cut(&rt, "edid --as c", &bytes);
    is_cut(&rt, "edid --as xml", &bytes);
    is_cut(&rt, "edid --eld --meaning", &bytes);
}

/// A television polls its address at 12000, and is alone. Its key is refused.
const FAILS: &str = "device tv tv 4
script
label key at 50000 press tv play
expect none from 0 to 40000 0>0
expect within 1000 of key 0>f
end 400000
";

/// The report by hand. The poll is the first line of each example's trace; the event finds the wire at rest.
const FAILS_REPORT: &str = "\
TAP version 13
not ok 1 - line 2: expect none from 0 to 40000 0>0
# seen 1 from 0 to 40000
# 12000 39150 complete 0>0 nack by tv out -
not ok 2 - line 3: expect within 1000 of key 0>f
# seen 0 from 50000 to 51000
not ok 3 - line 1: refused not-for-kind
1..3
";

/// A television polls its address from 12000 to 39150, and is alone. Its key is taken at once.
const POLLED: &str = "device tv tv 4
script
expect from 12000 to 39148..39151 0>0 nack
label key at 500000 press tv mute
expect none from 0 to 40000 short
end 600000
";

const POLLED_STRETCHES: &str = "39148..39149 not-ok ok\n39150..39151 ok ok\n";

/// An expectation that does not hold, and a capture, whose one reading is `1000 8251 silent 1`.
const UNREAD: &str = "expect none from 0 to 9000 silent
capture
1000 0
4700 1
5500 0
6100 1
20000 end
";

const UNREAD_REPORT: &str = "\
TAP version 13
not ok 1 - line 1: expect none from 0 to 9000 silent
# seen 1 from 0 to 9000
# 1000 8251 silent 1
1..1
";

/// A report with tests that fail, of which there is room for so many bytes.
fn is_cut_where_tests_fail(
    rt: &(impl Abort + AllocGlobal),
    line: &str,
    input: &str,
    report: &str,
    fault: &str,
    rooms: &[usize],
) {
    let input = input.as_bytes();
    let report = report.as_bytes();
    let reported = reported_of(rt, line, input, Some(report.len()));
    ends(
        rt,
        reported,
        1,
        report,
        fault.as_bytes(),
        line,
        "byte by byte",
    );
    for room in rooms {
        let front = report.get(..*room).expect(rt, "a front");
        writes_front(rt, line, input, front);
    }
}

#[test]
fn a_report_into_a_writer_that_fails(rt: HostRuntime) {
    let failed = "hdminet: failed tests 3\n";
    is_cut_where_tests_fail(&rt, "check", FAILS, FAILS_REPORT, failed, &[0, 14, 70, 214]);
    let failed = "hdminet: failed tests in the range\n";
    is_cut_where_tests_fail(&rt, "check", POLLED, POLLED_STRETCHES, failed, &[0, 12, 23]);
    let failed = format!(in rt.alloc(); "hdminet: failed tests 1\n{SHORT}").expect(&rt, "a fault");
    let line = "check --capture";
    let failed = failed.as_str();
    is_cut_where_tests_fail(&rt, line, UNREAD, UNREAD_REPORT, failed, &[0, 14, 70]);
}

/// What is reported where a writer fails after one byte.
const WRITE_FAULT: &[u8] = b"hdminet: write fault after 1 bytes
  standard output takes no more: is the disk full, or the reader gone? What was written before is the front of the output
";

#[test]
fn a_write_fault_is_explained(rt: HostRuntime) {
    let input = b"4>4\n".as_slice();
    let reported = reported_of(&rt, "asm --explain", input, Some(1));
    ends(&rt, reported, 3, b"4", WRITE_FAULT, "asm", "a write fault");
}

#[test]
fn a_help_into_a_writer_that_fails(rt: HostRuntime) {
    writes_front(&rt, "--help", b"", b"Emulates ");
}
