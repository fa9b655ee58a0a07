//! Each call of hdminet_library once, with what it writes, and once with a refusal.
use hdminet_library::{
    AssembleError, At, EdidError, EdidToTextError, EmulateError, Form, FrameLinesError,
    StepRunError, TextToHexError, TopologyCause, WatchError, Writes, asm_lines, edid_to_text,
    emulate, emulate_edges, step_run, text_to_hex, watch,
};
use std::alloc::Global;
use std::process::Abort;

/// A television with a player in its first port.
const TOPOLOGY: &[u8] = b"device tv tv 4\ndevice p1 player 0\nplug p1 tv 1\n";

/// The key `play` of the player is pressed.
const SCRIPT: &[u8] = b"at 1000000 press p1 play\nend 1500000\n";

const TRACE: &str = "\
12000 39150 complete 0>0 nack by tv out -
50705 77855 complete 4>4 nack by p1 out -
89405 212555 complete 0>f report-physical-address 0.0.0.0 tv ok by tv out -
224105 347255 complete 4>f report-physical-address 1.0.0.0 playback ok by p1 out -
1000000 event 1 ok
1000000 1051150 complete 4>0 image-view-on ack by p1 out -
1068400 1167550 complete 4>f active-source 1.0.0.0 ok by p1 out -
state tv tv 0 0.0.0.0 on active=1.0.0.0 path=1.0.0.0 deck=1a menu=off audio=off volume=20 mute=off arc=off sel=- lang=656e67 osd=- held=- heard=4:84:10 sub=- queue=0 dropped=0
state p1 player 4 1.0.0.0 on active=1.0.0.0 path=1.0.0.0 deck=11 menu=off audio=off volume=20 mute=off arc=off sel=- lang=656e67 osd=- held=- heard=0:84:00 sub=- queue=0 dropped=0
1500000 end
";

/// A television polls address 0, and the script ends before the round has closed: the start bit, eight bits 0, and EOM and
/// ACK 1.
const EDGES: &str = "\
12000 0
15700 1
16500 0
18000 1
18900 0
20400 1
21300 0
22800 1
23700 0
25200 1
26100 0
27600 1
28500 0
30000 1
30900 0
32400 1
33300 0
34800 1
35700 0
36300 1
38100 0
38700 1
39150 end
";

const EDID: &str =
    "00ffffffffffff0010ac0041000000000c1e0104a53c22783eee91a3544c99260f5054a54b008180a9c0d1c001010101010101010101023a801871382d40582c450056502100001e000000ff00434656394e303132330a202020000000fc004445534b204d4f4e49544f520a000000fd00314b1e5311010a202020202020018f020315f14590040302012309070783010000e200ca011d007251d01e206e28550056502100001e00000000000000000000000000000000000000000000000000000000000000000000000000000000000000000000000000000000000000000000000000000000000000000000000000000000000000000000000000000000ed\n";

const EDID_TEXT: &str = "\
edid 1.4
maker DEL
product 16640
serial 0
made 12 2020
input a5
size 60 34
gamma 120
features 3e
chroma 655 338 307 614 154 61 320 337
established a54b00
standard 1280 2 60
standard 1600 3 60
standard 1920 3 60
standard unused
standard unused
standard unused
standard unused
standard unused
timing 14850 1920 280 1080 45 88 44 4 5 598 336 0 0 1e
serial-text \"CFV9N0123\"
name \"DESK MONITOR\"
range 00314b1e5311010a202020202020
cta f1
video 9004030201
audio 090707
speakers 010000
extended 00ca
timing 7425 1280 370 720 30 110 40 5 5 598 336 0 0 1e
tail -
";

/// What a call writes is this text, and it is not refused.
fn writes<E: Drop>(rt: &impl Abort, answer: Result<(), E>, bytes: &[u8], want: &str) {
    assert!(rt; answer.is_ok() && bytes == want.as_bytes(), "{want}");
}

/// A result without its value.
fn done<T: Drop, E: Drop>(answer: Result<T, E>) -> Result<(), E> {
    match answer {
        Ok(_) => Ok(()),
        Err(error) => Err(error),
    }
}

fn traces(rt: &impl Abort, alloc: Global) {
    let mut bytes = Vec::new(alloc);
    let answer = done(emulate(alloc, TOPOLOGY, SCRIPT, &mut Writes::new(&mut bytes)));
    writes(rt, answer, &bytes, TRACE);
}

fn edges(rt: &impl Abort, alloc: Global) {
    let mut bytes = Vec::new(alloc);
    let script = b"end 20000\n";
    let answer = done(emulate_edges(
        alloc,
        b"device tv tv 1\n",
        script,
        &mut Writes::new(&mut bytes),
    ));
    writes(rt, answer, &bytes, EDGES);
}

fn steps(rt: &impl Abort, alloc: Global) {
    let mut bytes = Vec::new(alloc);
    let answer = step_run(
        alloc,
        Form::Text,
        TOPOLOGY,
        SCRIPT,
        b"round\nuntil break\n",
        &mut Writes::new(&mut bytes),
    );
    writes(
        rt,
        answer,
        &bytes,
        "12000 39150 complete 0>0 nack by tv out -\nended\n",
    );
}

fn frames(rt: &impl Abort, alloc: Global) {
    let mut bytes = Vec::new(alloc);
    let answer = asm_lines(b"4>f active-source 1.0.0.0\n", &mut Writes::new(&mut bytes));
    writes(rt, answer, &bytes, "4f821000\n");
}

fn readings(rt: &impl Abort, alloc: Global) {
    let mut bytes = Vec::new(alloc);
    let answer = watch(alloc, EDGES.as_bytes(), &mut Writes::new(&mut bytes));
    writes(rt, answer, &bytes, "12000 39150 complete 0>0 nack\n");
}

fn texts(rt: &(impl Abort + AllocGlobal)) {
    let edid = hex::decode(rt.alloc(), EDID.trim_end()).expect(rt, "hex digits");
    let mut bytes = Vec::new(rt.alloc());
    let answer = edid_to_text(&edid, &mut Writes::new(&mut bytes));
    writes(rt, answer, &bytes, EDID_TEXT);
}

fn dumps(rt: &impl Abort, alloc: Global) {
    let mut bytes = Vec::new(alloc);
    let answer = text_to_hex(alloc, EDID_TEXT.as_bytes(), &mut Writes::new(&mut bytes));
    writes(rt, answer, &bytes, EDID);
}

#[test]
fn each_call_writes_its_text(rt: HostRuntime) {
    traces(&rt, rt.alloc());
    edges(&rt, rt.alloc());
    steps(&rt, rt.alloc());
    frames(&rt, rt.alloc());
    readings(&rt, rt.alloc());
    texts(&rt);
    dumps(&rt, rt.alloc());
}

/// A topology is refused for a word in its first line.
fn is_word<T: Drop>(answer: Result<T, EmulateError>) -> bool {
    match answer {
        Err(EmulateError::Topology { line: 1, cause, .. }) => matches!(cause, TopologyCause::Word),
        _ => false,
    }
}

fn is_no_step(answer: Result<(), StepRunError>) -> bool {
    matches!(answer, Err(StepRunError::Steps { line: 1, word: 0 }))
}

fn is_no_frame(answer: Result<(), FrameLinesError>) -> bool {
    match answer {
        Err(
            FrameLinesError::Line(
                At {
                    line: 2,
                    word: 1,
                    cause,
                },
            ),
        ) => matches!(cause, AssembleError::Name),
        _ => false,
    }
}

fn is_no_edge(answer: Result<(), WatchError>) -> bool {
    matches!(answer, Err(WatchError::Line { line: 1, word: 0 }))
}

fn is_short(answer: Result<(), EdidToTextError>) -> bool {
    matches!(answer, Err(EdidToTextError::Edid(EdidError::Length)))
}

fn is_no_text(answer: Result<(), TextToHexError>) -> bool {
    matches!(answer, Err(TextToHexError::Syntax(1)))
}

#[test]
fn each_call_refuses_for_its_cause(rt: HostRuntime) {
    let alloc = rt.alloc();
    let mut bytes = Vec::new(alloc);
    let out = &mut Writes::new(&mut bytes);
    assert!(&rt; is_word(emulate(alloc, b"frob\n", SCRIPT, out)));
    assert!(&rt; is_word(emulate_edges(alloc, b"frob\n", SCRIPT, out)));
    assert!(&rt; is_no_step(step_run(alloc, Form::Text, TOPOLOGY, SCRIPT, b"frob\n", out)));
    assert!(&rt; is_no_frame(asm_lines(b"4>4\n4>0 frob\n", out)));
    assert!(&rt; is_no_edge(watch(alloc, b"frob\n", out)));
    assert!(&rt; is_short(edid_to_text(b"", out)));
    assert!(&rt; is_no_text(text_to_hex(alloc, b"frob\n", out)));
    assert!(&rt; bytes.is_empty());
}
