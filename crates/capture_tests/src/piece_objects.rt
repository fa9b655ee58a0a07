//! The line and the object of each remark and of each cause.
use audit_judged::{Cause, EndingRemark, Outs, Party, WidthKind, WidthRemark};
use piece_notes::{add_cause, add_ending, add_goes_on, add_width};
use record_core::Form;
use std::alloc::AllocGlobal;
use std::process::Abort;
use text_core::{Counted, Writes};

const FOUR: Party = Party::Initiator(Some(4));

macro_rules! width {
    ($kind:ident, $who:expr, $slot:literal, $width:literal) => {
        WidthRemark { kind: WidthKind::$kind, who: $who, outs: Outs { slot: $slot, width: $width, least: $width, greatest: $width, count: 1 } }
    };
}

/// A remark of widths, its line, and what its object has after the line (HDMI 1.4 CEC 5.2).
const WIDTHS: &[(WidthRemark, &str, &str)] = &[
    (
        width!(StartLow, FOUR, 0, 3_400),
        "  start low 3400 not 3500..3900 by initiator 4",
        r#""type":"remark","remark":"start-low","section":"5.2.1","slot":0,"block":null,"bit":null,"width":3400,"least":3500,"most":3900,"shortest":3400,"longest":3400,"count":1,"who":"initiator","initiator":"4","follower":null"#,
    ),
    (
        width!(StartTotal, Party::Initiator(None), 0, 4_750),
        "  start total 4750 not 4300..4700 by initiator -",
        r#""type":"remark","remark":"start-total","section":"5.2.1","slot":0,"block":null,"bit":null,"width":4750,"least":4300,"most":4700,"shortest":4750,"longest":4750,"count":1,"who":"initiator","initiator":null,"follower":null"#,
    ),
    (
        width!(ZeroLow, FOUR, 13, 1_800),
        "  slot 13 block 2 bit 3 low 1800 not 1300..1700 by initiator 4",
        r#""type":"remark","remark":"bit-low","section":"5.2.2","slot":13,"block":2,"bit":3,"width":1800,"least":1300,"most":1700,"shortest":1800,"longest":1800,"count":1,"who":"initiator","initiator":"4","follower":null"#,
    ),
    (
        WidthRemark {
            kind: WidthKind::OneLow,
            who: FOUR,
            outs: Outs {
                slot: 13,
                width: 870,
                least: 850,
                greatest: 880,
                count: 3,
            },
        },
        "  slot 13 block 2 bit 3 low 870 not 400..800 (850..880 in 3 slots) by initiator 4",
        r#""type":"remark","remark":"bit-low","section":"5.2.2","slot":13,"block":2,"bit":3,"width":870,"least":400,"most":800,"shortest":850,"longest":880,"count":3,"who":"initiator","initiator":"4","follower":null"#,
    ),
    (
        width!(AckLow, Party::Follower(Some(0)), 10, 1_200),
        "  slot 10 block 1 bit 10 low 1200 not 1300..1700 by follower 0",
        r#""type":"remark","remark":"bit-low","section":"5.2.2","slot":10,"block":1,"bit":10,"width":1200,"least":1300,"most":1700,"shortest":1200,"longest":1200,"count":1,"who":"follower","initiator":null,"follower":"0""#,
    ),
    (
        width!(LongAck, Party::Either(Some(4), Some(0)), 10, 900),
        "  slot 10 block 1 bit 10 low 900 not 400..800 by initiator 4 or follower 0",
        r#""type":"remark","remark":"bit-low","section":"5.2.2","slot":10,"block":1,"bit":10,"width":900,"least":400,"most":800,"shortest":900,"longest":900,"count":1,"who":"either","initiator":"4","follower":"0""#,
    ),
    (
        width!(LongAck, Party::Either(Some(4), None), 10, 900),
        "  slot 10 block 1 bit 10 low 900 not 400..800 by initiator 4 or a follower",
        r#""type":"remark","remark":"bit-low","section":"5.2.2","slot":10,"block":1,"bit":10,"width":900,"least":400,"most":800,"shortest":900,"longest":900,"count":1,"who":"either","initiator":"4","follower":null"#,
    ),
    (
        width!(LateAck, Party::Follower(None), 20, 351),
        "  slot 20 block 2 bit 10 late 351 not 0..350 by a follower",
        r#""type":"remark","remark":"late-ack","section":"5.2.3","slot":20,"block":2,"bit":10,"width":351,"least":0,"most":350,"shortest":351,"longest":351,"count":1,"who":"follower","initiator":null,"follower":null"#,
    ),
    (
        width!(BitTotal, FOUR, 9, 2_049),
        "  slot 9 block 1 bit 9 total 2049 not 2050..2750 by initiator 4",
        r#""type":"remark","remark":"bit-total","section":"5.2.2","slot":9,"block":1,"bit":9,"width":2049,"least":2050,"most":2750,"shortest":2049,"longest":2049,"count":1,"who":"initiator","initiator":"4","follower":null"#,
    ),
];

/// The same of how a piece ends (CEC 5.2.1, 6.1, 6.1.2, 7.2, 7.4, 9.1).
const ENDINGS: &[(EndingRemark, Party, &str, &str)] = &[
    (
        EndingRemark::Stray(7),
        Party::Unknown,
        "  bits without a start bit: 7",
        r#""type":"remark","remark":"stray","section":"5.2.1","count":7,"who":"unknown","initiator":null,"follower":null"#,
    ),
    (
        EndingRemark::LoneStart(3_700),
        Party::Unknown,
        "  low for 3700 and nothing after it",
        r#""type":"remark","remark":"lone-start","section":"5.2.1","width":3700,"who":"unknown","initiator":null,"follower":null"#,
    ),
    (
        EndingRemark::Stuck(5_541),
        Party::Unknown,
        "  low for 5541, at most 5540",
        r#""type":"remark","remark":"stuck","section":"5","width":5541,"most":5540,"who":"unknown","initiator":null,"follower":null"#,
    ),
    (
        EndingRemark::LowDrive(13, 1_500, 3_600),
        Party::Unknown,
        "  low drive 3600 after slot 13, 1500 from its fall",
        r#""type":"remark","remark":"low-drive","section":"7.4","width":3600,"least":null,"most":null,"slot":13,"gap":1500,"who":"unknown","initiator":null,"follower":null"#,
    ),
    (
        EndingRemark::LowDrive(13, 1_500, 3_000),
        Party::Follower(None),
        "  low drive 3000 not 3360..3840 after slot 13, 1500 from its fall by a follower",
        r#""type":"remark","remark":"low-drive","section":"7.4","width":3000,"least":3360,"most":3840,"slot":13,"gap":1500,"who":"follower","initiator":null,"follower":null"#,
    ),
    (
        EndingRemark::Overrun(12),
        Party::Unknown,
        "  another start bit after slot 12",
        r#""type":"remark","remark":"overrun","section":"9.1","slot":12,"who":"unknown","initiator":null,"follower":null"#,
    ),
    (
        EndingRemark::Intruder(12, 1_649),
        Party::Unknown,
        "  another fall after slot 12, 1649 from its fall",
        r#""type":"remark","remark":"intruder","section":"7.2","slot":12,"gap":1649,"who":"unknown","initiator":null,"follower":null"#,
    ),
    (
        EndingRemark::TooLong,
        FOUR,
        "  goes on after block 16 by initiator 4",
        r#""type":"remark","remark":"too-long","section":"6.1","block":16,"who":"initiator","initiator":"4","follower":null"#,
    ),
    (
        EndingRemark::Unfinished(1),
        FOUR,
        "  ends after block 1 without EOM by initiator 4",
        r#""type":"remark","remark":"unfinished","section":"6.1.2","block":1,"who":"initiator","initiator":"4","follower":null"#,
    ),
    (
        EndingRemark::Stops(12),
        FOUR,
        "  stops after slot 12 by initiator 4",
        r#""type":"remark","remark":"stops","section":"6.1","slot":12,"who":"initiator","initiator":"4","follower":null"#,
    ),
    (
        EndingRemark::AfterEnd(3),
        FOUR,
        "  bits after EOM: 3 by initiator 4",
        r#""type":"remark","remark":"after-eom","section":"6.1.2","count":3,"who":"initiator","initiator":"4","follower":null"#,
    ),
];

/// The same of what the standard allows.
const CAUSES: &[(Cause, &str, &str)] = &[
    (
        Cause::ArbitrationLost,
        "  arbitration lost",
        r#""type":"note","note":"arbitration-lost","section":"7.2""#,
    ),
    (
        Cause::PollUnanswered,
        "  poll unanswered",
        r#""type":"note","note":"poll-unanswered","section":"7.3""#,
    ),
    (
        Cause::NotAcknowledged,
        "  not acknowledged",
        r#""type":"note","note":"not-acknowledged","section":"6.1.2""#,
    ),
    (
        Cause::Refused,
        "  refused",
        r#""type":"note","note":"refused","section":"6.1.2""#,
    ),
    (
        Cause::CutByTheEnd,
        "  cut by the end",
        r#""type":"note","note":"cut-by-the-end","section":null"#,
    ),
    (
        Cause::MidFrame,
        "  begins in mid frame",
        r#""type":"note","note":"mid-frame","section":null"#,
    ),
];

/// What is written.
#[derive(Clone, Copy)]
enum Note {
    Width(WidthRemark),
    Ending(EndingRemark, Party),
    GoesOn(usize),
    Cause(Cause),
}

fn written(rt: &(impl Abort + AllocGlobal), form: Form, note: Note) -> Vec<u8> {
    let mut text = Vec::new(rt.alloc());
    let mut sink = Writes::new(&mut text);
    let mut out = Counted::new(&mut sink);
    match note {
        Note::Width(remark) => add_width(&mut out, form, remark),
        Note::Ending(remark, who) => add_ending(&mut out, form, remark, who),
        Note::GoesOn(block) => add_goes_on(&mut out, form, block, FOUR),
        Note::Cause(cause) => add_cause(&mut out, form, cause),
    }
    text
}

/// A note has this line, and an object with the line and then these fields.
fn has(rt: &(impl Abort + AllocGlobal), note: Note, line: &str, fields: &str) {
    let want = format!(in rt.alloc(); "{line}\n").expect(rt, line);
    assert!(rt;
        written(rt, Form::Text, note).as_slice() == want.as_bytes(),
        "{line}"
    );
    let (front, end) = ("{\"line\":\"", "}\n");
    let want = format!(in rt.alloc(); "{front}{line}\",{fields}{end}").expect(rt, line);
    assert!(rt;
        written(rt, Form::Json, note).as_slice() == want.as_bytes(),
        "{line}"
    );
}

#[test]
fn each_width_has_its_line_and_its_object(rt: HostRuntime) {
    for (remark, line, fields) in WIDTHS {
        has(&rt, Note::Width(*remark), line, fields);
    }
}

#[test]
fn each_ending_has_its_line_and_its_object(rt: HostRuntime) {
    for (remark, who, line, fields) in ENDINGS {
        has(&rt, Note::Ending(*remark, *who), line, fields);
    }
}

#[test]
fn each_cause_has_its_line_and_its_object(rt: HostRuntime) {
    for (cause, line, fields) in CAUSES {
        has(&rt, Note::Cause(*cause), line, fields);
    }
}

/// A frame goes on after a block that was not taken (CEC 7.1).
#[test]
fn what_goes_on_has_its_line_and_its_object(rt: HostRuntime) {
    has(
        &rt,
        Note::GoesOn(2),
        "  goes on after block 2, which was not taken, by initiator 4",
        r#""type":"remark","remark":"goes-on","section":"7.1","block":2,"who":"initiator","initiator":"4","follower":null"#,
    );
}
