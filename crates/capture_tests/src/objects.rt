//! The line and the object of each kind of note.
use audit_judged::{Cause, EndingRemark, Party};
use audit_notes::{AuditNote, LineHearer, LineWriter, SpreadKind, Strict, WidthSummary};
use audit_remarks::{
    BadStartSeries, Failure, FrameCount, FrameHead, Mention, Missing, Receivers, Request, TooSoon,
};
use audit_widths::{Misfit, SlotWidth, WidthWindow};
use record_core::Form;
use std::alloc::AllocGlobal;
use std::process::Abort;
use text_core::{Counted, Phys, Writes};

const ONE: Phys = Phys { high: 0x10, low: 0 };

macro_rules! misfit {
    ($slot:literal, $kind:ident, $micros:literal, $least:literal, $greatest:literal) => {
        Misfit { slot: $slot, kind: SlotWidth::$kind, micros: $micros, window: WidthWindow { least: $least, greatest: $greatest } }
    };
}

macro_rules! failure {
    ($block:literal, $attempt:literal, $refused:literal) => {
        Failure { block: $block, attempt: $attempt, refused: $refused }
    };
}

macro_rules! summary {
    ($least:literal, $greatest:literal, $mean:literal, $count:literal) => {
        WidthSummary { least: $least, greatest: $greatest, mean: $mean, count: $count }
    };
}

/// A note, its line, and what its object has after the line.
const NOTES: &[(AuditNote, &str, &str)] = &[
    (
        AuditNote::BadStarts(BadStartSeries {
            count: 3,
            since: 100_000,
        }),
        "  after 3 bad-start since 100000",
        r#""type":"note","note":"bad-starts","section":null,"count":3,"since":100000"#,
    ),
    (
        AuditNote::NoAnswer(Request {
            initiator: 4,
            destination: 0,
            opcode: 0x8f,
            answer: None,
            since: 151_150,
        }),
        "  no answer to 4>0 8f of 151150",
        r#""type":"remark","remark":"no-answer","section":"9.2","initiator":"4","destination":"0","opcode":"8f","at":151150"#,
    ),
    (
        AuditNote::LateAnswer(1_199_000),
        "  answered after 1199000, at most 1000000",
        r#""type":"remark","remark":"late-answer","section":"9.2","wait":1199000,"most":1000000"#,
    ),
    (
        AuditNote::Free(TooSoon {
            free: 7199,
            due: 7200,
        }),
        "  free 7199 of 7200",
        r#""type":"remark","remark":"free","section":"9.1","width":7199,"due":7200"#,
    ),
    (
        AuditNote::Misfit(misfit!(0, Low, 3499, 3500, 3900)),
        "  start low 3499 not 3500..3900",
        r#""type":"remark","remark":"start-low","section":"5.2.1","width":3499,"least":3500,"most":3900"#,
    ),
    (
        AuditNote::Misfit(misfit!(0, Total, 4701, 4300, 4700)),
        "  start total 4701 not 4300..4700",
        r#""type":"remark","remark":"start-total","section":"5.2.1","width":4701,"least":4300,"most":4700"#,
    ),
    (
        AuditNote::Misfit(misfit!(13, Low, 870, 400, 800)),
        "  slot 13 block 2 bit 3 low 870 not 400..800",
        r#""type":"remark","remark":"bit-low","section":"5.2.2","slot":13,"block":2,"bit":3,"width":870,"least":400,"most":800"#,
    ),
    (
        AuditNote::Misfit(misfit!(13, Total, 2760, 2050, 2750)),
        "  slot 13 block 2 bit 3 total 2760 not 2050..2750",
        r#""type":"remark","remark":"bit-total","section":"5.2.2","slot":13,"block":2,"bit":3,"width":2760,"least":2050,"most":2750"#,
    ),
    (
        AuditNote::LowDrive(3600),
        "  low drive 3600",
        r#""type":"remark","remark":"low-drive","section":"7.4","width":3600,"least":null,"most":null"#,
    ),
    (
        AuditNote::LowDrive(3000),
        "  low drive 3000 not 3360..3840",
        r#""type":"remark","remark":"low-drive","section":"7.4","width":3000,"least":3360,"most":3840"#,
    ),
    (
        AuditNote::DriveWithin(3700),
        "  low drive for 3700",
        r#""type":"remark","remark":"drive-within","section":"7.4","width":3700"#,
    ),
    (
        AuditNote::Unfinished(1),
        "  ends after block 1 without EOM",
        r#""type":"remark","remark":"unfinished","section":"6.1.2","block":1"#,
    ),
    (
        AuditNote::Attempt(failure!(1, 6, false)),
        "  block 1 not acknowledged, attempt 6",
        r#""type":"note","note":"attempt","section":"6.1.2","block":1,"verdict":"nack","attempt":6,"most":null"#,
    ),
    (
        AuditNote::Attempt(failure!(1, 7, false)),
        "  block 1 not acknowledged, attempt 7 of at most 6",
        r#""type":"remark","remark":"too-many-attempts","section":"7.1","block":1,"verdict":"nack","attempt":7,"most":6"#,
    ),
    (
        AuditNote::Attempt(failure!(2, 1, true)),
        "  block 2 refused, attempt 1",
        r#""type":"note","note":"attempt","section":"6.1.2","block":2,"verdict":"refused","attempt":1,"most":null"#,
    ),
    (
        AuditNote::Attempt(failure!(2, 7, true)),
        "  block 2 refused, attempt 7 of at most 6",
        r#""type":"remark","remark":"too-many-attempts","section":"7.1","block":2,"verdict":"refused","attempt":7,"most":6"#,
    ),
    (
        AuditNote::GoesOn(1, Party::Initiator(Some(4))),
        "  goes on after block 1, which was not taken, by initiator 4",
        r#""type":"remark","remark":"goes-on","section":"7.1","block":1,"who":"initiator","initiator":"4","follower":null"#,
    ),
    (
        AuditNote::Ending(EndingRemark::Stops(13), Party::Initiator(Some(4))),
        "  stops after slot 13 by initiator 4",
        r#""type":"remark","remark":"stops","section":"6.1","slot":13,"who":"initiator","initiator":"4","follower":null"#,
    ),
    (
        AuditNote::Ending(EndingRemark::Stops(2), Party::Initiator(None)),
        "  stops after slot 2 by initiator -",
        r#""type":"remark","remark":"stops","section":"6.1","slot":2,"who":"initiator","initiator":null,"follower":null"#,
    ),
    (
        AuditNote::Ending(EndingRemark::LoneStart(3_700), Party::Unknown),
        "  low for 3700 and nothing after it",
        r#""type":"remark","remark":"lone-start","section":"5.2.1","width":3700,"who":"unknown","initiator":null,"follower":null"#,
    ),
    (
        AuditNote::Cause(Cause::ArbitrationLost),
        "  arbitration lost",
        r#""type":"note","note":"arbitration-lost","section":"7.2""#,
    ),
    (
        AuditNote::Cause(Cause::CutByTheEnd),
        "  cut by the end",
        r#""type":"note","note":"cut-by-the-end","section":null"#,
    ),
    (
        AuditNote::Cause(Cause::MidFrame),
        "  begins in mid frame",
        r#""type":"note","note":"mid-frame","section":null"#,
    ),
    (
        AuditNote::Moved(1, ONE),
        "  1 reported 1.0.0.0 before",
        r#""type":"note","note":"moved","section":"10.1","initiator":"1","before":"1.0.0.0""#,
    ),
    (
        AuditNote::Receivers(Receivers::OneDevice),
        "  to all, only for one device",
        r#""type":"remark","remark":"receivers","section":"13""#,
    ),
    (
        AuditNote::Receivers(Receivers::AllDevices),
        "  to one device, only for all",
        r#""type":"remark","remark":"receivers","section":"13""#,
    ),
    (
        AuditNote::Operands(Missing { count: 1, least: 2 }),
        "  operands 1, at least 2",
        r#""type":"remark","remark":"operands","section":"13","count":1,"least":2"#,
    ),
    (
        AuditNote::Unreported(Mention {
            phys: ONE,
            since: 199_150,
        }),
        "  nobody reported 1.0.0.0 of 199150",
        r#""type":"note","note":"nobody-there","section":"11.2","address":"1.0.0.0","at":199150"#,
    ),
    (
        AuditNote::Read(FrameHead {
            initiator: 0,
            destination: 8,
            opcode: None,
        }),
        "  read 0>8",
        r#""type":"note","note":"read","section":null,"initiator":"0","destination":"8","opcode":null"#,
    ),
    (
        AuditNote::Read(FrameHead {
            initiator: 4,
            destination: 0,
            opcode: Some(0x04),
        }),
        "  read 4>0 image-view-on",
        r#""type":"note","note":"read","section":null,"initiator":"4","destination":"0","opcode":"image-view-on""#,
    ),
    (AuditNote::Summary, "  all readings", r#""type":"summary""#),
    (
        AuditNote::Sender(
            4,
            FrameCount {
                taken: 12,
                untaken: 1,
                broken: 2,
            },
        ),
        "  from 4: 12 taken, 1 not taken, 2 broken",
        r#""type":"sender","initiator":"4","taken":12,"not_taken":1,"broken":2"#,
    ),
    (
        AuditNote::Widths(SpreadKind::StartLow, summary!(3690, 3712, 3701, 14)),
        "  start low 3690..3712 mean 3701 of 14",
        r#""type":"widths","kind":"start low","least":3690,"greatest":3712,"mean":3701,"count":14"#,
    ),
    (
        AuditNote::Widths(SpreadKind::BitTotal, summary!(2391, 2410, 2400, 9)),
        "  bit total 2391..2410 mean 2400 of 9",
        r#""type":"widths","kind":"bit total","least":2391,"greatest":2410,"mean":2400,"count":9"#,
    ),
];

#[test]
fn each_kind_of_note_has_its_line_and_its_object(rt: HostRuntime) {
    for (note, line, fields) in NOTES {
        let want = format!(in rt.alloc(); "{line}\n").expect(&rt, line);
        holds(
            &rt,
            written(&rt, Form::Text, *note).as_slice() == want.as_bytes(),
            line,
        );
        let (front, end) = ("{\"line\":\"", "}\n");
        let want = format!(in rt.alloc(); "{front}{line}\",{fields}{end}").expect(&rt, line);
        holds(
            &rt,
            written(&rt, Form::Json, *note).as_slice() == want.as_bytes(),
            line,
        );
    }
}

/// A remark counts wherever it stands, and a note does not.
#[test]
fn a_remark_counts_wherever_it_stands(rt: HostRuntime) {
    let mut text = Vec::new(rt.alloc());
    let mut sink = Writes::new(&mut text);
    let mut lines = Strict {
        hearer: Counted::new(&mut sink),
        remarked: false,
    };
    lines.note(AuditNote::Moved(1, ONE));
    lines.note(AuditNote::Summary);
    let before = lines.remarked;
    lines.note(AuditNote::Free(TooSoon {
        free: 7199,
        due: 7200,
    }));
    lines.word("give-features");
    holds(&rt, !before && lines.remarked, "a remark");
}

fn written(rt: &(impl Abort + AllocGlobal), form: Form, note: AuditNote) -> Vec<u8> {
    let mut text = Vec::new(rt.alloc());
    let mut sink = Writes::new(&mut text);
    let mut writer = LineWriter {
        form,
        out: Counted::new(&mut sink),
    };
    writer.note(note);
    text
}

fn holds(rt: &impl Abort, holds: bool, row: &str) {
    assert!(rt; holds, "{row}");
}
