//! Where the fields of each InfoFrame stand, and what each of their values says.
use crate::rows::{AUDIO, AVI, HDMI, HDR, VENDORS};
use edid_fields::{Report, walk, word_of};
use infoframe_tables::{InfoFrame, frame_parts, kind_of, own_bytes};
use std::process::Abort;

/// Appends some values that say the same: the least, the greatest where it is another one, and the word.
fn add_values(
    rt: &(impl Abort + AllocGlobal),
    text: &mut String,
    least: u8,
    greatest: u8,
    word: &str,
) {
    let values = if least == greatest {
        format!(in rt.alloc(); "{least}")
    } else {
        format!(in rt.alloc(); "{least}-{greatest}")
    };
    text.push_str(values.expect(rt, "memory").as_str())
        .expect(rt, "memory");
    if !word.is_empty() {
        text.push(' ').expect(rt, "memory");
        text.push_str(word).expect(rt, "memory");
    }
}

/// Appends what each value of a field says, with `;` between values that say different things.
fn add_codes(rt: &(impl Abort + AllocGlobal), text: &mut String, report: &Report) {
    let top = if report.width < 8 {
        (1_u8 << report.width).saturating_sub(1)
    } else {
        255
    };
    let mut least = 0;
    let mut said = word_of(&Report {
        value: 0,
        ..*report
    });
    for value in 1..=top {
        let word = word_of(&Report { value, ..*report });
        if word != said {
            add_values(rt, text, least, value - 1, said);
            text.push(';').expect(rt, "memory");
            least = value;
            said = word;
        }
    }
    add_values(rt, text, least, top, said);
}

/// The fields of an InfoFrame from a byte on, a line each: the byte, its bits, the name, and what each value says.
fn fields_from(rt: &(impl Abort + AllocGlobal), hex: &str, byte: usize) -> String {
    let frame = InfoFrame::read(hex.as_bytes()).expect(rt, "an InfoFrame");
    let walked = walk(
        frame_parts(kind_of(frame.bytes())),
        own_bytes(frame.bytes()),
    );
    let mut text = String::new(rt.alloc());
    for report in walked.fields.as_slice() {
        let (at, high) = (report.at / 8, 7 - report.at % 8);
        if byte <= at {
            let (part, number) = if at < 3 { ("HB", at) } else { ("PB", at - 3) };
            let low = (high + 1).saturating_sub(report.width);
            let name = report.row.1;
            let field = format!(in rt.alloc(); "{part}{number} {high}-{low} {name}|");
            text.push_str(field.expect(rt, "memory").as_str())
                .expect(rt, "memory");
            add_codes(rt, &mut text, report);
            text.push('\n').expect(rt, "memory");
        }
    }
    text
}

/// Compares the fields of InfoFrames with rows: `= FROM HEX` begins those of one, from a byte on.
fn are_told(rt: &(impl Abort + AllocGlobal), rows: &str) {
    for block in rows.split("= ") {
        if let Some((head, want)) = block.split_once('\n') {
            let (from, hex) = head.split_once(' ').expect(rt, head);
            let from = from.parse::<usize>().expect(rt, head);
            let told = fields_from(rt, hex, from);
            assert!(rt; told.as_str() == want, "{told}");
        }
    }
}

#[test]
fn fields_of_video_are_told(rt: HostRuntime) {
    are_told(&rt, AVI);
}

#[test]
fn fields_of_audio_are_told(rt: HostRuntime) {
    are_told(&rt, AUDIO);
}

#[test]
fn fields_of_hdr_are_told(rt: HostRuntime) {
    are_told(&rt, HDR);
}

#[test]
fn fields_of_vendors_are_told(rt: HostRuntime) {
    are_told(&rt, HDMI);
    are_told(&rt, VENDORS);
}
