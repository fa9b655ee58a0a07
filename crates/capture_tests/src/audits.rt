//! The whole of an audit. What is remarked of other captures, and of frames by wider windows, stands in tests/cases: audits.txt and
//! margins.txt.
use audit_core::{AuditOptions, audit_capture, audit_capture_by};
use capture_core::Capture;
use capture_vcd::read_vcd;
use line_reading::Windows;
use std::process::Abort;
use text_core::Writes;

/// What a dump begins with.
const HEAD: &str = "$timescale 1 us $end\n$var wire 1 ! CEC $end\n$enddefinitions $end\n#0\n1!\n";

/// Adds a low and a high part of a line to a dump, and returns where the high part ends.
fn add(rt: &(impl Abort + AllocGlobal), dump: &mut String, at: u64, low: u64, high: u64) -> u64 {
    let rise = at.saturating_add(low);
    let edges = format!(in rt.alloc(); "#{at}\n0!\n#{rise}\n1!\n").expect(rt, "a text");
    dump.push_str(edges.as_str()).expect(rt, "a text");
    rise.saturating_add(high)
}

/// Adds a start bit and these bits, at nominal times.
fn add_bits(rt: &(impl Abort + AllocGlobal), dump: &mut String, begin: u64, bits: &str) -> u64 {
    let mut at = add(rt, dump, begin, 3_700, 800);
    for bit in bits.as_bytes() {
        let (low, high) = if *bit == b'1' {
            (600, 1_800)
        } else {
            (1_500, 900)
        };
        at = add(rt, dump, at, low, high);
    }
    at
}

/// A poll that was acknowledged, and one that broke.
fn polls(rt: &(impl Abort + AllocGlobal)) -> Capture {
    let mut dump = String::from_str(rt.alloc(), HEAD).expect(rt, "a text");
    add_bits(rt, &mut dump, 100_000, "0100000010");
    let end = add_bits(rt, &mut dump, 200_000, "01000000").saturating_add(20_000);
    let text = format!(in rt.alloc(); "{dump}#{end}\n").expect(rt, "a text");
    read_vcd(rt.alloc(), b"", text.as_bytes())
        .ok()
        .expect(rt, "a capture")
}

const WHOLE: &str = "\
100000 127150 complete 4>0 ack
  start low 3700..3700 mean 3700 of 1
  start total 4500..4500 mean 4500 of 1
  one low 600..600 mean 600 of 2
  zero low 1500..1500 mean 1500 of 8
  bit total 2400..2400 mean 2400 of 9
200000 224051 silent 01000000
  stops after slot 8 by initiator 4
  start low 3700..3700 mean 3700 of 1
  start total 4500..4500 mean 4500 of 1
  one low 600..600 mean 600 of 1
  zero low 1500..1500 mean 1500 of 7
  bit total 2400..2400 mean 2400 of 7
  all readings
  from 4: 1 taken, 0 not taken, 1 broken
  start low 3700..3700 mean 3700 of 2
  start total 4500..4500 mean 4500 of 2
  one low 600..600 mean 600 of 3
  zero low 1500..1500 mean 1500 of 15
  bit total 2400..2400 mean 2400 of 16
";

#[test]
fn whole(rt: HostRuntime) {
    let options = AuditOptions { timing: true };
    let mut out = Vec::new(rt.alloc());
    let audited = audit_capture(&polls(&rt), options, &mut Writes::new(&mut out));
    assert!(&rt; audited.is_ok() && out.as_slice() == WHOLE.as_bytes());
}

/// Frames that are legal are read alike by wider windows, and one that broke is given up later: 3,051 after its last fall, and not
/// 2,751.
#[test]
fn wider_windows(rt: HostRuntime) {
    let options = AuditOptions { timing: true };
    let mut out = Vec::new(rt.alloc());
    let windows = Windows::wider(300);
    let audited = audit_capture_by(&polls(&rt), windows, options, &mut Writes::new(&mut out));
    let want = WHOLE
        .replace(rt.alloc(), "224051", "224351")
        .expect(&rt, "a text");
    assert!(&rt; audited.is_ok() && out.as_slice() == want.as_bytes());
}
