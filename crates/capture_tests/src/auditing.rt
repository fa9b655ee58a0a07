//! Captures that are followed with their audit: when each part of it is written. The rows are worked out from docs/formats.md ("Audit
//! of a capture").
ghost use Rattle.line_reading.specs.Windows.{AreWindows};

use crate::following::{Driver, Told, form_of, reception_of, spelled, with_end};
use follow_audit::{AuditView, FollowAuditError, follow_audit};
use follow_core::Reception;
use record_core::Form;
use std::cell::RefCell;
use std::process::Abort;
use text_core::{Buffered, Writes};

/// `FORM:MARGIN TEXT => SAID END` as in `following`; `csv-NAME` is the form with a name of the wire, `edges+timing` that with the widths
/// of each reading, `edges+json` that with objects in the place of lines. `END` is `!` where the audit has a remark. `NACKED` are the
/// slots of a poll of the television by address 4 that nobody acknowledges; `MEANS` is what the summary has of the widths of `POLL`,
/// `OF n m` that of n ones and m zeros.
const ROWS: &str = "\
# What there is to remark comes with the next fall, or with the end.
edges:0 12000 0|12300 1|40000 end => >>12000 12300 bad-start -|>  start low 300 not 3500..3900|  all readings| !
edges:0 12000 0|12300 1|20000 0|20300 1|40000 end => >>12000 12300 bad-start -|>  start low 300 not 3500..3900|>20000 20300 bad-start -|>  all readings| !
edges:0 POLL|38700 1|39150 end => >>>>>>>>>>>>>>>>>>>>>>>12000 39150 complete 0>0 nack|  all readings|  from 0: 0 taken, 1 not taken, 0 broken|  start low 3700..3700 mean 3700 of 1|MEANS| .
edges:0 12000 0|15700 1|NACKED|38700 1|50000 0|50300 1|60000 end => >>>>>>>>>>>>>>>>>>>>>>>12000 39150 complete 4>0 nack|  block 1 not acknowledged, attempt 1|>50000 50300 bad-start -|>  start low 300 not 3500..3900|  all readings|  from 4: 0 taken, 1 not taken, 0 broken|  start low 3700..3700 mean 3700 of 1|OF 3 7| !
# How long a low drive was is known with its rise.
edges:0 12000 0|15700 1|16500 0|17100 1|17500 0|21100 1|40000 end => >>>>>12000 17500 short -|>  low drive 3600|>  all readings|  start low 3700..3700 mean 3700 of 1|  start total 4500..4500 mean 4500 of 1|  one low 600..600 mean 600 of 1|  bit total 1000..1000 mean 1000 of 1| !
# By wider windows a start bit that is low for 3,950 is one, and is remarked.
edges:100 12000 0|15950 1|SLOTS|38700 1|90000 0|90300 1|99000 end => >>>>>>>>>>>>>>>>>>>>>>>12000 39150 complete 0>0 nack|  start low 3950 not 3500..3900|>90000 90300 bad-start -|>  start low 300 not 3500..3900|  all readings|  from 0: 0 taken, 1 not taken, 0 broken|  start low 3950..3950 mean 3950 of 1|MEANS| !
# Without a pulse that is too short, and of a probe that turns the level.
edges:0~100 12000 0|12050 1|20000 0|20300 1|40000 end => >>>>>20000 20300 bad-start -|  start low 300 not 3500..3900|  all readings| !
edges:0! 0 0|12000 1|12300 0|20000 1|20300 0|40000 end => >>>12000 12300 bad-start -|>  start low 300 not 3500..3900|>20000 20300 bad-start -|>  all readings| !
# The widths of each reading too.
edges+timing:0 POLL|38700 1|60000 end => >>>>>>>>>>>>>>>>>>>>>>>12000 39150 complete 0>0 nack|  start low 3700..3700 mean 3700 of 1|MEANS|  all readings|  from 0: 0 taken, 1 not taken, 0 broken|  start low 3700..3700 mean 3700 of 1|MEANS| .
# Pin events and rows: an edge is known with the next line.
pin:0 START|100.012000000 0|100.012300000 1|100.013000000 3|100.020000000 0|100.020300000 1|100.040000000 1 => >>>>12000 12300 bad-start -|>>  start low 300 not 3500..3900|>20000 20300 bad-start -|  all readings| !
csv-CEC:0 Time [s],HPD, CEC|0.0,1,1|0.012,0,0|0.0123,1,1|0.02,1,1|0.03,1,0|0.0303,1,1|0.04,1,1 => >>>>>12000 12300 bad-start -|>>  start low 300 not 3500..3900|>30000 30300 bad-start -|  all readings| !
# The objects come where their lines do.
edges+json:0 12000 0|12300 1|20000 0|20300 1|40000 end => >>{\"line\":\"12000 12300 bad-start -\",\"type\":\"reading\",\"begin\":12000,\"close\":12300,\"ending\":\"bad-start\",\"bits\":null}|>{\"line\":\"  start low 300 not 3500..3900\",\"type\":\"remark\",\"remark\":\"start-low\",\"section\":\"5.2.1\",\"width\":300,\"least\":3500,\"most\":3900}|>{\"line\":\"20000 20300 bad-start -\",\"type\":\"reading\",\"begin\":20000,\"close\":20300,\"ending\":\"bad-start\",\"bits\":null}|>{\"line\":\"  all readings\",\"type\":\"summary\"}| !
# Nothing came.
pin:0 =>   all readings| .
csv:0 Time [s],CEC => >  all readings| .
# Faults, and what was written before them.
edges:0  => line 1: line
edges:0 12000 0|12300 1 => >>12000 12300 bad-start -| line 3: line
edges:0 12000 0|12300 1|20000 0|frob|40000 end => >>12000 12300 bad-start -|>  start low 300 not 3500..3900|> line 4: line
edges:0 12000 0|12300 1|12200 0 => >>12000 12300 bad-start -|> line 3: order
csv-SDA:0 Time [s],CEC|0.0,1 => > line 1: signal
edges:0 12000 0|12300 1|#fault => >>12000 12300 bad-start -| read fault
";

const NACKED: &str =
    "16500 0|18000 1|18900 0|19500 1|21300 0|22800 1|23700 0|25200 1|26100 0|27600 1|28500 0|30000 1|30900 0|32400 1|33300 0|34800 1|35700 0|36300 1|38100 0";

const MEANS: &str = "OF 2 8";

/// How a capture that was followed ended.
fn end_text(rt: &(impl Abort + AllocGlobal), end: &Result<bool, FollowAuditError>) -> String {
    match end {
        Ok(false) => format!(in rt.alloc(); ".").expect(rt, "an end"),
        Ok(true) => format!(in rt.alloc(); "!").expect(rt, "an end"),
        Err(error) => format!(in rt.alloc(); "{error}").expect(rt, "a fault"),
    }
}

/// What is said where a capture is followed with its audit, over a writer with so much room.
fn said_of(
    rt: &(impl Abort + AllocGlobal),
    form: &str,
    how: Reception,
    text: &[u8],
    room: usize,
) -> String
    requires { AreWindows how.windows }
{
    let (form, signal) = form.split_once('-').unwrap_or((form, ""));
    let (form, view) = form.split_once('+').unwrap_or((form, ""));
    let said = RefCell::new(Vec::new(rt.alloc()));
    let mut driver = Driver {
        rest: text,
        said: &said,
    };
    let mut out = Buffered::new(Writes::new(Told { said: &said, room }));
    let end = follow_audit(
        rt.alloc(),
        form_of(form),
        signal.as_bytes(),
        how,
        AuditView {
            timing: view == "timing",
            written: if view == "json" {
                Form::Json
            } else {
                Form::Text
            },
        },
        &mut driver,
        &mut out,
    );
    drop(out);
    drop(driver);
    with_end(rt, said.into_inner(), end_text(rt, &end))
}

/// A row without its short forms.
fn in_full(rt: &(impl Abort + AllocGlobal), row: &str) -> String {
    let row = row
        .replace(rt.alloc(), "NACKED", NACKED)
        .expect(rt, "a text");
    let row = row.replace(rt.alloc(), "MEANS", MEANS).expect(rt, "a text");
    let row = row
        .replace(rt.alloc(), "OF 2 8", &widths_text(rt, 2, 8))
        .expect(rt, "a text");
    row.replace(rt.alloc(), "OF 3 7", &widths_text(rt, 3, 7))
        .expect(rt, "a text")
}

/// What the summary has of the widths of so many ones and zeros by the nominal times, after those of the start bit's low.
fn widths_text(rt: &(impl Abort + AllocGlobal), ones: u32, zeros: u32) -> String {
    format!(in rt.alloc();
        "  start total 4500..4500 mean 4500 of 1|  one low 600..600 mean 600 of {ones}|  zero low 1500..1500 mean 1500 of {zeros}|  bit total 2400..2400 mean 2400 of 9"
    ).expect(rt, "a text")
}

fn check(rt: &(impl Abort + AllocGlobal), row: &str) {
    let row = in_full(rt, row);
    let (asked, want) = row.split_once(" => ").expect(rt, "a row");
    let (words, text) = asked.split_once(' ').unwrap_or((asked, ""));
    let (form, how) = words.split_once(':').expect(rt, "a form");
    let text = spelled(rt, text);
    let how = reception_of(rt, how);
    let said = said_of(rt, form, how, text.as_bytes(), usize::MAX);
    assert!(rt; said.as_str() == want, "{row}: {said}");
}

#[test]
fn remarks_are_written_when_they_are_known(rt: HostRuntime) {
    for row in ROWS.lines() {
        if !row.starts_with("# ") {
            check(&rt, row);
        }
    }
}

#[test]
fn a_writer_that_is_full_ends_the_audit(rt: HostRuntime) {
    let text = b"12000 0\n12300 1\n40000 0\n40300 1\n50000 end\n";
    let how = reception_of(&rt, "0");
    let said = said_of(&rt, "edges", how, text, 10);
    assert!(&rt;
        said.as_str() == ">>12000 1230 write fault after 10 bytes",
        "{said}"
    );
    let said = said_of(&rt, "edges", how, text, 30);
    assert!(&rt;
        said.as_str() == ">>12000 12300 bad-start -|>  star write fault after 30 bytes",
        "{said}"
    );
}
