//! A question, its answer, and a frame more. The bits are those of the frames 0>4 8f, 4>0 90 00 and 4>0 46, each block with its
//! end-of-message and acknowledge bits; a frame of N blocks is over 4,500 + (10 N - 1) * 2,400 + 1,050 after its fall.
use crate::captures::{Narrow, captured, holds};
use capture_as_test::{AsTestError, write_as_test};
use capture_difference::{DifferenceError, write_capture_difference};
use line_reading::STANDARD;
use record_core::Form;
use std::process::Abort;
use text_core::Writes;

const ASKED: &str = "\
1000000 00000100001000111110
1082150 010000000010010000000000000010
";

const ASKED_MORE: &str = "\
1000000 00000100001000111110
1070000 01000000000100011010
1200000 010000000010010000000000000010
";

const TEST: &str = "\
label f1 expect from 0 to 18446744073709551615 0>4 give-device-power-status ack
label f2 expect within 275150 of f1 4>0 report-power-status on ack
expect exactly 2 from 0 to 18446744073709551615 *>*
expect no-remark
capture
";

const SAME: &str = "\
same-frames 2
in-both 1000000 1000000 0>4 give-device-power-status ack
in-both 1082150 1082150 4>0 report-power-status on ack
";

const DIFFERENCE: &str = "\
first-difference after 1 in-second 1070000 4>0 give-osd-name ack
in-both 1000000 1000000 0>4 give-device-power-status ack
in-second 1070000 1121150 4>0 give-osd-name ack
in-both 1082150 1200000 4>0 report-power-status on ack
";

const OBJECTS: &str = "\
{\"line\":\"first-difference after 1 in-first 1070000 4>0 give-osd-name ack\",\"type\":\"differs\",\"common\":1,\"place\":\"in-first\",\"begin\":1070000,\"frame\":\"4>0 give-osd-name\",\"verdict\":\"ack\"}
{\"line\":\"in-both 1000000 1000000 0>4 give-device-power-status ack\",\"type\":\"common\",\"first_begin\":1000000,\"second_begin\":1000000,\"frame\":\"0>4 give-device-power-status\",\"verdict\":\"ack\"}
{\"line\":\"in-first 1070000 1121150 4>0 give-osd-name ack\",\"type\":\"alone\",\"place\":\"in-first\",\"begin\":1070000,\"close\":1121150,\"frame\":\"4>0 give-osd-name\",\"verdict\":\"ack\"}
{\"line\":\"in-both 1200000 1082150 4>0 report-power-status on ack\",\"type\":\"common\",\"first_begin\":1200000,\"second_begin\":1082150,\"frame\":\"4>0 report-power-status on\",\"verdict\":\"ack\"}
";

/// What a writer with this much room gets of the test of a capture, and what is answered.
fn test_of(rt: &(impl Abort + AllocGlobal), frames: &str, room: usize) -> (String, Option<u128>) {
    let mut out = Narrow {
        bytes: Vec::new(rt.alloc()),
        room,
    };
    let done = write_as_test(
        rt.alloc(),
        &captured(rt, frames),
        &mut Writes::new(&mut out),
    );
    let cut = match done {
        Ok(()) => None,
        Err(AsTestError::Write(fault)) => Some(fault.count),
        Err(AsTestError::Memory) => Some(u128::MAX),
    };
    (String::from_utf8(out.bytes).expect(rt, "a text"), cut)
}

/// The same of the difference of two captures, and whether they are the same.
fn difference_of(
    rt: &(impl Abort + AllocGlobal),
    first: &str,
    second: &str,
    form: Form,
    room: usize,
) -> (String, Result<bool, u128>) {
    let mut out = Narrow {
        bytes: Vec::new(rt.alloc()),
        room,
    };
    let done = write_capture_difference(
        rt.alloc(),
        &captured(rt, first),
        &captured(rt, second),
        STANDARD,
        form,
        &mut Writes::new(&mut out),
    );
    let said = match done {
        Ok(same) => Ok(same),
        Err(DifferenceError::Write(fault)) => Err(fault.count),
        Err(DifferenceError::Memory) => Err(u128::MAX),
    };
    (String::from_utf8(out.bytes).expect(rt, "a text"), said)
}

#[test]
fn a_capture_is_its_own_test(rt: HostRuntime) {
    let (text, cut) = test_of(&rt, ASKED, 10_000);
    holds(&rt, text.as_str() == TEST && cut.is_none(), "a test");
    let (front, cut) = test_of(&rt, ASKED, 100);
    let is_front = Some(front.as_bytes()) == TEST.as_bytes().get(..100);
    holds(&rt, is_front && cut == Some(100), "a front");
}

#[test]
fn captures_are_laid_beside_each_other(rt: HostRuntime) {
    let (text, same) = difference_of(&rt, ASKED, ASKED, Form::Text, 10_000);
    holds(&rt, text.as_str() == SAME && same == Ok(true), "the same");
    let (text, same) = difference_of(&rt, ASKED, ASKED_MORE, Form::Text, 10_000);
    holds(
        &rt,
        text.as_str() == DIFFERENCE && same == Ok(false),
        "a frame more",
    );
    let (text, same) = difference_of(&rt, ASKED_MORE, ASKED, Form::Json, 10_000);
    holds(
        &rt,
        text.as_str() == OBJECTS && same == Ok(false),
        "objects",
    );
    let (front, same) = difference_of(&rt, ASKED, ASKED_MORE, Form::Text, 70);
    let is_front = Some(front.as_bytes()) == DIFFERENCE.as_bytes().get(..70);
    holds(&rt, is_front && same == Err(70), "a front");
}
