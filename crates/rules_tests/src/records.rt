//! Findings as lines and as objects of JSON.
use record_core::Form;
use rules_check::{Finding, Rule, TimingRule};
use rules_records::write_findings;
use std::process::Abort;
use text_core::Writes;

/// A finding of each severity, of the EDID and of a detailed timing.
const FOUND: &[Finding] = &[
    Finding::Edid(Rule::Srgb),
    Finding::Edid(Rule::Underscan),
    Finding::Timing(1, TimingRule::Clock),
    Finding::Timing(22, TimingRule::NearLimits),
];

const LINES: &str = "fail srgb\nwarn overscan\nfail timing 1 clock\nwarn timing 22 out-of-range\n";

const OBJECTS: &str = "\
{\"line\":\"fail srgb\",\"type\":\"finding\",\"severity\":\"fail\",\"timing\":null,\"rule\":\"srgb\"}
{\"line\":\"warn overscan\",\"type\":\"finding\",\"severity\":\"warn\",\"timing\":null,\"rule\":\"overscan\"}
{\"line\":\"fail timing 1 clock\",\"type\":\"finding\",\"severity\":\"fail\",\"timing\":1,\"rule\":\"clock\"}
{\"line\":\"warn timing 22 out-of-range\",\"type\":\"finding\",\"severity\":\"warn\",\"timing\":22,\"rule\":\"out-of-range\"}
";

/// What is written of findings.
fn written(rt: &(impl Abort + AllocGlobal), form: Form, found: &[Finding]) -> String {
    let mut text = Vec::new(rt.alloc());
    write_findings(&mut Writes::new(&mut text), form, found).expect(rt, "room");
    String::from_utf8(text).expect(rt, "a text")
}

#[test]
fn findings_are_records(rt: HostRuntime) {
    assert!(rt; written(&rt, Form::Text, FOUND).as_str() == LINES);
    assert!(rt; written(&rt, Form::Json, FOUND).as_str() == OBJECTS);
    assert!(rt; written(&rt, Form::Json, &[]).as_str() == "");
}

/// A writer with less room has the front of the objects.
#[test]
fn a_writer_that_is_full_has_the_front(rt: HostRuntime) {
    let mut room = [0_u8; 100];
    let fault = write_findings(&mut Writes::new(room.as_mut_slice()), Form::Json, FOUND);
    assert!(rt; matches!(fault, Err(fault) if fault.count == 100));
    assert!(rt; Some(room.as_slice()) == OBJECTS.as_bytes().get(..100));
}
