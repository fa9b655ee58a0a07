//! Strings of JSON, by the rules of RFC 8259, section 7: quote, backslash and the control characters are spelled, all else stands as it is.
use crate::records::text_of;
use record_core::{Form, Value, cells};
use std::process::Abort;
use text_core::Piece;

/// What a text is in a string.
fn is_spelled(rt: &(impl Abort + AllocGlobal), text: &[u8], want: &str) {
    let cells = cells![both("", "text", Value::One(Piece::Bytes(text)))];
    let (front, middle, end) = ("{\"line\":\"", "\",\"type\":\"kind\",\"text\":\"", "\"}\n");
    let object = format!(in rt.alloc(); "{front}{want}{middle}{want}{end}").expect(rt, want);
    assert!(rt; text_of(rt, Form::Json, &cells) == object, "{want}");
}

#[test]
fn quotes_and_backslashes(rt: HostRuntime) {
    is_spelled(&rt, b"\"", "\\\"");
    is_spelled(&rt, b"\\", "\\\\");
    is_spelled(&rt, b"a\"b\\c", "a\\\"b\\\\c");
    is_spelled(&rt, b"/", "/");
}

#[test]
fn control_characters(rt: HostRuntime) {
    is_spelled(&rt, b"\x00", "\\u0000");
    is_spelled(&rt, b"\t", "\\u0009");
    is_spelled(&rt, b"\n", "\\u000a");
    is_spelled(&rt, b"\r", "\\u000d");
    is_spelled(&rt, b"\x1f", "\\u001f");
    is_spelled(&rt, b"\x7f", "\\u007f");
    is_spelled(&rt, b" ~", " ~");
}

#[test]
fn characters_of_more_than_one_byte(rt: HostRuntime) {
    is_spelled(&rt, "\u{80}".as_bytes(), "\u{80}");
    is_spelled(&rt, "\u{e9}".as_bytes(), "\u{e9}");
    // The G clef of RFC 8259, section 7: it may stand as it is.
    is_spelled(&rt, "\u{1d11e}".as_bytes(), "\u{1d11e}");
}

#[test]
fn a_line_has_its_text_as_it_is(rt: HostRuntime) {
    let cells = cells![both("", "text", Value::One(Piece::Text("a\"b\\c\t")))];
    assert!(rt;
        text_of(&rt, Form::Text, &cells).as_str() == "a\"b\\c\t\n",
        "no backslash"
    );
}
