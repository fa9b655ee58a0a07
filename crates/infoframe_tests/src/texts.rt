//! Texts that are InfoFrames, and those that are none.
use infoframe_tables::InfoFrame;
use std::process::Abort;

/// A text, and what is wrong with it, or the bytes.
const TEXTS: &[(&str, &str)] = &[
    ("82010000", "82010000"),
    ("82:01:00:00", "82010000"),
    ("AB,cD-ef 0 0\n", "abcdef00"),
    (
        "820100",
        "an InfoFrame has at least 4 bytes: type, version, length and checksum",
    ),
    (
        "",
        "an InfoFrame has at least 4 bytes: type, version, length and checksum",
    ),
    (
        "8201000",
        "an InfoFrame has two hex digits a byte, and one of these has no second",
    ),
    ("820100zz", "an InfoFrame is hex digits, two a byte"),
    (
        "82010",
        "an InfoFrame has two hex digits a byte, and one of these has no second",
    ),
    ("0x82010000", "an InfoFrame is hex digits, two a byte"),
    (
        "81011b0000000000000000000000000000000000000000000000000000000000",
        "an InfoFrame has at most 31 bytes",
    ),
    (
        "81011b00000000000000000000000000000000000000000000000000000000",
        "81011b00000000000000000000000000000000000000000000000000000000",
    ),
];

fn answer(rt: &(impl Abort + AllocGlobal), text: &str) -> String {
    match InfoFrame::read(text.as_bytes()) {
        Ok(frame) => hex::encode(rt.alloc(), frame.bytes()).expect(rt, "hex digits"),
        Err(cause) => format!(in rt.alloc(); "{cause}").expect(rt, "memory"),
    }
}

#[test]
fn texts_are_read(rt: HostRuntime) {
    for (text, want) in TEXTS {
        assert!(rt; answer(&rt, text).as_str() == *want, "{text}");
    }
}
