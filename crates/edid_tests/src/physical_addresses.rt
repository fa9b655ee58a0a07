//! Physical addresses and their texts, written by hand.
use std::process::Abort;
use text_core::Phys;

// The address and the text are each read from the other.
fn is_spelled(rt: &impl Abort, high: u8, low: u8, text: &str) {
    let phys = Phys { high, low };
    assert!(rt; phys.text().as_slice() == text.as_bytes(), "{text}");
    assert!(rt; Phys::read(text.as_bytes()) == Some(phys), "{text}");
}

#[test]
fn addresses_are_read(rt: HostRuntime) {
    is_spelled(&rt, 0x00, 0x00, "0.0.0.0");
    is_spelled(&rt, 0x12, 0x34, "1.2.3.4");
    is_spelled(&rt, 0x9a, 0xbc, "9.a.b.c");
    is_spelled(&rt, 0xde, 0xf0, "d.e.f.0");
    is_spelled(&rt, 0xff, 0xff, "f.f.f.f");
}

#[test]
fn other_texts_are_no_addresses(rt: HostRuntime) {
    let texts = "\
1.2.3
1.2.3.4.
1.2.3.4.5
1,2.3.4
1.2.3.g
1.2.3.A
 .2.3.4
10.2.3.4
1234567";
    for text in texts.lines() {
        assert!(rt; Phys::read(text.as_bytes()).is_none(), "{text}");
    }
    assert!(rt; Phys::read(b"").is_none());
}
