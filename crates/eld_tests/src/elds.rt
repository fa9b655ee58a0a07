//! ELDs of EDIDs, and ELDs in words. The bytes are by the offsets of Linux's drm_eld.h, worked out by hand.
use edid_core::edid_from_bytes;
use edid_eld::{Connection, Eld, EldError, display_eld, eld_of, eld_reads_back, read_eld};
use meaning_eld::{EldFault, write_eld, write_eld_fields, write_eld_hex};
use record_core::Form;
use std::process::Abort;
use text_core::Writes;

/// The base block of a television with the name LOUNGE TV, in hex.
const BASE: &str =
    "00ffffffffffff004c2d0201010000000a15010380341d780eee91a3544c99260f505420000001010101010101010101010101010101023a801871382d40582c450008222100001e011d007251d01e206e28550008222100001e000000fc004c4f554e47452054560a202020000000fd00173d0f440f000a20202020202001d4";
/// Data blocks, up to the zeros, their checksum, and the ELD of both with the base block.
const ROWS: &str = "\
02031af14490040301230907078301000065030c000000e2004f b1 100007006910000100000000000000004c2d02014c4f554e4745205456090707
02034bf1300f7f070f7f070f7f070f7f070f7f07aa2f157f50157f50157f50157f50157f50323d1ec03d1ec03d1ec03d1ec03d1ec03d1ec0834f0000830f00006a030c001000b83c800b05 14 1000120069f2060f00000000000000004c2d02014c4f554e47452054560f7f070f7f070f7f070f7f070f7f07157f50157f50157f50157f50157f503d1ec03d1ec03d1ec03d1ec03d1ec00000
020313f1230907076a030c001000003c80ff05 74 100007006910000000000000000000004c2d02014c4f554e4745205456090707
";
/// Bytes that are no ELD, in hex, and why.
const REFUSED: &[(&str, EldError)] = &[
    ("", EldError::Short),
    ("10000400600000000000000000000000000000", EldError::Short),
    (
        "080004006000000000000000000000004c2d0201",
        EldError::Version,
    ),
    ("100005006000000000000000000000004c2d0201", EldError::Cut),
    (
        "10000900710000000000000000000000000000004142434445464748494a4b4c4d4e4f5051525354",
        EldError::Name,
    ),
    (
        "10000400611000000000000000000000000000005456090707",
        EldError::Parts,
    ),
];
/// An ELD with a port, of a display with DisplayPort, in hex.
const PORT: &str = "f80006006217f0010102030405060708000000004154090707000000ff";
/// The same in words.
const WORDS: &str = "\
eld version 31 cta 3 connection displayport ai on hdcp on delay 480 port 0102030405060708 maker - 0000 product 0 name AT
speakers 01 FL FR
audio 090707 linear PCM, 2 channels, 32 44.1 48 kHz, 16 20 24 bits
";
/// Its objects.
const OBJECTS: &str =
    r#"{"line":"eld version 31 cta 3 connection displayport ai on hdcp on delay 480 port 0102030405060708 maker - 0000 product 0 name AT","type":"eld","version":31,"cta":3,"connection":"displayport","ai":true,"hdcp":true,"delay":480,"port":"0102030405060708","maker":null,"maker_bytes":"0000","product":0,"name":"AT"}
{"line":"speakers 01 FL FR","type":"speakers","bytes":"01","meaning":"FL FR"}
{"line":"audio 090707 linear PCM, 2 channels, 32 44.1 48 kHz, 16 20 24 bits","type":"audio","bytes":"090707","meaning":"linear PCM, 2 channels, 32 44.1 48 kHz, 16 20 24 bits"}
"#;

/// ELDs without a name and without speakers, over connections that are reserved, and their words.
const RESERVED: &[(&str, &str)] = &[
    (
        "100004006008000000000000000000004c2d0201",
        "eld version 2 cta 3 connection reserved-2 ai off hdcp off delay 0 port 0000000000000000 maker SAM 4c2d product 258 name -\nspeakers 00 -\n",
    ),
    (
        "10000400000c000000000000000000004c2d0201",
        "eld version 2 cta 0 connection reserved-3 ai off hdcp off delay 0 port 0000000000000000 maker SAM 4c2d product 258 name -\nspeakers 00 -\n",
    ),
];

/// An EDID of the base block and an extension that has these bytes in front and this checksum.
fn edid_of(rt: &(impl Abort + AllocGlobal), front: &str, checksum: &str) -> Vec<u8> {
    let mut bytes = hex::decode(rt.alloc(), BASE).expect(rt, "hex digits");
    let front = hex::decode(rt.alloc(), front).expect(rt, "hex digits");
    bytes.extend_from_slice(&front).expect(rt, "memory");
    for _ in front.len()..127 {
        bytes.push(0).expect(rt, "memory");
    }
    let checksum = hex::decode(rt.alloc(), checksum).expect(rt, "hex digits");
    bytes.extend_from_slice(&checksum).expect(rt, "memory");
    bytes
}

fn hex_of(rt: &(impl Abort + AllocGlobal), bytes: &[u8]) -> String {
    let mut text = Vec::new(rt.alloc());
    write_eld_hex(bytes, &mut Writes::new(&mut text)).expect(rt, "room");
    String::from_utf8(text).expect(rt, "a text")
}

fn words_of(rt: &(impl Abort + AllocGlobal), form: Form, bytes: &[u8]) -> String {
    let mut text = Vec::new(rt.alloc());
    write_eld_fields(bytes, form, &mut Writes::new(&mut text)).expect(rt, "an ELD");
    String::from_utf8(text).expect(rt, "a text")
}

fn words_of_eld(rt: &(impl Abort + AllocGlobal), eld: &Eld) -> String {
    let mut text = Vec::new(rt.alloc());
    write_eld(eld, Form::Text, &mut Writes::new(&mut text)).expect(rt, "room");
    String::from_utf8(text).expect(rt, "a text")
}

/// The ELD of a row has its bytes, and says in words what is read of them.
fn check_row(rt: &(impl Abort + AllocGlobal), row: &str) {
    let (edid, wanted) = row.rsplit_once(' ').expect(rt, "a row");
    let (front, checksum) = edid.rsplit_once(' ').expect(rt, "a row");
    let bytes = edid_of(rt, front, checksum);
    let edid = edid_from_bytes(&bytes).expect(rt, "an EDID");
    let eld = eld_of(&edid.base, edid.extensions.as_slice(), Connection::Hdmi);
    eld_reads_back(&edid.base, edid.extensions.as_slice(), Connection::Hdmi);
    let wanted = hex::decode(rt.alloc(), wanted).expect(rt, "hex digits");
    assert!(rt; eld.as_slice() == wanted.as_slice(), "the bytes");
    let parts = display_eld(&edid.base, edid.extensions.as_slice(), Connection::Hdmi);
    let words = words_of_eld(rt, &parts);
    assert!(rt;
        words.as_str() == words_of(rt, Form::Text, eld.as_slice()).as_str(),
        "the words"
    );
}

#[test]
fn elds_have_the_bytes_of_linux(rt: HostRuntime) {
    for row in ROWS.lines() {
        check_row(&rt, row);
    }
}

#[test]
fn bytes_are_hex(rt: HostRuntime) {
    assert!(rt; hex_of(&rt, &[0x10, 0x00, 0xf7]).as_str() == "1000f7\n");
}

#[test]
fn elds_are_read(rt: HostRuntime) {
    let bytes = hex::decode(rt.alloc(), PORT).expect(&rt, "hex digits");
    assert!(rt; words_of(&rt, Form::Text, &bytes).as_str() == WORDS);
    assert!(rt; words_of(&rt, Form::Json, &bytes).as_str() == OBJECTS);
    for (digits, words) in RESERVED {
        let bytes = hex::decode(rt.alloc(), *digits).expect(&rt, "hex digits");
        assert!(rt;
            words_of(&rt, Form::Text, &bytes).as_str() == *words,
            "a row"
        );
    }
}

#[test]
fn what_is_no_eld_is_refused(rt: HostRuntime) {
    for (digits, error) in REFUSED {
        let bytes = hex::decode(rt.alloc(), *digits).expect(&rt, "hex digits");
        assert!(rt;
            matches!(read_eld(&bytes), Err(fault) if fault == *error),
            "the cause"
        );
    }
}

#[test]
fn a_full_writer_has_the_front(rt: HostRuntime) {
    let bytes = hex::decode(rt.alloc(), PORT).expect(&rt, "hex digits");
    let mut room = [0_u8; 100];
    let fault = write_eld_fields(&bytes, Form::Text, &mut Writes::new(room.as_mut_slice()));
    assert!(rt; matches!(fault, Err(EldFault::Write(fault)) if fault.count == 100));
    assert!(rt; Some(room.as_slice()) == WORDS.as_bytes().get(..100));
}
