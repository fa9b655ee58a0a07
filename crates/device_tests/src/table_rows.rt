//! Lines of the tables for records that no frame and no key brings a device of the kind to: a menu, a deck, a text on the
//! screen or an audio return channel where there is none, and a switch that has selected no port or has a key held. The
//! first four columns are those of devices; the last is what the table says.
use crate::cases::{
    Case, bytes_of, case_of, key_of, kind_of, own_address, phys_at, record_bytes, set_all,
    wanted_bytes,
};
use device_core::{Port, Record};
use device_features::{Heard, Identity, Say, Says, has_key};
use line_frames::Frame;
use message_table::{Decoded, decode};
use std::process::Abort;
use text_core::Kind;

const UNREACHED: &str = "\
amp+player+recorder+combo | osd=68_69 | 3@ 0d | - | refuse 00
tv+amp | menu=on held=44 sub=3 deck=11 | 3@ 36 | power=off menu=off held=- sub=- deck=1a | -
tv+amp | deck=19 | 3@ 36 | power=off | -
tv+amp | menu=on held=01 sub=3 deck=11 | 3@ 44 40 | power=off menu=off held=- sub=- deck=1a | -
tv+amp | menu=on held=01 sub=3 deck=11 | 3@ 44 6c | power=off menu=off held=- sub=- deck=1a | -
tv+amp | menu=on | 3@ 44 0d | held=0d | -
player+recorder+combo | arc=on | 3@ c2 | - | refuse 00
player+recorder+combo | arc=on | 3@ c5 | - | refuse 00
tv+amp+switch | menu=on held=44 sub=3 deck=11 | 3f 36 | power=off menu=off held=- sub=- deck=1a | -
switch | sel=- | 3f 80 20 00 10 00 | path=1000 | -
tv | menu=on held=44 | press power | power=off menu=off held=- | cast 36
switch | held=44 | press power | power=off held=- | -
tv+amp+switch | deck=19 | press load | - | no key";

// What is said: nothing, a message to all, or a refusal with its reason.
fn is_said(says: &Says, reported: &str) -> bool {
    match says.as_slice() {
        [] => reported == "-",
        [Say::Cast(blocks)] => match reported.strip_prefix("cast ") {
            Some(words) => blocks.bytes() == bytes_of(words, 0).as_slice(),
            None => false,
        },
        [Say::Refuse(reason)] => match reported.strip_prefix("refuse ") {
            Some(word) => bytes_of(word, 0).as_slice() == [reason.byte()].as_slice(),
            None => false,
        },
        _ => false,
    }
}

// That is said where a key is pressed.
fn presses(record: &mut Record, me: Identity, key: &str, reported: &str) -> bool {
    let Some(key) = key_of(key) else {
        return false;
    };
    if !has_key(me.kind, me.ports, &key) {
        return reported == "no key";
    }
    is_said(&record.press_key(me, key), reported)
}

// That is said where a frame is followed.
fn obeys(record: &mut Record, me: Identity, bytes: &[u8], reported: &str) -> bool {
    let Ok(frame) = Frame::new(bytes) else {
        return false;
    };
    let Decoded::Known(message) = decode(&frame) else {
        return false;
    };
    let heard = Heard {
        from: frame.initiator(),
        to: frame.destination(),
        opcode: bytes.get(1).copied().unwrap_or(0),
        first: bytes.get(2).copied().unwrap_or(0),
        at: 0,
    };
    is_said(&record.obey(me, b"p1", &heard, &message), reported)
}

// That is said by a device of this kind with three ports.
fn says(record: &mut Record, kind: Kind, doing: &str, reported: &str) -> bool {
    let me = Identity {
        kind,
        phys: phys_at(kind),
        ports: Port::new(3),
    };
    match doing.strip_prefix("press ") {
        Some(key) => presses(record, me, key, reported),
        None => obeys(record, me, &bytes_of(doing, own_address(kind)), reported),
    }
}

fn holds(kind: Kind, case: Case<'_>) -> bool {
    let mut record = Record::new(kind, Port::new(3));
    if set_all(&mut record, case.before).is_none() {
        return false;
    }
    let Some(wanted) = wanted_bytes(&record, case.after) else {
        return false;
    };
    says(&mut record, kind, case.doing, case.frames)
        && record_bytes(&record).as_slice() == wanted.as_slice()
}

fn check_kind(rt: &impl Abort, kind: &str, case: Case<'_>) {
    let kind = kind_of(kind).expect(rt, case.line);
    assert!(rt; holds(kind, case), "{}", case.line);
}

#[test]
fn the_tables_hold_for_other_records(rt: HostRuntime) {
    for line in UNREACHED.lines() {
        let (kinds, case) = case_of(line).expect(&rt, line);
        for kind in kinds.split('+') {
            check_kind(&rt, kind, case);
        }
    }
}
