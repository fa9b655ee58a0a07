//! Cases of the tables as texts. A line has five columns: kinds, what the record has before, a frame or a key, what
//! of the record has changed after it, and the frames that it queues. `@` stands for the device's own address.
use arrayvec::ArrayVec;
use device_core::{Device, Fate, HeardReport, Key, KeyError, Port, Record, Volume, VolumeKey};
use line_frames::{Addr, Frame};
use message_table::{DeckInfo, Triple, UserControl};
use std::process::Abort;
use text_core::{Kind, Phys};

pub(crate) fn kind_of(word: &str) -> Option<Kind> {
    match word {
        "tv" => Some(Kind::Tv),
        "amp" => Some(Kind::Amp),
        "player" => Some(Kind::Player),
        "recorder" => Some(Kind::Recorder),
        "switch" => Some(Kind::Switch),
        "combo" => Some(Kind::Combo),
        "outside" => Some(Kind::Outside),
        "outside-tv" => Some(Kind::OutsideTv),
        _ => None,
    }
}

// The first address of the kind's list, the player's of a box; 15 for a switch and a device from outside.
pub(crate) fn own_address(kind: Kind) -> u8 {
    match kind {
        Kind::Tv => 0,
        Kind::Amp => 5,
        Kind::Player | Kind::Combo => 4,
        Kind::Recorder => 1,
        Kind::Switch | Kind::Outside | Kind::OutsideTv => 15,
    }
}

/// A television is at 0.0.0.0, any other device at 1.0.0.0.
pub(crate) fn phys_at(kind: Kind) -> Phys {
    let high = if kind.is_television() { 0 } else { 0x10 };
    Phys { high, low: 0 }
}

/// A device with three ports that has settled, with nothing queued.
pub(crate) fn settled(kind: Kind) -> Device<16> {
    let mut device = Device::new(kind, b"p1", 3);
    device.join(1, phys_at(kind), 0);
    for _ in 0..2 {
        if device.is_allocating() && device.queue_front().is_some() {
            device.sent(Fate::Unacked, 0);
        }
    }
    send_all(&mut device);
    device
}

// Sends what is queued.
fn send_all(device: &mut Device<16>) {
    for _ in 0..16 {
        if device.queue_front().is_some() {
            device.sent(Fate::Delivered, 0);
        }
    }
}

fn digit(character: u8, own: u8) -> u8 {
    match character {
        b'@' => own,
        b'0'..=b'9' => character - b'0',
        b'a'..=b'f' => character - b'a' + 10,
        _ => 0,
    }
}

fn byte_of(word: &str, own: u8) -> u8 {
    match word.as_bytes() {
        [low] => digit(*low, own),
        [high, low] => digit(*high, own)
            .saturating_mul(16)
            .saturating_add(digit(*low, own)),
        _ => 0,
    }
}

fn bytes_between(words: &str, between: char, own: u8) -> ArrayVec<u8, 16> {
    let mut bytes = ArrayVec::new();
    for word in words.split(between) {
        let _ = bytes.try_push(byte_of(word, own));
    }
    bytes
}

/// The bytes of words of two digits.
pub(crate) fn bytes_of(words: &str, own: u8) -> ArrayVec<u8, 16> {
    bytes_between(words, ' ', own)
}

fn optional(value: &str) -> Option<u8> {
    match value {
        "-" => None,
        _ => Some(byte_of(value, 0)),
    }
}

/// The physical address of four digits, if there are four.
pub(crate) fn phys_of(value: &str) -> Option<Phys> {
    let (high, low) = value.split_at_checked(2)?;
    Some(Phys {
        high: byte_of(high, 0),
        low: byte_of(low, 0),
    })
}

fn language_of(value: &str) -> Option<Triple> {
    let (first, rest) = value.split_at_checked(2)?;
    let (second, third) = rest.split_at_checked(2)?;
    Some(Triple {
        first: byte_of(first, 0),
        second: byte_of(second, 0),
        third: byte_of(third, 0),
    })
}

// What was heard: from where, the opcode and the first operand.
fn note_of(value: &str) -> Option<HeardReport> {
    match bytes_between(value, ':', 0).as_slice() {
        [from, opcode, first] => Some(HeardReport {
            from: Addr::new(*from % 16),
            opcode: *opcode,
            first: *first,
        }),
        _ => None,
    }
}

fn volume_of(level: u8) -> Volume {
    let mut volume = Volume::new();
    for _ in 20..level {
        volume = volume.louder();
    }
    for _ in level..20 {
        volume = volume.softer();
    }
    volume
}

fn text_of(value: &str) -> ArrayVec<u8, 16> {
    match value {
        "-" => ArrayVec::new(),
        _ => bytes_between(value, '_', 0),
    }
}

// Sets a field that is on or off, if this is one.
fn set_switch(record: &mut Record, field: &str, on: bool) -> bool {
    match field {
        "power" => record.power = on,
        "menu" => record.menu = on,
        "audio" => record.audio = on,
        "mute" => record.mute = on,
        "arc" => record.arc = on,
        _ => return false,
    }
    true
}

fn port_of(value: &str) -> Option<Port> {
    match optional(value) {
        None => None,
        Some(port) => Some(Port::new(port % 16)),
    }
}

fn address_of(value: &str) -> Option<Addr> {
    match optional(value) {
        None => None,
        Some(address) => Some(Addr::new(address % 16)),
    }
}

// Sets a field that may be empty, if this is one.
fn set_place(record: &mut Record, field: &str, value: &str) -> bool {
    match field {
        "active" => record.active = phys_of(value),
        "path" => record.path = phys_of(value),
        "sel" => record.selected = port_of(value),
        "sub" => record.sub = address_of(value),
        "held" => record.held = optional(value),
        "heard" => record.heard = note_of(value),
        _ => return false,
    }
    true
}

// Sets any other field, if there is one of this name.
fn set_other(record: &mut Record, field: &str, value: &str) -> Option<()> {
    match field {
        "deck" => record.deck = DeckInfo::from_byte(byte_of(value, 0)),
        "volume" => record.volume = volume_of(value.parse().ok()?),
        "lang" => record.language = language_of(value)?,
        "osd" => record.osd = text_of(value),
        _ => return None,
    }
    Some(())
}

// Sets a field of a record.
fn set(record: &mut Record, word: &str) -> Option<()> {
    let (field, value) = word.split_once('=')?;
    if set_switch(record, field, value == "on") || set_place(record, field, value) {
        return Some(());
    }
    set_other(record, field, value)
}

/// Sets the fields that the words name; none where a word names no field.
pub(crate) fn set_all(record: &mut Record, words: &str) -> Option<()> {
    if words != "-" {
        for word in words.split(' ') {
            set(record, word)?;
        }
    }
    Some(())
}

fn phys_bytes(phys: Option<Phys>) -> [u8; 3] {
    match phys {
        None => [0, 0, 0],
        Some(phys) => [1, phys.high, phys.low],
    }
}

fn note_bytes(note: Option<HeardReport>) -> [u8; 4] {
    match note {
        None => [0, 0, 0, 0],
        Some(note) => [1, note.from.value(), note.opcode, note.first],
    }
}

fn port_bytes(port: Option<Port>) -> [u8; 2] {
    match port {
        None => [0, 0],
        Some(port) => [1, port.value()],
    }
}

fn address_bytes(address: Option<Addr>) -> [u8; 2] {
    match address {
        None => [0, 0],
        Some(address) => [1, address.value()],
    }
}

fn held_bytes(held: Option<u8>) -> [u8; 2] {
    match held {
        None => [0, 0],
        Some(code) => [1, code],
    }
}

fn plain_bytes(record: &Record) -> [u8; 10] {
    let language = record.language;
    [
        u8::from(record.power),
        u8::from(record.menu),
        u8::from(record.audio),
        u8::from(record.mute),
        u8::from(record.arc),
        record.deck.byte(),
        record.volume.value(),
        language.first,
        language.second,
        language.third,
    ]
}

/// All fields of a record as bytes, the text on the screen last.
pub(crate) fn record_bytes(record: &Record) -> ArrayVec<u8, 64> {
    let mut bytes = ArrayVec::new();
    let _ = bytes.try_extend_from_slice(&plain_bytes(record));
    let _ = bytes.try_extend_from_slice(&phys_bytes(record.active));
    let _ = bytes.try_extend_from_slice(&phys_bytes(record.path));
    let _ = bytes.try_extend_from_slice(&port_bytes(record.selected));
    let _ = bytes.try_extend_from_slice(&address_bytes(record.sub));
    let _ = bytes.try_extend_from_slice(&held_bytes(record.held));
    let _ = bytes.try_extend_from_slice(&note_bytes(record.heard));
    let _ = bytes.try_extend_from_slice(record.osd.as_slice());
    bytes
}

// A key that is one word.
fn plain_key(name: &str) -> Option<Key> {
    let key = match name {
        "play" => Key::Play,
        "stop" => Key::Stop,
        "eject" => Key::Eject,
        "load" => Key::Load,
        "menu" => Key::Menu,
        "power" => Key::Power,
        "volume-up" => Key::Volume(VolumeKey::Up),
        "volume-down" => Key::Volume(VolumeKey::Down),
        "mute" => Key::Volume(VolumeKey::Mute),
        _ => return None,
    };
    Some(key)
}

fn remote_key(operand: &str) -> Option<Key> {
    let (to, code) = operand.split_once(' ')?;
    Some(Key::Remote {
        to: Addr::new(byte_of(to, 0) % 16),
        code: UserControl::from_byte(byte_of(code, 0)),
    })
}

// A key with an operand.
fn key_with(name: &str, operand: &str) -> Option<Key> {
    let on = operand == "on";
    match name {
        "watch" => Some(Key::Watch(phys_of(operand)?)),
        "port" => Some(Key::Port(byte_of(operand, 0))),
        "audio" => Some(Key::Audio { on }),
        "arc" => Some(Key::Arc { on }),
        "language" => Some(Key::Language(language_of(operand)?)),
        "remote" => remote_key(operand),
        _ => None,
    }
}

/// The key of some words.
pub(crate) fn key_of(words: &str) -> Option<Key> {
    match words.split_once(' ') {
        Some((name, operand)) => key_with(name, operand),
        None => plain_key(words),
    }
}

// Presses or releases a key. Whether the device has that key.
fn use_key(device: &mut Device<16>, words: &str, press: bool) -> Option<bool> {
    let key = key_of(words)?;
    Some(device.key(key, press, 0) != Err(KeyError::NotForKind))
}

/// Follows the frame of these bytes, if they are one.
pub(crate) fn follow(device: &mut Device<16>, bytes: &[u8]) -> Option<bool> {
    match Frame::new(bytes) {
        Ok(frame) => {
            device.follow(&frame, 0);
            Some(true)
        }
        Err(_) => None,
    }
}

// Follows the frame, or presses or releases the key. Whether the device has that key.
fn act(device: &mut Device<16>, doing: &str, own: u8) -> Option<bool> {
    match doing.split_once(' ') {
        Some(("press", key)) => use_key(device, key, true),
        Some(("release", key)) => use_key(device, key, false),
        _ => follow(device, &bytes_of(doing, own)),
    }
}

// What it has queued first is this frame, which it sends.
fn says_first(rt: &impl Abort, device: &mut Device<16>, bytes: &[u8], case: &str) {
    let Some(front) = device.queue_front() else {
        panic!(rt; "nothing queued: {case}")
    };
    assert!(rt; front.bytes() == bytes, "{case}");
    device.sent(Fate::Delivered, 0);
}

// What it has queued are these frames, and no more.
fn says(rt: &impl Abort, device: &mut Device<16>, frames: &str, own: u8, case: &str) {
    if frames != "-" {
        for words in frames.split(", ") {
            says_first(rt, device, &bytes_of(words, own), case);
        }
    }
    assert!(rt; device.queue_len() == 0, "{case}");
}

/// What a case says of a kind: the record before, what is done, and what has changed after it.
#[derive(Clone, Copy)]
pub(crate) struct Case<'a> {
    pub(crate) line: &'a str,
    pub(crate) before: &'a str,
    pub(crate) doing: &'a str,
    pub(crate) after: &'a str,
    pub(crate) frames: &'a str,
}

pub(crate) fn case_of(line: &str) -> Option<(&str, Case<'_>)> {
    let (kinds, rest) = line.split_once(" | ")?;
    let (before, rest) = rest.split_once(" | ")?;
    let (doing, rest) = rest.split_once(" | ")?;
    let (after, frames) = rest.split_once(" | ")?;
    let case = Case {
        line,
        before,
        doing,
        after,
        frames,
    };
    Some((kinds, case))
}

/// The record that is wanted after a case, as bytes: as it is before, but for what has changed.
pub(crate) fn wanted_bytes(before: &Record, after: &str) -> Option<ArrayVec<u8, 64>> {
    let mut wanted = before.copy();
    if after != "refused" {
        set_all(&mut wanted, after)?;
    }
    Some(record_bytes(&wanted))
}

// How a device comes to a state: frames that it follows and keys that are pressed, once or more often. An active source
// is the path too, so another path is routed after it.
const WAYS: &str = "\
power=off | 3f 36
active=0000 | 3f 82 00 00, 3f 86 f0 00
active=1000 | 3f 82 10 00, 3f 86 f0 00
active=1100 | 3f 82 11 00, 3f 86 f0 00
active=1200 | 3f 82 12 00, 3f 86 f0 00
path=1200 | 3f 86 12 00
deck=11 | 3@ 41 24
deck=19 | press eject
menu=on | press menu
audio=on | 3f 72 01, 3@ 70 10 00
volume=0 | press volume-down
volume=21 | press volume-up
volume=35 | press volume-up
volume=100 | press volume-up
mute=on | press mute
arc=on | 3@ c0, 3@ c1
sel=2 | press port 2
sel=3 | press port 3
lang=667261 | press language 667261
osd=68_69 | 3@ 64 00 68 69
held=01 | 3@ 44 01
held=41 | 3@ 44 41
held=44 | 3@ 44 44
sub=0 | 0@ 1a 01
sub=1 | 14 1a 01
sub=3 | 3@ 1a 01
sub=4 | 41 1a 01";

fn way_to(state: &str) -> Option<&'static str> {
    for line in WAYS.lines() {
        match line.split_once(" | ") {
            Some((name, way)) if name == state => return Some(way),
            _ => {}
        }
    }
    None
}

// The record has what these words say.
fn has(record: &Record, words: &str) -> bool {
    match wanted_bytes(record, words) {
        Some(wanted) => record_bytes(record).as_slice() == wanted.as_slice(),
        None => false,
    }
}

// Goes the way to a state until the device has it.
fn reach(device: &mut Device<16>, state: &str, own: u8) {
    let way = way_to(state).unwrap_or("no way");
    for _ in 0..80 {
        if has(device.record(), state) {
            return;
        }
        for doing in way.split(", ") {
            let _ = act(device, doing, own);
        }
    }
}

// Brings a device into the state that a case has before, with nothing queued.
fn reach_all(device: &mut Device<16>, before: &str, own: u8) {
    if before != "-" {
        for state in before.split(' ') {
            reach(device, state, own);
        }
    }
    send_all(device);
}

// What is done has what a case says after it.
fn does(device: &mut Device<16>, case: Case<'_>, own: u8) -> bool {
    let Some(wanted) = wanted_bytes(device.record(), case.after) else {
        return false;
    };
    act(device, case.doing, own) == Some(case.after != "refused")
        && record_bytes(device.record()).as_slice() == wanted.as_slice()
}

fn check_kind(rt: &impl Abort, kind: &str, case: Case<'_>) {
    let line = case.line;
    let kind = kind_of(kind).expect(rt, line);
    let own = own_address(kind);
    let mut device = settled(kind);
    reach_all(&mut device, case.before, own);
    assert!(rt; has(device.record(), case.before), "not so before: {line}");
    assert!(rt; does(&mut device, case, own), "{line}");
    says(rt, &mut device, case.frames, own, line);
}

/// Each line is a case that holds for each of its kinds.
pub(crate) fn check(rt: &impl Abort, cases: &str) {
    for line in cases.lines() {
        let (kinds, case) = case_of(line).expect(rt, line);
        for kind in kinds.split('+') {
            check_kind(rt, kind, case);
        }
    }
}
