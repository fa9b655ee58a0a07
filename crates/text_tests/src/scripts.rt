//! What a topology and a script say. Why others are refused stands in tests/cases: refused_texts.txt and scripts.txt.
use crate::cases::{bytes_of, case_holds};
use device_core::{Act, Key, Ticket, VolumeKey};
use message_table::UserControl;
use room_net::{Event, HeaderNames};
use room_script::{Script, ScriptError, TimedEvent, Topology, parse_script, parse_topology};
use std::alloc::Global;
use std::process::Abort;

// A television with four ports, and a player in the first.
const NETWORK: &str = "device tv tv 4\ndevice p1 player 0\nplug p1 tv 1\n";

// The script of a text, over that network.
fn read(alloc: Global, text: &str) -> Result<Script, ScriptError> {
    match parse_topology(alloc, NETWORK.as_bytes()) {
        Ok(topology) => parse_script(alloc, &topology, text.as_bytes()),
        Err(_) => Err(ScriptError::Memory),
    }
}

fn is_reported(alloc: Global, error: &ScriptError, reported: &str) -> bool {
    match format!(in alloc; "{error}") {
        Ok(text) => text.as_str() == reported,
        Err(_) => false,
    }
}

fn is_refused(alloc: Global, text: &str, reported: &str) -> bool {
    match read(alloc, text) {
        Ok(_) => false,
        Err(error) => is_reported(alloc, &error, reported),
    }
}

// The one event of a script, if it stands on its first line, at 7.
fn only_event(mut script: Script) -> Option<Event> {
    let last = script.events.pop()?;
    if script.events.is_empty() && last.line == 1 && last.at == 7 {
        Some(last.event)
    } else {
        None
    }
}

// The event of a line that begins and goes on so.
fn event(alloc: Global, front: &str, rest: &str) -> Option<Event> {
    let text = format!(in alloc; "at 7 {front}{rest}\nend 8\n").ok()?;
    match read(alloc, text.as_str()) {
        Ok(script) => only_event(script),
        Err(_) => None,
    }
}

// Lines, and the names of their events.
const EVENTS: &str = "\
plug p1 tv 300 => plug 1 into port 255 of 0
unplug p1 => unplug 1
press tv menu => press menu of 0
release p1 menu => release menu of 1
send p1 4>0 set-osd-name \"a  b\" => send from 1
send p1 hex 40:47:61:20:20:62 => send from 1
send p1 attempts 4 4>0 set-osd-name \"a  b\" => send from 1, 4 times at most
send p1 attempts 4 hex 404761202062 => send from 1, 4 times at most
send p1 attempts 4 @p1>@tv set-osd-name \"a  b\" => send from p1 to tv, 4 times at most
send p1 @p1>@tv set-osd-name \"a  b\" => send from p1 to tv
send p1 4>@tv set-osd-name \"a  b\" => send from 4 to tv
send p1 @p1>e set-osd-name \"a  b\" => send from p1 to 14
send p1 @p1>f set-osd-name \"a  b\" => send from p1 to all
send p1 @p1>@p1 => poll from p1 to p1
send p1 f>@tv => poll from 15 to tv
hold p1 - => hold none at 1
hold p1 e => hold 14 at 1
hold p1 1+4 => hold 1 and 4 at 1
hold p1 1+4+8 => hold 1, 4 and 8 at 1
hold p1 1+4+8+5 => hold 1, 4, 8 and 5 at 1
drop tv => drop at 0";

// The name of each hold that is listed.
fn hold_name(act: &Act) -> &'static str {
    let Act::Hold {
        first,
        second,
        more,
    } = act
    else {
        return "another act";
    };
    match (
        first.value(),
        second.map(|address| address.value()),
        more.third.map(|address| address.value()),
        more.fourth.map(|address| address.value()),
    ) {
        (15, None, None, None) => "hold none at 1",
        (14, None, None, None) => "hold 14 at 1",
        (1, Some(4), None, None) => "hold 1 and 4 at 1",
        (1, Some(4), Some(8), None) => "hold 1, 4 and 8 at 1",
        (1, Some(4), Some(8), Some(5)) => "hold 1, 4, 8 and 5 at 1",
        _ => "another hold",
    }
}

// The name of each frame with names that is listed: of the player, the television or both, and 0 in the place of each.
fn named_frame_name(
    initiator: Option<usize>,
    destination: Option<usize>,
    frame: &[u8],
) -> &'static str {
    let (header, rest) = frame.split_first().unwrap_or((&0, frame));
    match (
        initiator,
        destination,
        *header,
        rest == b"\x47a  b".as_slice(),
    ) {
        (Some(1), Some(0), 0x00, true) => "send from p1 to tv",
        (None, Some(0), 0x40, true) => "send from 4 to tv",
        (Some(1), None, 0x0E, true) => "send from p1 to 14",
        (Some(1), None, 0x0F, true) => "send from p1 to all",
        (Some(1), Some(1), 0x00, false) if rest.is_empty() => "poll from p1 to p1",
        (None, Some(0), 0xF0, false) if rest.is_empty() => "poll from 15 to tv",
        _ => "another frame",
    }
}

// The name of each of the events that are listed.
fn event_name(event: &Event) -> &'static str {
    match event {
        Event::Plug {
            child: 1,
            parent: 0,
            port: 255,
        } => "plug 1 into port 255 of 0",
        Event::Unplug { child: 1 } => "unplug 1",
        Event::Key {
            device: 0,
            key: Key::Menu,
            press: true,
        } => "press menu of 0",
        Event::Key {
            device: 1,
            key: Key::Menu,
            press: false,
        } => "release menu of 1",
        Event::Send {
            device: 1,
            frame,
            ticket: Ticket { line: 1, attempts },
        } if frame.bytes() == b"\x40\x47a  b".as_slice() => match attempts {
            None => "send from 1",
            Some(4) => "send from 1, 4 times at most",
            Some(_) => "send from 1, otherwise",
        },
        Event::SendNamed {
            device: 1,
            names,
            frame,
            ticket: Ticket {
                line: 1,
                attempts: None,
            },
        } => named_frame_name(names.initiator, names.destination, frame.bytes()),
        Event::SendNamed {
            device: 1,
            names: HeaderNames {
                initiator: Some(1),
                destination: Some(0),
            },
            ticket: Ticket {
                line: 1,
                attempts: Some(4),
            },
            ..
        } => "send from p1 to tv, 4 times at most",
        Event::Outside { device: 1, act } => hold_name(act),
        Event::Outside {
            device: 0,
            act: Act::Empty,
        } => "drop at 0",
        _ => "another event",
    }
}

fn is_event(alloc: Global, line: &str, name: &str) -> bool {
    match event(alloc, line, "") {
        Some(event) => event_name(&event) == name,
        None => false,
    }
}

#[test]
fn reads_each_event(rt: HostRuntime) {
    for case in EVENTS.lines() {
        let (line, name) = case.split_once(" => ").unwrap_or((case, "no row"));
        case_holds(&rt, is_event(rt.alloc(), line, name), case);
    }
}

// The word of a key.
fn key_word(key: &Key) -> &'static str {
    match key {
        Key::Play => "play",
        Key::Stop => "stop",
        Key::Eject => "eject",
        Key::Load => "load",
        Key::Menu => "menu",
        Key::Power => "power",
        Key::Volume(VolumeKey::Up) => "up",
        Key::Volume(VolumeKey::Down) => "down",
        Key::Volume(VolumeKey::Mute) => "mute",
        Key::Audio { on: true } => "audio on",
        Key::Audio { on: false } => "audio off",
        Key::Arc { on: true } => "arc on",
        Key::Arc { on: false } => "arc off",
        Key::Port(_) => "port",
        Key::Watch(_) => "watch",
        Key::Language(_) => "language",
        Key::Remote {
            code: UserControl::Other(_),
            ..
        } => "a code without a word",
        Key::Remote { .. } => "remote",
    }
}

// Whether a key has these bytes: a port, an address, letters, or a destination and a code.
fn has_bytes(key: &Key, bytes: &[u8]) -> bool {
    match key {
        Key::Port(port) => bytes == [*port].as_slice(),
        Key::Watch(phys) => bytes == [phys.high, phys.low].as_slice(),
        Key::Language(letters) => {
            bytes == [letters.first, letters.second, letters.third].as_slice()
        }
        Key::Remote { to, code } => bytes == [to.value(), code.byte()].as_slice(),
        _ => bytes.is_empty(),
    }
}

// The words of keys, and after an arrow the word of each key, and its bytes if it has some.
const KEYS: &str = "\
play => play
stop => stop
eject => eject
load => load
menu => menu
power => power
volume-up => up
volume-down => down
mute => mute
audio on => audio on
audio off => audio off
arc on => arc on
arc off => arc off
port 0 => port: 00
port 15 => port: 0f
port 256 => port: ff
watch 1.2.3.f => watch: 12 3f
language eng => language: 65 6e 67
remote 1 up => remote: 01 01
remote e select => remote: 0e 00
remote e up => remote: 0e 01
remote e down => remote: 0e 02
remote e left => remote: 0e 03
remote e right => remote: 0e 04
remote e root-menu => remote: 0e 09
remote e exit => remote: 0e 0d
remote e digit-0 => remote: 0e 20
remote e digit-1 => remote: 0e 21
remote e digit-2 => remote: 0e 22
remote e digit-3 => remote: 0e 23
remote e digit-4 => remote: 0e 24
remote e digit-5 => remote: 0e 25
remote e digit-6 => remote: 0e 26
remote e digit-7 => remote: 0e 27
remote e digit-8 => remote: 0e 28
remote e digit-9 => remote: 0e 29
remote e power => remote: 0e 40
remote e volume-up => remote: 0e 41
remote e volume-down => remote: 0e 42
remote e mute => remote: 0e 43
remote e play => remote: 0e 44
remote e stop => remote: 0e 45
remote e pause => remote: 0e 46
remote e power-off => remote: 0e 6c
remote e power-on => remote: 0e 6d";

// The event of a line is that key, pressed at the television.
fn is_key(alloc: Global, words: &str, reported: &str) -> bool {
    let (word, bytes) = reported.split_once(": ").unwrap_or((reported, ""));
    match event(alloc, "press tv ", words) {
        Some(Event::Key { key, .. }) => key_word(&key) == word && has_bytes(&key, &bytes_of(bytes)),
        _ => false,
    }
}

#[test]
fn reads_each_key(rt: HostRuntime) {
    for line in KEYS.lines() {
        let (words, reported) = line.split_once(" => ").unwrap_or((line, "no row"));
        case_holds(&rt, is_key(rt.alloc(), words, reported), line);
    }
}

// Pulses of 400, each 25,000 after the end of the one before.
fn pulse(alloc: Global, number: u32) -> Option<String> {
    let from = u64::from(number).saturating_mul(25_400);
    format!(in alloc; "pulse {from} 400\n").ok()
}

// Lines of all kinds at their times.
fn numbered(alloc: Global, number: u32) -> Option<String> {
    let (front, rest) = match number % 4 {
        0 => ("at", " press p1 play"),
        1 => ("at", " release tv volume-up"),
        2 => ("#", ""),
        _ => ("at", " send p1 4>0 set-osd-name \"player\""),
    };
    format!(in alloc; "{front} {number}{rest}\n").ok()
}

// 4,096 pulses or 4,000 other lines, and what follows them.
fn long_script(alloc: Global, are_pulses: bool, after: &str) -> Option<String> {
    let mut text = String::new(alloc);
    let count = if are_pulses { 4096 } else { 4000 };
    for number in 0..count {
        let line = if are_pulses {
            pulse(alloc, number)
        } else {
            numbered(alloc, number)
        };
        text.push_str(line?.as_str()).ok()?;
    }
    text.push_str(after).ok()?;
    Some(text)
}

fn has_all_pulses(script: &Script) -> bool {
    let pulses = script.pulses.as_slice();
    match pulses {
        [first, .., last] => {
            pulses.len() == 4096
                && (first.from, first.to) == (0, 400)
                && (last.from, last.to) == (104_013_000, 104_013_400)
                && script.end == 20
        }
        _ => false,
    }
}

// The script of a text, unless there was no memory for it.
fn script_of(alloc: Global, text: Option<String>) -> Option<Script> {
    match text {
        Some(text) => read(alloc, text.as_str()).ok(),
        None => None,
    }
}

// Whether a text is refused so, unless there was no memory for it.
fn refuses(alloc: Global, text: Option<String>, reported: &str) -> bool {
    match text {
        Some(text) => is_refused(alloc, text.as_str(), reported),
        None => false,
    }
}

fn reads_all_pulses(alloc: Global) -> bool {
    match script_of(alloc, long_script(alloc, true, "end 20\n")) {
        Some(script) => has_all_pulses(&script),
        None => false,
    }
}

// A pull that begins a microsecond after the end of a pulse, the widest there is, and the least one, which touches nothing.
const PULLS: &str = "pulse 100000 400\npull 100401 10000000\npull 10100402 1\nend 20\n";

// A run has the pulses and pulls of its script, in one order.
fn hands_on_pulls(alloc: Global) -> bool {
    match read(alloc, PULLS) {
        Ok(script) => {
            let pulls = script.to_pulls();
            match pulls.as_slice() {
                [first, second, last] => {
                    (first.from, first.to) == (100_000, 100_400)
                        && (second.from, second.to) == (100_401, 10_100_401)
                        && (last.from, last.to) == (10_100_402, 10_100_403)
                }
                _ => false,
            }
        }
        Err(_) => false,
    }
}

#[test]
fn makes_the_pulls_of_a_run(rt: HostRuntime) {
    assert!(rt; hands_on_pulls(rt.alloc()));
}

// A pin that is low for longer than a pull may be, levels that it has already, and one that only the end lets go.
const PINS: &str =
    "pin 0 1\npin 100 0\npin 100 0\npin 20000000 0\npin 30000000 1\npin 30000000 1\npin 30000001 0\nend 30000005\n";

// A pin that goes low when its script ends, and at the latest time, is low for a microsecond.
const LAST_PIN: &str = "pin 1000000000000 0\nend 1000000000000\n";

fn hands_on_pins(alloc: Global) -> bool {
    match read(alloc, PINS) {
        Ok(script) => match script.pulses.as_slice() {
            [first, last] => {
                (first.from, first.to) == (100, 30_000_000)
                    && (last.from, last.to) == (30_000_001, 30_000_005)
            }
            _ => false,
        },
        Err(_) => false,
    }
}

fn hands_on_the_last_pin(alloc: Global) -> bool {
    match read(alloc, LAST_PIN) {
        Ok(script) => match script.pulses.as_slice() {
            [only] => (only.from, only.to) == (1_000_000_000_000, 1_000_000_000_001),
            _ => false,
        },
        Err(_) => false,
    }
}

#[test]
fn makes_pulls_of_a_pin(rt: HostRuntime) {
    assert!(rt; hands_on_pins(rt.alloc()));
    assert!(rt; hands_on_the_last_pin(rt.alloc()));
}

// So many pulls of a microsecond with a microsecond between, and what follows them.
fn dense_script(alloc: Global, count: u64, after: &str) -> Option<String> {
    let mut text = String::new(alloc);
    for number in 0..count {
        let from = number.saturating_mul(2);
        let line = format!(in alloc; "pull {from} 1\n").ok()?;
        text.push_str(line.as_str()).ok()?;
    }
    text.push_str(after).ok()?;
    Some(text)
}

// At most 16,384 pulses and pulls wait, and a pulse comes after at most 4,096 of them.
#[test]
fn reads_the_most_pulls(rt: HostRuntime) {
    let alloc = rt.alloc();
    let all = script_of(alloc, dense_script(alloc, 16_384, "end 20\n"));
    let count = all.map(|script| script.pulses.len());
    case_holds(&rt, count == Some(16_384), "16,384 pulls");
    let more = dense_script(alloc, 16_384, "pull 32768 1\nend 20\n");
    case_holds(
        &rt,
        refuses(alloc, more, "line 16385: too-many"),
        "one pull more",
    );
    let pin = dense_script(
        alloc,
        16_383,
        "pin 32766 0\npin 32767 1\npin 32768 0\nend 20\n",
    );
    case_holds(
        &rt,
        refuses(alloc, pin, "line 16386: too-many"),
        "a pin that goes low once more",
    );
    let pulse = dense_script(alloc, 4_096, "pulse 33191 1\nend 20\n");
    case_holds(
        &rt,
        refuses(alloc, pulse, "line 4097: too-many"),
        "a pulse after 4,096 pulls",
    );
    let last = script_of(alloc, dense_script(alloc, 4_095, "pulse 33189 1\nend 20\n"));
    case_holds(&rt, last.is_some(), "a pulse after 4,095 pulls");
}

fn is_last_of_all(last: Option<&TimedEvent>) -> bool {
    match last {
        Some(last) => (last.line, last.at) == (4000, 3999),
        None => false,
    }
}

fn reads_all_lines(alloc: Global) -> bool {
    match script_of(alloc, long_script(alloc, false, "end 4000")) {
        Some(script) => script.events.len() == 3000 && is_last_of_all(script.events.last()),
        None => false,
    }
}

#[test]
fn reads_long_scripts(rt: HostRuntime) {
    case_holds(&rt, reads_all_pulses(rt.alloc()), "4,096 pulses");
    case_holds(&rt, reads_all_lines(rt.alloc()), "4,000 lines");
}

// Lines that a long script is refused with before its end, whether that is one of pulses, and why. A pulse after 4,096
// is too many, unless it is at fault otherwise.
const ONE_MORE: &[(bool, &str, &str)] = &[
    (true, "pulse 104038400 400\nend 20\n", "line 4097: too-many"),
    (true, "pulse 104038400 0\nend 20\n", "line 4097: width"),
    (true, "pulse 104038399 400\nend 20\n", "line 4097: close"),
    (true, "pulse 0 400\nend 20\n", "line 4097: order"),
    (false, "at 3998 unplug p1\nend 4000", "line 4001: order"),
];

#[test]
fn refuses_a_line_after_a_long_script(rt: HostRuntime) {
    for (are_pulses, after, reported) in ONE_MORE {
        let text = long_script(rt.alloc(), *are_pulses, after);
        case_holds(&rt, refuses(rt.alloc(), text, reported), after);
    }
}

// The longest line that an input of 1,048,576 bytes has room for, beside a television and an empty script.
fn long_edid_line(alloc: Global) -> Option<Vec<u8>> {
    let mut text = Vec::new(alloc);
    text.extend_from_slice(b"device tv tv 1\nedid ").ok()?;
    for _ in 0..524_260 {
        text.extend_from_slice(b"5a").ok()?;
    }
    Some(text)
}

fn has_long_edid(topology: &Topology) -> bool {
    match &topology.edid {
        Some(bytes) => {
            bytes.len() == 524_260 && bytes.first() == Some(&0x5a) && bytes.last() == Some(&0x5a)
        }
        None => false,
    }
}

fn reads_long_edid(alloc: Global, text: &[u8]) -> bool {
    match parse_topology(alloc, text) {
        Ok(topology) => has_long_edid(&topology),
        Err(_) => false,
    }
}

#[test]
fn reads_a_long_edid_line(rt: HostRuntime) {
    let text = long_edid_line(rt.alloc()).expect(&rt, "memory");
    assert!(rt; reads_long_edid(rt.alloc(), &text));
}
