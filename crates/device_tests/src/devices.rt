//! Worked rows of single devices.
use crate::cases::{bytes_of, check, follow, key_of, phys_of, settled};
use crate::effect_rows::{BOX, BROADCAST, DIRECT, IGNORED, PRESSED, UNKNOWN};
use crate::key_rows::{PRESSES, REFUSED, RELEASES};
use device_core::{Act, Device, Fate, MoreHeld, Port, Record, Ticket};
use line_frames::{Addr, Frame};
use std::alloc::Global;
use std::process::Abort;
use text_core::Kind;

#[test]
fn a_new_record_is_on(rt: HostRuntime) {
    let record = Record::new(Kind::Switch, Port::new(3));
    assert!(rt; record.power && record.deck.byte() == 0x1a);
}

/// Rows of single devices, each from a new record: the frames that are followed one after another, what then stands
/// in the record, and what is queued.
const ROWS: &str = "\
amp | - | 05 70 10 00 | audio=on | 5f 72 01
amp | audio=on | 05 70 | audio=off | 5f 72 00
amp | - | 05 70 10 | - | -
amp | audio=on | 05 44 41 | volume=21 held=41 | 50 7a 15
amp | audio=on held=41 volume=21 | 05 44 43 | mute=on held=43 | 50 7a 95
amp | - | 05 c3 | - | 50 c0
amp | - | 45 c3 | - | 54 00 c3 04
tv | - | 50 c0 | arc=on | 05 c1
tv | arc=on | 5f 36 | power=off | -
tv | arc=on power=off | 50 c0 | - | 05 00 c0 01
player | - | 04 42 04 | deck=19 | -
player | deck=19 | 04 41 24 | - | 40 00 41 01
player | - | 04 1a 01 | sub=0 | 40 1b 1a
player | sub=0 | 04 41 25 | deck=14 | 40 1b 14
player | - | 0f 86 10 00 | path=1000 active=1000 | 4f 82 10 00
player | - | 04 33 | - | 40 00 33 00
player | - | 0f 33 | - | -
player | - | f4 33 | - | -
player | - | f4 46 | - | -
player | - | 04 ff | - | 40 00 ff 00
player | - | 04 41 | - | -
player | - | 04 41 99 | - | 40 00 41 03
player | - | 04 00 41 00 | - | -";

/// The rows, and the tables of messages and of keys.
const TABLES: &[&str] = &[
    ROWS, DIRECT, PRESSED, BROADCAST, IGNORED, BOX, UNKNOWN, PRESSES, RELEASES, REFUSED,
];

#[test]
fn devices_do_what_the_tables_say(rt: HostRuntime) {
    for cases in TABLES {
        check(&rt, cases);
    }
}

// ---- what is done with a device

fn join(device: &mut Device<16>, words: &str) -> Option<()> {
    let (place, at) = words.split_once(' ')?;
    device.join(3, phys_of(place)?, at.parse().ok()?);
    Some(())
}

fn fate_of(word: &str) -> Option<Fate> {
    match word {
        "delivered" => Some(Fate::Delivered),
        "unacked" => Some(Fate::Unacked),
        "lost" => Some(Fate::Lost),
        "broken" => Some(Fate::Broken),
        _ => None,
    }
}

// The front frame has this fate.
fn sent(device: &mut Device<16>, fate: &str) -> Option<()> {
    let fate = fate_of(fate)?;
    if device.queue_front().is_none() {
        return None;
    }
    device.sent(fate, 500);
    Some(())
}

// Whether this is done, and reports nothing.
fn is_done(device: &mut Device<16>, doing: &str, words: &str) -> bool {
    match doing {
        "join" => return join(device, words).is_some(),
        "leave" => device.leave(),
        "waited" => device.waited(),
        "copy" => *device = device.copy(),
        "follow" => return follow(device, &bytes_of(words, 0)).is_some(),
        "sent" => return sent(device, words).is_some(),
        _ => return false,
    }
    true
}

// ---- what it reports

fn submit(alloc: Global, device: &mut Device<16>, most: Option<u8>, words: &str) -> Option<String> {
    let frame = Frame::new(&bytes_of(words, 0)).ok()?;
    let ticket = Ticket {
        line: 0,
        attempts: most,
    };
    match device.submit(frame, ticket, 900) {
        Ok(()) => format!(in alloc; "queued").ok(),
        Err(error) => format!(in alloc; "{error:?}").ok(),
    }
}

fn key(alloc: Global, device: &mut Device<16>, words: &str, press: bool) -> Option<String> {
    match device.key(key_of(words)?, press, 0) {
        Ok(()) => format!(in alloc; "done").ok(),
        Err(error) => format!(in alloc; "{error:?}").ok(),
    }
}

fn act(alloc: Global, device: &mut Device<16>, act: Act) -> Option<String> {
    match device.act(act) {
        Ok(()) => format!(in alloc; "done").ok(),
        Err(error) => format!(in alloc; "{error:?}").ok(),
    }
}

// A frame that is handed in with how many attempts it has.
fn submit_within(alloc: Global, device: &mut Device<16>, words: &str) -> Option<String> {
    let (most, bytes) = words.split_once(' ')?;
    let most: u8 = most.parse().ok()?;
    submit(alloc, device, Some(most), bytes)
}

fn address_of(word: &str) -> Option<Addr> {
    let address: u8 = word.parse().ok()?;
    Some(Addr::new(address % 16))
}

// Two numbers or four: the addresses that it is to hold.
fn hold(alloc: Global, device: &mut Device<16>, words: &str) -> Option<String> {
    let (first, others) = words.split_once(' ')?;
    let (second, more) = others.split_once(' ').unwrap_or((others, ""));
    let (third, fourth) = more.split_once(' ').unwrap_or((more, ""));
    let held = Act::Hold {
        first: address_of(first)?,
        second: address_of(second),
        more: MoreHeld {
            third: address_of(third),
            fourth: address_of(fourth),
        },
    };
    act(alloc, device, held)
}

// The bytes as two digits each, each after a space.
fn bytes_text(alloc: Global, bytes: &[u8]) -> Option<String> {
    let mut text = String::new(alloc);
    for byte in bytes {
        let word = format!(in alloc; " {byte:02x}").ok()?;
        text.push_str(word.as_str()).ok()?;
    }
    Some(text)
}

fn front(alloc: Global, device: &Device<16>) -> Option<String> {
    match device.queue_front() {
        Some(frame) => bytes_text(alloc, frame.bytes()),
        None => format!(in alloc; "-").ok(),
    }
}

fn value_of(address: Option<Addr>) -> Option<u8> {
    match address {
        None => None,
        Some(address) => Some(address.value()),
    }
}

fn held(alloc: Global, device: &Device<16>) -> Option<String> {
    let [first, second] = device.held();
    let (first, second) = (value_of(first), value_of(second));
    format!(in alloc; "{first:?} {second:?}").ok()
}

fn all_held(alloc: Global, device: &Device<16>) -> Option<String> {
    let [first, second, third, fourth] = device.all_held();
    let (first, second) = (value_of(first), value_of(second));
    let (third, fourth) = (value_of(third), value_of(fourth));
    format!(in alloc; "{first:?} {second:?} {third:?} {fourth:?}").ok()
}

fn holds(alloc: Global, device: &Device<16>, words: &str) -> Option<String> {
    let address: u8 = words.parse().ok()?;
    let holds = device.holds(Addr::new(address % 16));
    format!(in alloc; "{holds}").ok()
}

fn stands(alloc: Global, device: &Device<16>) -> Option<String> {
    let wire = if device.is_on_wire() { "on" } else { "off" };
    let place = if device.is_allocating() {
        "allocating"
    } else {
        "settled"
    };
    format!(in alloc; "{wire} {place}").ok()
}

// How many frames are queued, and how many were dropped.
fn queue(alloc: Global, device: &Device<16>) -> Option<String> {
    let (queued, dropped) = (device.queue_len(), device.dropped());
    format!(in alloc; "{queued} {dropped}").ok()
}

fn is_p1(device: &Device<16>) -> bool {
    device.name() == b"p1".as_slice() && device.kind() == Kind::Player && device.ports() == 3
}

// Its number, and its physical address.
fn place(alloc: Global, device: &Device<16>) -> Option<String> {
    let (number, phys) = (device.number(), device.phys());
    format!(in alloc; "{number} {:02x}{:02x}", phys.high, phys.low).ok()
}

fn reported(alloc: Global, device: &Device<16>, doing: &str, words: &str) -> Option<String> {
    match doing {
        "front" => front(alloc, device),
        "held" => held(alloc, device),
        "all-held" => all_held(alloc, device),
        "holds" => holds(alloc, device, words),
        "stands" => stands(alloc, device),
        "queue" => queue(alloc, device),
        "place" => place(alloc, device),
        "class" => format!(in alloc; "{}", device.class().micros()).ok(),
        "ready" => format!(in alloc; "{:?}", device.ready_at()).ok(),
        "is-p1" => format!(in alloc; "{}", is_p1(device)).ok(),
        _ => None,
    }
}

fn reported_after(alloc: Global, device: &mut Device<16>, line: &str) -> Option<String> {
    let (doing, words) = line.split_once(' ').unwrap_or((line, ""));
    if is_done(device, doing, words) {
        return Some(String::new(alloc));
    }
    match doing {
        "submit" => submit(alloc, device, None, words),
        "submit-within" => submit_within(alloc, device, words),
        "press" => key(alloc, device, words, true),
        "release" => key(alloc, device, words, false),
        "hold" => hold(alloc, device, words),
        "drop" => act(alloc, device, Act::Empty),
        _ => reported(alloc, device, doing, words),
    }
}

// A line for each thing that is done, and after an arrow what is reported then.
fn goes(rt: &impl Abort, alloc: Global, device: &mut Device<16>, lines: &str) {
    for line in lines.lines() {
        let (doing, wanted) = line.split_once(" => ").unwrap_or((line, ""));
        let reported = reported_after(alloc, device, doing).expect(rt, line);
        assert!(rt;
            reported.as_str().trim_start() == wanted,
            "{line}: {reported}"
        );
    }
}

// ---- what one device does

const FULL: &str = "\
queue => 16 1
front => 40 47 70 31
submit 40 47 70 31 => QueueFull
sent delivered
copy
queue => 15 1
press play => done
queue => 16 2";

const EMPTIED: &str = "\
front => 40 04
sent delivered
queue => 0 2";

const NO_ADDRESS: &str = "\
join 1000 500
stands => on allocating
held => None None
ready => Some(500)
front => 44
sent delivered
held => None None
ready => Some(500)
front => 88
sent delivered
held => None None
ready => Some(500)
front => bb
sent delivered
held => Some(15) None
front => -";

// The class of free time after the fates of an allocation's polls.
const POLLED: &str = "\
join 1000 500
class => 12000
sent delivered
class => 16800
sent lost
front => 88
class => 12000
sent broken
front => 88
class => 7200
sent lost
front => 88
class => 12000
sent unacked
class => 16800";

// A frame with two attempts in all, a lost one among them; then one with three, of which the second is delivered; then one
// with one.
const COUNTED: &str = "\
submit-within 2 40 04 => queued
submit-within 3 40 46 => queued
submit-within 1 40 8f => queued
class => 16800
sent lost
front => 40 04
class => 12000
sent unacked
front => 40 46
class => 16800
sent broken
front => 40 46
class => 7200
sent delivered
front => 40 8f
class => 16800
sent lost
front => -
class => 12000";

// A poll with two attempts; one with more than six has six.
const POLLS_COUNTED: &str = "\
submit-within 2 48 => queued
submit-within 200 48 => queued
sent unacked
front => 48
class => 7200
sent unacked
queue => 1 0
sent unacked
sent broken
sent lost
sent unacked
sent broken
queue => 1 0
sent unacked
queue => 0 0";

// The same after the fates of a poll that was handed in.
const POLL_SENT: &str = "\
submit 48 => queued
class => 16800
sent lost
class => 12000
sent broken
class => 7200
sent lost
class => 12000
front => 48
sent unacked
class => 16800
front => -";

const SETTLED: &str = "\
holds 4 => true
holds 8 => false
stands => on settled
class => 16800
submit 84 04 => NoAddress
submit 44 04 => OwnAddress";

// The front frame loses once, which is no attempt, and then fails once.
const ATTEMPT: &str = "\
ready => Some(900)
sent lost
class => 12000
sent broken";

const AFTER_SIX: &str = "\
front => -
queue => 0 0
waited
class => 12000";

const LEFT: &str = "\
place => 1 1000
leave
stands => off settled
held => None None
submit 48 46 => OffWire
press play => OffWire
release menu => OffWire
is-p1 => true
place => 0 ffff";

// ---- boxes, whose polls are acknowledged or not

const RECORDER_SETTLED: &str = "\
join 1000 0
sent unacked
held => Some(1) None
stands => on allocating
holds 1 => true
holds 4 => false
submit 34 46 => NoAddress
follow 31 46
queue => 0 0";

const BOTH_SETTLED: &str = "\
join 1000 0
sent unacked
sent unacked
held => Some(1) Some(4)
stands => on settled
submit 34 46 => NoAddress
submit 14 46 => OwnAddress
submit 41 46 => OwnAddress
front => 1f 84 10 00 01
sent delivered
front => 4f 84 10 00 04
sent delivered
queue => 0 0";

const PLAYER_ALONE: &str = "\
join 1000 0
sent delivered
sent delivered
sent delivered
sent delivered
sent unacked
held => Some(15) Some(8)
submit f0 46 => queued
front => 8f 84 10 00 04
sent delivered
front => f0 46
sent delivered
queue => 0 0";

const RECORDER_ALONE: &str = "\
join 1000 0
sent delivered
sent unacked
sent delivered
sent delivered
sent delivered
held => Some(2) Some(15)
press eject => done
press menu => done
front => 2f 84 10 00 01
sent delivered
front => 20 8e 00
sent delivered
queue => 0 0";

const NEITHER: &str = "\
join 1000 0
sent delivered
sent delivered
sent delivered
sent delivered
sent delivered
sent delivered
held => Some(15) Some(15)
press menu => done
queue => 0 0";

const TOO_FAR_BELOW: &str = "\
join ffff 0
held => Some(15) Some(15)
queue => 0 0";

// ---- devices from outside

const HOLDS: &str = "\
hold 4 15 => OffWire
drop => OffWire
join 1000 0
held => Some(15) None
queue => 0 0
hold 4 8 => done
held => Some(4) Some(8)
holds 8 => true
follow 04 46
follow 0f 36
queue => 0 0
press power => NotForKind
leave
held => None None";

// It holds up to four addresses, until the next `hold` or until it leaves the wire.
const HOLDS_FOUR: &str = "\
join 1000 0
all-held => Some(15) None None None
hold 4 8 1 5 => done
all-held => Some(4) Some(8) Some(1) Some(5)
held => Some(4) Some(8)
copy
all-held => Some(4) Some(8) Some(1) Some(5)
hold 4 15 => done
all-held => Some(4) Some(15) None None
hold 4 8 1 5 => done
leave
all-held => None None None None
join 1000 0
all-held => Some(15) None None None";

const DROPS: &str = "\
join 1000 0
submit 44 => queued
submit 90 04 => queued
submit f4 46 => queued
queue => 3 0
sent broken
class => 7200
drop => done
class => 16800
queue => 0 0
submit 48 46 => queued
front => 48 46";

// A television from outside polls no address and reports none, and follows nothing: no Image View On, no Active Source, no
// question and no Set System Audio Mode.
const TELEVISION: &str = "\
drop => OffWire
join 0000 0
held => Some(15) None
stands => on settled
queue => 0 0
holds 0 => false
follow 4f 82 10 00
follow 0f 36
queue => 0 0
hold 0 15 => done
held => Some(0) Some(15)
holds 0 => true
holds 14 => false
follow 40 04
follow 40 46
follow 40 83
follow 4f 91
follow 5f 72 01
queue => 0 0
press power => NotForKind
press watch 1000 => NotForKind
press mute => NotForKind
press arc on => NotForKind
release mute => NotForKind
submit 04 46 => queued
submit 0f 86 10 00 => queued
submit 40 04 => queued
submit ee => queued
front => 04 46
queue => 4 0
drop => done
queue => 0 0
leave
holds 0 => false
join 0000 0
held => Some(15) None
queue => 0 0";

// A television that is not from outside polls its address, reports itself, and is told nothing.
const BY_ITSELF: &str = "\
hold 0 15 => OffWire
join 0000 0
hold 0 15 => NotForKind
front => 00
sent unacked
held => Some(0) None
front => 0f 84 00 00 00
drop => NotForKind
queue => 1 0
hold 4 15 => NotForKind
held => Some(0) None";

const NOT_OUTSIDE: &str = "\
hold 3 15 1 5 => NotForKind
drop => NotForKind
held => Some(4) None
all-held => Some(4) None None None";

/// The runs of devices: what a device is, and then how often which lines are gone through.
const RUNS: &[(&str, &[(usize, &str)])] = &[
    (
        "settled player",
        &[
            (17, "follow 04 46"),
            (1, FULL),
            (15, "sent delivered"),
            (1, EMPTIED),
        ],
    ),
    ("new player", &[(1, NO_ADDRESS)]),
    ("new player", &[(1, POLLED)]),
    ("settled player", &[(1, POLL_SENT)]),
    ("settled player", &[(1, COUNTED)]),
    ("settled player", &[(1, POLLS_COUNTED)]),
    ("settled player", &[(1, SETTLED)]),
    (
        "settled player",
        &[(1, "submit 48 46 => queued"), (6, ATTEMPT), (1, AFTER_SIX)],
    ),
    ("settled player", &[(1, LEFT)]),
    ("new box", &[(1, RECORDER_SETTLED)]),
    ("new box", &[(1, BOTH_SETTLED)]),
    ("new box", &[(1, PLAYER_ALONE)]),
    ("new box", &[(1, RECORDER_ALONE)]),
    ("new box", &[(1, NEITHER)]),
    ("new box", &[(1, TOO_FAR_BELOW)]),
    ("new outside", &[(1, HOLDS)]),
    ("new outside", &[(1, HOLDS_FOUR)]),
    ("new outside", &[(1, DROPS)]),
    ("new outside-tv", &[(1, TELEVISION)]),
    ("new outside-tv", &[(1, DROPS)]),
    ("new television", &[(1, BY_ITSELF)]),
    ("settled player", &[(1, NOT_OUTSIDE)]),
];

fn device_of(words: &str) -> Device<16> {
    match words {
        "settled player" => settled(Kind::Player),
        "new player" => Device::new(Kind::Player, b"p1", 0),
        "new outside" => Device::new(Kind::Outside, b"dut", 0),
        "new outside-tv" => Device::new(Kind::OutsideTv, b"dut", 4),
        "new television" => Device::new(Kind::Tv, b"tv", 4),
        _ => Device::new(Kind::Combo, b"b", 0),
    }
}

fn run(rt: &impl Abort, alloc: Global, words: &str, parts: &[(usize, &str)]) {
    let mut device = device_of(words);
    for (times, lines) in parts {
        for _ in 0..*times {
            goes(rt, alloc, &mut device, lines);
        }
    }
}

#[test]
fn devices_run_so(rt: HostRuntime) {
    for (words, parts) in RUNS {
        run(&rt, rt.alloc(), words, parts);
    }
}
