//! Frames that are handed in with names in their header block, worked out by hand.
ghost use Rattle.std.specs.Prelude.{◌↔◌, ◌<◌, [], IfSome, IsTrue};

use crate::rooms::{LATEST, replug, room, round_before};
use device_core::{Act, MoreHeld, SubmitError, Ticket};
use line_frames::{Addr, Frame};
use line_wire::EdgeWire;
use room_net::{Event, EventError, HeaderNames, Net};
use std::process::Abort;
use text_core::Kind;

// The opcode of each frame that is handed in.
const STANDBY: u8 = 0x36;

// ---- the words of a row

fn split(text: &str) -> (&str, &str) {
    text.split_once(' ').unwrap_or((text, ""))
}

fn number(word: &str) -> u64 {
    word.parse().unwrap_or(0)
}

fn address(word: &str) -> Addr {
    Addr::new((number(word) % 16) as u8)
}

fn header(word: &str) -> (&str, &str) {
    word.split_once('>').unwrap_or((word, ""))
}

// `@` and a device's number.
fn name(word: &str) -> Option<usize> {
    match word.strip_prefix("@") {
        None => None,
        Some(digits) => Some(number(digits) as usize),
    }
}

fn is_below(name: Option<usize>, count: usize) -> bool
    ensures { IsTrue result ↔ IfSome name (λ number. number < count) }
{
    match name {
        None => true,
        Some(number) => number < count,
    }
}

fn fault_word(error: SubmitError) -> &'static str {
    match error {
        SubmitError::QueueFull => "queue-full",
        SubmitError::OwnAddress => "own-address",
        SubmitError::NoAddress => "no-address",
        SubmitError::OffWire => "off-wire",
    }
}

fn answer_word(answer: Result<(), EventError>) -> &'static str {
    match answer {
        Ok(()) => "taken",
        Err(EventError::Send(error)) => fault_word(error),
        Err(_) => "other",
    }
}

// ---- what a row does

// A device is handed Standby with this header, each half an address or a name.
fn sent(
    rt: &impl Abort,
    net: &mut Net<EdgeWire>,
    at: u64,
    device: usize,
    header_word: &str,
) -> &'static str {
    let (from, to) = header(header_word);
    let (initiator, destination) = (name(from), name(to));
    let block = address(from).value() * 16 + address(to).value();
    let frame = Frame::new(&[block, STANDBY]).expect(rt, "a frame");
    let count = net.tree().count();
    assert!(rt; at <= LATEST && device < count);
    assert!(rt; is_below(initiator, count) && is_below(destination, count));
    let names = HeaderNames {
        initiator,
        destination,
    };
    answer_word(net.apply(
        at,
        Event::SendNamed {
            device,
            names,
            frame,
            ticket: Ticket {
                line: 0,
                attempts: None,
            },
        },
    ))
}

// The next round begins at this instant and is read as Standby with this header.
fn goes(rt: &impl Abort, net: &mut Net<EdgeWire>, begin: u64, header_word: &str) -> bool {
    let Some(report) = round_before(rt, net, LATEST) else {
        return false;
    };
    let Some(frame) = report.outcome.reading.frame() else {
        return false;
    };
    let (from, to) = header(header_word);
    report.begin == begin
        && frame.initiator() == address(from)
        && frame.destination() == address(to)
        && frame.bytes().get(1) == Some(&STANDBY)
}

// Rounds until nobody has anything to send.
fn settles(rt: &impl Abort, net: &mut Net<EdgeWire>) -> bool {
    for _round in 0..100 {
        let _ = round_before(rt, net, LATEST);
    }
    net.next_start().is_none()
}

fn holds(
    rt: &impl Abort,
    net: &mut Net<EdgeWire>,
    at: u64,
    device: usize,
    addresses: (Addr, Addr),
) -> bool {
    assert!(rt; at <= LATEST && device < net.tree().count());
    let (first, second) = addresses;
    let act = Act::Hold {
        first,
        second: Some(second),
        more: MoreHeld {
            third: None,
            fourth: None,
        },
    };
    net.apply(at, Event::Outside { device, act }).is_ok()
}

// `settle`; `send` with an instant, a device, a header, and what it answers; `round` with its begin and its header; `hold`
// with an instant, a device from outside and two addresses; `replug` with an instant, a device and its port.
fn is_so(rt: &impl Abort, net: &mut Net<EdgeWire>, row: &str) -> bool {
    let (word, rest) = split(row);
    let (first, rest) = split(rest);
    let (second, rest) = split(rest);
    let (third, answer) = split(rest);
    match word {
        "settle" => settles(rt, net),
        "send" => sent(rt, net, number(first), number(second) as usize, third) == answer,
        "round" => goes(rt, net, number(first), second),
        "hold" => {
            let addresses = (address(third), address(answer));
            holds(rt, net, number(first), number(second) as usize, addresses)
        }
        "replug" => {
            let port = (number(third) % 16) as u8;
            replug(rt, net, number(first), number(second) as usize, port);
            true
        }
        _ => false,
    }
}

// ---- rooms

// A television of four ports with these devices in the first of them, and what comes.
struct Room {
    what: &'static str,
    kinds: &'static [Kind],
    rows: &'static str,
}

const ROOMS: &[Room] = &[
    Room {
        what: "a player that took 8, since 4 was taken, by its name",
        kinds: &[Kind::Player, Kind::Player],
        rows: "settle\nsend 2000000 2 @2>@0 taken\nround 2000000 8>0",
    },
    Room {
        what: "the same by its address",
        kinds: &[Kind::Player, Kind::Player],
        rows: "settle\nsend 2000000 2 8>0 taken\nround 2000000 8>0",
    },
    Room {
        what: "to all, and to another device",
        kinds: &[Kind::Player, Kind::Player],
        rows: "settle\nsend 2000000 2 @2>15 taken\nround 2000000 8>15\n\
            send 3000000 2 8>@1 taken\nround 3000000 8>4",
    },
    Room {
        what: "an address that was given up is another device's",
        kinds: &[Kind::Player, Kind::Player],
        rows: "settle\nreplug 2000000 1 1\nreplug 2000000 2 2\nreplug 2100000 2 2\nsettle\n\
            send 4000000 2 @2>@0 taken\nround 4000000 4>0",
    },
    Room {
        what: "a box holds two addresses: its recorder's is the first",
        kinds: &[Kind::Combo],
        rows: "settle\nsend 2000000 1 @1>@0 taken\nround 2000000 1>0\nsend 3000000 0 @0>@1 taken\nround 3000000 0>1\n\
            send 4000000 1 4>@0 taken\nround 4000000 4>0",
    },
    Room {
        what: "a device off the wire",
        kinds: &[Kind::Player, Kind::Player],
        rows: "settle\nreplug 2000000 2 2\nsend 2000000 2 @2>@0 off-wire\nsend 2000000 2 8>0 off-wire\n\
            send 2000000 2 @1>@0 off-wire\nsend 2000000 1 @1>@2 no-address\nsend 2000000 1 @1>0 taken\nround 2000000 4>0",
    },
    Room {
        what: "a player without an address",
        kinds: &[Kind::Player, Kind::Player, Kind::Player, Kind::Player],
        rows: "settle\nsend 2000000 1 @1>@4 no-address\nsend 2000000 4 @4>@0 no-address\nsend 2000000 0 @4>@0 no-address\n\
            send 2000000 4 15>@0 taken\nround 2000000 15>0",
    },
    Room {
        what: "a device that still looks for an address",
        kinds: &[Kind::Player],
        rows: "send 5000 1 @1>@0 no-address\nsend 5000 1 4>0 no-address\nsend 5000 0 0>@1 no-address\nsettle\n\
            send 2000000 0 @0>@1 taken\nround 2000000 0>4",
    },
    Room {
        what: "to itself, and from an address of another device",
        kinds: &[Kind::Player, Kind::Player],
        rows: "settle\nsend 2000000 1 @1>@1 own-address\nsend 2000000 1 @2>@0 no-address\nsend 2000000 1 @1>@2 taken\n\
            round 2000000 4>8",
    },
    Room {
        what: "a queue has sixteen places, and a name comes before them",
        kinds: &[Kind::Player, Kind::Player, Kind::Player, Kind::Player],
        rows: "settle\nsend 2000000 1 @1>0 taken\nsend 2000000 1 @1>1 taken\nsend 2000000 1 @1>2 taken\n\
            send 2000000 1 @1>3 taken\nsend 2000000 1 @1>5 taken\nsend 2000000 1 @1>6 taken\nsend 2000000 1 @1>7 taken\n\
            send 2000000 1 @1>8 taken\nsend 2000000 1 @1>9 taken\nsend 2000000 1 @1>10 taken\nsend 2000000 1 @1>11 taken\n\
            send 2000000 1 @1>12 taken\nsend 2000000 1 @1>13 taken\nsend 2000000 1 @1>14 taken\nsend 2000000 1 @1>15 taken\n\
            send 2000000 1 @1>@0 taken\nsend 2000000 1 @1>@0 queue-full\nsend 2000000 1 @1>@4 no-address\n\
            send 2000000 1 @1>@1 own-address\nround 2000000 4>0",
    },
    Room {
        what: "a device from outside sends from any address",
        kinds: &[Kind::Player, Kind::Outside],
        rows: "settle\nsend 2000000 2 @2>@1 no-address\nsend 2000000 2 @1>@0 taken\nround 2000000 4>0\nhold 2500000 2 15 5\n\
            send 3000000 2 @2>@1 taken\nround 3000000 5>4\nhold 3500000 2 3 5\nsend 4000000 1 @1>@2 taken\nround 4000000 4>3",
    },
];

fn go(rt: &impl Abort, of: &Room) {
    let mut net = room(rt, 4, of.kinds, &[]);
    for row in of.rows.lines() {
        assert!(rt; is_so(rt, &mut net, row), "{}: {row}", of.what);
    }
}

#[test]
fn named_headers_are_addresses(rt: HostRuntime) {
    for of in ROOMS {
        go(&rt, of);
    }
}
