//! Where the receivers of a round stand after each of its edges, and how far its senders have come.
use crate::driven::Driven;
use crate::rounds::{bits_text, is_reported, outcome_text, pulse_of, seats_of};
use arrayvec::ArrayVec;
use line_reading::Standing;
use line_wave::Stretch;
use line_wire::EdgeWire;
use std::alloc::Global;
use std::process::Abort;

// ---- edges and senders as texts

fn standing_text(alloc: Global, standing: Standing<'_>) -> Option<String> {
    let word = match standing {
        Standing::Idle => "idle",
        Standing::StartLow => "start-low",
        Standing::StartHigh => "start-high",
        Standing::WaitHigh => "wait-high",
        Standing::Slot(slot, bits) => {
            let bits = bits_text(alloc, bits);
            return format!(in alloc; "slot:{slot}:{bits}").ok();
        }
    };
    format!(in alloc; "{word}").ok()
}

// The next edge, and where the receivers stand after it.
fn edge_text(
    rt: &impl Abort,
    alloc: Global,
    wire: &mut Driven,
    pulses: &[Stretch],
) -> Option<String> {
    let Some(edge) = wire.edge(rt, pulses) else {
        return format!(in alloc; "none").ok();
    };
    let standing = standing_text(alloc, wire.receiver(rt).standing())?;
    let at = edge.at;
    let level = if edge.low { "low" } else { "high" };
    format!(in alloc; "{at} {level} {standing}").ok()
}

// How far the sender of a seat has come, if it sends.
fn seat_text(rt: &impl Abort, alloc: Global, wire: &Driven, seat: usize) -> Option<String> {
    let state = match wire.sender(rt, seat) {
        None => None,
        Some(sender) => Some(sender.state()),
    };
    format!(in alloc; "seat {seat} {state:?}").ok()
}

// The seat that a row asks for, if it does.
fn seat_asked(row: &str) -> Option<usize> {
    let (seat, _state) = row.strip_prefix("seat ")?.split_once(' ')?;
    seat.parse().ok()
}

// The next edges and the senders are these, a line each.
fn goes(rt: &impl Abort, alloc: Global, wire: &mut Driven, pulse: &str, rows: &str) {
    let mut pulses: ArrayVec<Stretch, 1> = ArrayVec::new();
    if let Some(pulse) = pulse_of(pulse) {
        let _ = pulses.try_push(pulse);
    }
    for row in rows.lines() {
        let reported = match seat_asked(row) {
            None => edge_text(rt, alloc, wire, &pulses),
            Some(seat) => seat_text(rt, alloc, wire, seat),
        };
        is_reported(rt, reported, row, row);
    }
}

// ---- rounds

// A round: its seats, when it begins, the pulse that is handed in and the rows that come then, and how the round
// comes out where it is taken to its end.
struct Round {
    seats: &'static str,
    begin: u64,
    parts: &'static [(&'static str, &'static str)],
    outcome: &'static str,
}

// Image-view-on from the player to the television, in which a pulse moves the second slot.
const MOVED: &str = "\
seat 0 None
1000000 low start-low
1003700 high start-high
1004500 low slot:1:-
1006000 high slot:1:0
1006600 low slot:2:0
1007500 high slot:2:0
1009300 low slot:3:01
1010800 high slot:3:010
1011700 low slot:4:010
1013200 high slot:4:0100
1014100 low slot:5:0100
1015600 high slot:5:01000
1016500 low slot:6:01000
1018000 high slot:6:010000
1018900 low slot:7:010000
1020400 high slot:7:0100000
1021300 low slot:8:0100000
1022800 high slot:8:01000000
1023700 low slot:9:01000000
1025200 high slot:9:010000000
1026100 low slot:10:010000000
1027600 high slot:10:0100000000
1028500 low slot:11:0100000000
1030000 high slot:11:01000000000
1030900 low slot:12:01000000000
1032400 high slot:12:010000000000
1033300 low slot:13:010000000000
1034800 high slot:13:0100000000000
1035700 low slot:14:0100000000000
1037200 high slot:14:01000000000000
1038100 low slot:15:01000000000000
1039600 high slot:15:010000000000000
1040500 low slot:16:010000000000000
1041100 high slot:16:010000000000000
1042900 low slot:17:0100000000000001
1044400 high slot:17:01000000000000010
1045300 low slot:18:01000000000000010
1046800 high slot:18:010000000000000100
1047700 low slot:19:010000000000000100
1048300 high slot:19:010000000000000100
1050100 low slot:20:0100000000000001001
1051600 high idle
none
seat 1 Some(Stopped)";

// Two rounds begin alike; a pulse then breaks one of them after the acknowledge slot.
const FIRST: &str = "1000000 low start-low";

const ALIKE: &str = "\
1003700 high start-high
1004500 low slot:1:-
1006000 high slot:1:0
1006900 low slot:2:0
1007500 high slot:2:0
1009300 low slot:3:01
1010800 high slot:3:010
1011700 low slot:4:010
1013200 high slot:4:0100
1014100 low slot:5:0100
1015600 high slot:5:01000
1016500 low slot:6:01000
1018000 high slot:6:010000
1018900 low slot:7:010000
1020400 high slot:7:0100000
1021300 low slot:8:0100000
1022800 high slot:8:01000000
1023700 low slot:9:01000000
1025200 high slot:9:010000000
1026100 low slot:10:010000000
1027600 high slot:10:0100000000";

const BROKEN: &str = "\
1028000 low wait-high
1031600 high idle
none";

const WHOLE: &str = "\
1028500 low slot:11:0100000000
1030000 high slot:11:01000000000
1030900 low slot:12:01000000000
1032400 high slot:12:010000000000
1033300 low slot:13:010000000000
1034800 high slot:13:0100000000000
1035700 low slot:14:0100000000000
1037200 high slot:14:01000000000000
1038100 low slot:15:01000000000000
1039600 high slot:15:010000000000000
1040500 low slot:16:010000000000000
1041100 high slot:16:010000000000000
1042900 low slot:17:0100000000000001
1044400 high slot:17:01000000000000010
1045300 low slot:18:01000000000000010
1046800 high slot:18:010000000000000100
1047700 low slot:19:010000000000000100
1048300 high slot:19:010000000000000100
1050100 low slot:20:0100000000000001001
1051600 high idle
none";

// An amplifier at 5 and a player at 4 send at once; the amplifier loses at slot 4, and a pulse after that slot is
// too early.
const LOST_AND_BROKEN: &str = "\
2000000 low start-low
2003700 high start-high
2004500 low slot:1:-
2006000 high slot:1:0
2006900 low slot:2:0
2007500 high slot:2:0
2009300 low slot:3:01
2010800 high slot:3:010
2011700 low slot:4:010
2013200 high slot:4:0100
seat 1 Some(Out(4))
seat 2 Some(Sending)
2013500 low wait-high
2017100 high idle
none
seat 0 None
seat 1 Some(Out(4))
seat 2 Some(Stopped)";

// A pulse alone, and one that holds a poll's start bit low until the reading ends.
const ALONE: &str = "\
5000 low start-low
8000 high idle
none";

const LONG: &str = "\
12000 low start-low
15901 high idle
none
seat 0 Some(Stopped)";

const ROUNDS: &[Round] = &[
    Round {
        seats: "0 4:40,04",
        begin: 1_000_000,
        parts: &[("1006600+400", MOVED)],
        outcome: "",
    },
    Round {
        seats: "0 4:40,04",
        begin: 1_000_000,
        parts: &[
            ("1000000+100", FIRST),
            ("1028000+100", ALIKE),
            ("1028000+100", BROKEN),
        ],
        outcome: "Short 1028000 bits 0100000000 rest 1031600 close 1031600 by 1 out -",
    },
    Round {
        seats: "0 4:40,04",
        begin: 1_000_000,
        parts: &[("1000000+100", FIRST), ("", ALIKE), ("", WHOLE)],
        outcome: "Complete 1051150 bits 01000000000000010010 rest 1051600 close 1051600 by 1 out -",
    },
    Round {
        seats: "0 5:50,8f 4:40,04",
        begin: 2_000_000,
        parts: &[("2013500+100", LOST_AND_BROKEN)],
        outcome: "",
    },
    Round {
        seats: "f",
        begin: 5000,
        parts: &[("5000+3000", ALONE)],
        outcome: "",
    },
    Round {
        seats: "f:00",
        begin: 12_000,
        parts: &[("12901+3000", LONG)],
        outcome: "",
    },
];

fn begun(rt: &impl Abort, wire: EdgeWire, round: &Round) -> Driven {
    let seats = seats_of(round.seats).expect(rt, round.seats);
    assert!(rt; round.begin <= 2_000_000_100_000);
    Driven::begin(wire, &seats, round.begin)
}

// Takes a round on a wire that has stood in the one before, if that was not taken to its end.
fn stands(rt: &impl Abort, alloc: Global, wire: EdgeWire, round: &Round) -> EdgeWire {
    let mut wire = begun(rt, wire, round);
    for (pulse, rows) in round.parts {
        goes(rt, alloc, &mut wire, pulse, rows);
    }
    if round.outcome.is_empty() {
        return wire.wire;
    }
    let outcome = wire.finish(rt);
    is_reported(
        rt,
        outcome_text(alloc, &outcome),
        round.outcome,
        round.seats,
    );
    EdgeWire::new()
}

// Takes the rounds one after another on one wire.
fn stand(rt: &impl Abort, alloc: Global, rounds: &[Round]) {
    let mut wire = EdgeWire::new();
    for round in rounds {
        wire = stands(rt, alloc, wire, round);
    }
}

#[test]
fn stands_after_each_edge(rt: HostRuntime) {
    stand(&rt, rt.alloc(), ROUNDS);
}
