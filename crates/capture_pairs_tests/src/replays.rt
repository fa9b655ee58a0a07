//! What devices drove, by hand: a slot falls 4,500 + (K - 1) * 2,400 after its frame; a 0 is low for 1,500, a 1 for 600 and a start bit
//! for 3,700 (CEC 5.2). The frames are polls, of the television by a player (4>0), and of all by it (4>f), each with its end-of-message
//! and acknowledge bits.
use crate::captures::{Narrow, captured, holds};
use capture_replay::{ReplayCounts, write_replay};
use line_frames::Addr;
use std::process::Abort;
use text_core::Writes;

const TO_TV: &str = "1000000 0100000010\n";

/// The television acknowledges 900 after the slot's fall, when the player has let the line go.
const LATE: &str = "\
1000000 0100000011
low 1027000 1028100
";

const TO_ALL: &str = "1000000 0100111111\n";

const TO_ALL_REFUSED: &str = "1000000 0100111110\n";

/// A low drive in the place of an acknowledge bit, and a bit behind it.
const BROKEN: &str = "\
1000000 010000000
low 1026100 1029700
low 1031700 1032300
";

/// Seven bits of a header, and before them a bit without a start bit.
const CUT_OFF: &str = "\
low 900000 900600
1000000 0100000
";

/// What the player drives of the start bit and of the eight bits 40.
const PLAYER: &str = "\
pin 1000000 0
pin 1003700 1
pin 1004500 0
pin 1006000 1
pin 1006900 0
pin 1007500 1
pin 1009300 0
pin 1010800 1
pin 1011700 0
pin 1013200 1
pin 1014100 0
pin 1015600 1
pin 1016500 0
pin 1018000 1
pin 1018900 0
pin 1020400 1
pin 1021300 0
pin 1022800 1
";

/// The same of the eight bits 4f.
const PLAYER_TO_ALL: &str = "\
pin 1000000 0
pin 1003700 1
pin 1004500 0
pin 1006000 1
pin 1006900 0
pin 1007500 1
pin 1009300 0
pin 1010800 1
pin 1011700 0
pin 1013200 1
pin 1014100 0
pin 1014700 1
pin 1016500 0
pin 1017100 1
pin 1018900 0
pin 1019500 1
pin 1021300 0
pin 1021900 1
";

/// Then its end-of-message bit 1 and its acknowledge bit, sent as 1.
const LAST_BITS: &str = "\
pin 1023700 0
pin 1024300 1
pin 1026100 0
pin 1026700 1
";

/// Or its end-of-message bit 0.
const GOES_ON: &str = "\
pin 1023700 0
pin 1025200 1
";

const ACKNOWLEDGED: &str = "\
pin 1026100 0
pin 1027600 1
";

const ACKNOWLEDGED_LATE: &str = "\
pin 1027000 0
pin 1028100 1
";

/// A replay of these lines, and what is left out.
fn replay(rt: &(impl Abort + AllocGlobal), player: &str, last: &str, left_out: u64) -> String {
    format!(in rt.alloc();
        "{player}{last}# low stretches that are left out, since the line does not tell who drove them: {left_out}\nend 2000000\n"
    ).expect(rt, "a replay")
}

/// What a writer with this much room gets of the replay of a device, and what is answered.
fn replay_of(
    rt: &(impl Abort + AllocGlobal),
    lines: &str,
    address: Addr,
    room: usize,
) -> (String, Result<ReplayCounts, u128>) {
    let mut out = Narrow {
        bytes: Vec::new(rt.alloc()),
        room,
    };
    let done = write_replay(&captured(rt, lines), address, &mut Writes::new(&mut out));
    let said = match done {
        Ok(counts) => Ok(counts),
        Err(fault) => Err(fault.count),
    };
    (String::from_utf8(out.bytes).expect(rt, "a text"), said)
}

/// Fails where the replay of a device is another.
fn check(
    rt: &(impl Abort + AllocGlobal),
    lines: &str,
    address: Addr,
    wanted: &str,
    counts: ReplayCounts,
) {
    let (text, said) = replay_of(rt, lines, address, 10_000);
    holds(rt, text.as_str() == wanted && said == Ok(counts), lines);
}

const TV: u8 = 0;

const PLAYER_ADDRESS: u8 = 4;

/// An address that nobody has.
const OTHER: u8 = 8;

fn counts(pins: u64, left_out: u64) -> ReplayCounts {
    ReplayCounts { pins, left_out }
}

#[test]
fn each_device_drives_its_own_bits(rt: HostRuntime) {
    let player = Addr::new(PLAYER_ADDRESS);
    check(
        &rt,
        TO_TV,
        player,
        &replay(&rt, PLAYER, LAST_BITS, 0),
        counts(11, 0),
    );
    check(
        &rt,
        TO_TV,
        Addr::new(TV),
        &replay(&rt, ACKNOWLEDGED, "", 0),
        counts(1, 0),
    );
    check(
        &rt,
        TO_TV,
        Addr::new(OTHER),
        &replay(&rt, "", "", 0),
        counts(0, 0),
    );
    check(
        &rt,
        LATE,
        player,
        &replay(&rt, PLAYER, LAST_BITS, 0),
        counts(11, 0),
    );
    check(
        &rt,
        LATE,
        Addr::new(TV),
        &replay(&rt, ACKNOWLEDGED_LATE, "", 0),
        counts(1, 0),
    );
}

#[test]
fn what_the_line_does_not_tell_is_left_out(rt: HostRuntime) {
    let player = Addr::new(PLAYER_ADDRESS);
    let all = replay(&rt, PLAYER_TO_ALL, LAST_BITS, 0);
    check(&rt, TO_ALL, player, &all, counts(11, 0));
    let refused = replay(&rt, PLAYER_TO_ALL, LAST_BITS, 1);
    check(&rt, TO_ALL_REFUSED, player, &refused, counts(11, 1));
    check(
        &rt,
        TO_ALL_REFUSED,
        Addr::new(TV),
        &replay(&rt, "", "", 1),
        counts(0, 1),
    );
    check(
        &rt,
        BROKEN,
        player,
        &replay(&rt, PLAYER, GOES_ON, 2),
        counts(10, 2),
    );
    check(&rt, CUT_OFF, player, &replay(&rt, "", "", 9), counts(0, 9));
}

#[test]
fn a_writer_that_fails_has_a_front(rt: HostRuntime) {
    let whole = replay(&rt, PLAYER, LAST_BITS, 0);
    let (front, said) = replay_of(&rt, TO_TV, Addr::new(PLAYER_ADDRESS), 100);
    let is_front = Some(front.as_bytes()) == whole.as_bytes().get(..100);
    holds(&rt, is_front && said == Err(100), "a front");
}
