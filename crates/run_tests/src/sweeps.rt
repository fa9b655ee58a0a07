//! A pulse at each microsecond of a poll, and at each one of a frame. What has to come out was worked out from the
//! rules of the wire: a pulse breaks a frame, acknowledges one falsely or refuses one, and never makes another of it.
use crate::rooms::{LATEST, room, round_before, send};
use line_frames::{Addr, Ending, Reading};
use line_wave::Stretch;
use line_wire::EdgeWire;
use room_net::Net;
use std::process::Abort;
use text_core::Kind;

/// How wide the pulses are, in microseconds.
const POLL_WIDTHS: &[u64] = &[1, 400, 3_000, 3_700, 10_000];

/// A poll of the television begins at 12,000 and is complete at 39,150.
const POLL_BEGIN: u64 = 12_000;

const POLL_COMPLETE: u64 = 39_150;
/// The begins of the wide pulses that lie over the sampling instant of the poll's acknowledge slot, and break nothing.
const FIRST_FALSE: u64 = 37_750;

const LAST_FALSE: u64 = 38_700;

/// A frame of two blocks begins at 1,000,000 and is complete at 1,051,150.
const FRAME_BEGIN: u64 = 1_000_000;

const FRAME_COMPLETE: u64 = 1_051_150;

// A television of four ports, these devices in the first of them, and one pulse.
fn room_under(rt: &impl Abort, kinds: &[Kind], from: u64, width: u64) -> Net<EdgeWire> {
    let to = u64::saturating_add(from, width);
    room(rt, 4, kinds, &[Stretch { from, to }])
}

// The address that the television holds in the end, where a pulse falls into its poll.
fn polled_under(rt: &impl Abort, from: u64, width: u64) -> [Option<Addr>; 2] {
    let mut net = room_under(rt, &[], from, width);
    for _round in 0..20 {
        let _ = round_before(rt, &mut net, 200_000);
    }
    assert!(rt; 0 < net.tree().count());
    net.device(0).held()
}

#[test]
fn a_poll_under_each_pulse(rt: HostRuntime) {
    for width in POLL_WIDTHS {
        for from in POLL_BEGIN..POLL_COMPLETE + 1 {
            let is_false = *width >= 3_000 && FIRST_FALSE <= from && from <= LAST_FALSE;
            let address = if is_false { 14 } else { 0 };
            assert!(&rt; polled_under(&rt, from, *width) == [Some(Addr::new(address)), None]);
        }
    }
}

// A television and a player that have their addresses, and the player's frame to send at 1,000,000.
fn sending_under(rt: &impl Abort, from: u64, width: u64) -> Net<EdgeWire> {
    let mut net = room_under(rt, &[Kind::Player], from, width);
    for _round in 0..4 {
        let _ = round_before(rt, &mut net, LATEST);
    }
    assert!(rt; net.close() == 347_255);
    send(rt, &mut net, FRAME_BEGIN, 1, &[0x40, 0x04]);
    net
}

// It is the player's frame, acknowledged.
fn is_acknowledged(reading: &Reading) -> bool {
    match reading.frame() {
        Some(frame) => frame.bytes() == [0x40, 0x04].as_slice()
            && reading.bits.last() == Some(&false),
        None => false,
    }
}

// The player sends image-view-on at 1,000,000, and a pulse falls into it: one reading is complete, and it is that frame
// with its acknowledgement. Nothing is left to send.
fn sends_once_under(rt: &impl Abort, from: u64, width: u64) {
    let mut net = sending_under(rt, from, width);
    let mut complete = 0;
    for _round in 0..12 {
        if let Some(report) = round_before(rt, &mut net, 1_300_000) {
            let reading = &report.outcome.reading;
            if reading.ending == Ending::Complete {
                complete = u8::saturating_add(complete, 1);
                assert!(rt; is_acknowledged(reading));
            }
        }
    }
    assert!(rt; complete == 1 && 1 < net.tree().count());
    assert!(rt; net.device(1).queue_len() == 0);
}

// A pulse of this width at each microsecond of the frame.
fn sends_once_under_each(rt: &impl Abort, width: u64) {
    for from in FRAME_BEGIN..FRAME_COMPLETE + 1 {
        sends_once_under(rt, from, width);
    }
}

#[test]
fn a_frame_under_each_pulse_of_a_microsecond(rt: HostRuntime) {
    sends_once_under_each(&rt, 1);
}

#[test]
fn a_frame_under_each_pulse_of_400_microseconds(rt: HostRuntime) {
    sends_once_under_each(&rt, 400);
}

#[test]
fn a_frame_under_each_pulse_of_3_milliseconds(rt: HostRuntime) {
    sends_once_under_each(&rt, 3_000);
}
