//! Where a seat pulls the line of a round low.
ghost use Rattle.std.specs.Prelude.{◌≡◌, [], ◌&&◌, ◌+◌, ◌*◌, ◌<◌, ◌≤◌, ◌++◌, nat_le, length, IfSome};
ghost use Rattle.std.specs.List.{flat_map, range_with_len};
ghost use Rattle.line_wave.specs.Sender.{sender_stretches};
ghost use Rattle.line_wave.specs.Bounds.{latest_instant, latest_heard, most_sent, most_stretches};
ghost use Rattle.line_frames.specs.Bits.{frame_bits};
ghost use Rattle.line_reading.specs.Sending.{destination};
ghost use Rattle.line_rounds.specs.Round.{is_held};
ghost use Rattle.room_drives.specs.Stretches.{ack_in, acknowledges_in, break_stretches, breaks_off, cut_after, goes_to, is_short, last_at_end, last_pull, seat_stretches, seat_stretches_by, sent_stretches, slot_fall};

use arrayvec::ArrayVec;
use capture_wires::{Drive, is_low};
use line_frames::{Ending, Frame};
use line_reading::{BLOCK_SLOTS, SAMPLE, destination};
use line_rounds::{ACK_PULL, Outcome, SHORT_PULL, Seat};
use line_wave::{Stretch, lay};

// A frame has at most 16 blocks, the first of eight bits of addresses (CEC 6).
const BLOCKS: usize = 16;

const HEADER_BITS: usize = 8;

// ---- the slots

// The fall of a slot, counted from 1.
fn slot_fall(outcome: &Outcome, slot: usize) -> Option<u64>
    ensures fall { result ≡ slot_fall outcome.now slot }
    ensures early { IfSome result (λ fall. fall < outcome.now.reading.at) }
{
    match outcome.wave.as_slice().get(slot) {
        Some(stretch) if stretch.from < outcome.reading.at => Some(stretch.from),
        _ => None,
    }
}

// ---- what is sent

// The last microsecond in which a sender pulls that is never out.
fn last_at_end(outcome: &Outcome) -> u64
    ensures last { result ≡ last_at_end outcome.now }
    ensures early { result ≤ outcome.now.reading.at }
{
    let at = outcome.reading.at;
    if is_low(outcome.wave.as_slice(), at) {
        at
    } else {
        at.saturating_sub(1)
    }
}

// The last microsecond in which a sender pulls that is out at this slot, if it is out.
fn last_pull(outcome: &Outcome, out: Option<usize>) -> u64
    requires { outcome.now.reading.at ≤ latest_heard }
    ensures last { result ≡ last_pull outcome.now out }
    ensures early { result < 3000000001051 }
{
    match out {
        None => last_at_end(outcome),
        Some(slot) => match slot_fall(outcome, slot) {
            None => 0,
            Some(fall) => fall + SAMPLE,
        },
    }
}

// Adds stretches up to the end of a microsecond.
fn push_until(drive: &mut Drive, stretches: &[Stretch], last: u64)
    requires room { length drive.old + length stretches.now ≤ most_sent }
    requires early { last < 3000000001051 }
    ensures stretches { drive.new ≡ drive.old ++ cut_after last stretches.now }
    ensures room { length drive.new ≤ length drive.old + length stretches.now }
{
    let Some((stretch, others)) = stretches.split_first() else {
        return;
    };
    if stretch.from <= last {
        drive.push(stretch.from, stretch.to.min(last + 1));
        push_until(drive, others, last);
    } else {
        push_until(drive, others, last);
    }
}

// Adds the bits of a frame.
fn push_bits(bits: &mut ArrayVec<bool, 160>, frame: &Frame)
    requires empty { bits.old.items ≡ [] }
    requires room { length (frame_bits frame.now) ≤ 160 }
    ensures { bits.new.items ≡ frame_bits frame.now }
{
    let mut slot = 0;
    'filling: while slot < frame.slots() {
        bits.push(frame.bit(slot + 1));
        slot += 1;
    }
}

#[tactic(auto, using(crate::proofs::Bits::frame_room))]
fn bits_of(frame: &Frame) -> ArrayVec<bool, 160>
    ensures { result.items ≡ frame_bits frame.now }
{
    // It has at most 16 blocks.
    let _bytes = frame.bytes();
    let mut bits = ArrayVec::new();
    push_bits(&mut bits, frame);
    bits
}

// Adds what a sender of this frame pulls up to the end of a microsecond.
fn push_sent(drive: &mut Drive, frame: &Frame, begin: u64, last: u64)
    requires empty { drive.old ≡ [] }
    requires begin { begin ≤ latest_instant }
    requires early { last < 3000000001051 }
    ensures stretches { drive.new ≡ cut_after last (sender_stretches begin (frame_bits frame.now)) }
    ensures room { length drive.new ≤ most_sent }
{
    let bits = bits_of(frame);
    let wave = lay(bits.as_slice(), begin);
    push_until(drive, wave.as_slice(), last);
}

// Where a seat pulls that sends this frame, if it sends one.
fn sent(sends: &Option<Frame>, begin: u64, outcome: &Outcome, out: Option<usize>) -> Drive
    requires begin { begin ≤ latest_instant }
    requires early { outcome.now.reading.at ≤ latest_heard }
    ensures stretches { result ≡ sent_stretches begin outcome.now out sends.now }
    ensures room { length result ≤ most_sent }
{
    let mut drive = Drive::new();
    if let Some(frame) = sends {
        push_sent(&mut drive, frame, begin, last_pull(outcome, out));
    }
    drive
}

// ---- what is acknowledged

// The seat sends in a slot, where it is out at this one, if it is out.
fn goes_to(sends: &Option<Frame>, out: Option<usize>, slot: usize) -> bool
    ensures { result ≡ goes_to sends.now out slot }
{
    sends.is_some()
        && match out {
            None => true,
            Some(out) => slot <= out,
        }
}

// The header was read, and goes to an address that the seat holds.
fn is_called(seat: &Seat, bits: &[bool]) -> bool
    ensures { result ≡ (nat_le 8 (length bits.now) && is_held seat.now.holds (destination bits.now)) }
{
    bits.len() >= HEADER_BITS && seat.has_address(destination(bits))
}

// Whether the seat acknowledges in a slot.
fn acknowledges(outcome: &Outcome, seat: &Seat, out: Option<usize>, slot: usize) -> bool
    ensures { result ≡ acknowledges_in outcome.now seat.now out slot }
{
    seat.plugged
        && is_called(seat, outcome.reading.bits.as_slice())
        && !goes_to(&seat.sends, out, slot)
}

// Adds the pull in the tenth slot of a block, where the seat acknowledges it.
fn push_ack(drive: &mut Drive, outcome: &Outcome, seat: &Seat, out: Option<usize>, block: usize)
    requires room { length drive.old < most_stretches }
    requires block { block ≤ 16 }
    requires early { outcome.now.reading.at ≤ latest_heard }
    ensures stretches { drive.new ≡ drive.old ++ ack_in outcome.now seat.now out block }
    ensures room { length drive.new ≤ length drive.old + 1 }
{
    let slot = BLOCK_SLOTS * block;
    if !acknowledges(outcome, seat, out, slot) {
        return;
    }
    match slot_fall(outcome, slot) {
        None => {}
        Some(fall) => drive.push(fall + 1, fall + ACK_PULL),
    }
}

// The same of so many blocks, from this one on.
fn push_acks(
    drive: &mut Drive,
    outcome: &Outcome,
    seat: &Seat,
    out: Option<usize>,
    block: usize,
    count: usize,
)
    requires room { length drive.old + count ≤ most_stretches }
    requires blocks { block + count ≤ 17 }
    requires early { outcome.now.reading.at ≤ latest_heard }
    ensures stretches { drive.new ≡ drive.old ++ flat_map (ack_in outcome.now seat.now out) (range_with_len block count) }
    ensures room { length drive.new ≤ length drive.old + count }
{
    if count > 0 {
        push_ack(drive, outcome, seat, out, block);
        push_acks(drive, outcome, seat, out, block + 1, count - 1);
    }
}

// ---- after a fall too early

fn is_short(ending: Ending) -> bool
    ensures { result ≡ is_short ending }
{
    match ending {
        Ending::Short => true,
        _ => false,
    }
}

fn breaks_off(outcome: &Outcome, seat: &Seat, out: Option<usize>) -> bool
    ensures { result ≡ breaks_off outcome.now seat.now out }
{
    let bits = outcome.reading.bits.as_slice();
    is_short(outcome.reading.ending) && seat.plugged && !goes_to(&seat.sends, out, bits.len() + 1)
}

// Adds the low drive of a seat after a fall too early, where it does not send (CEC 7.4).
fn push_break(drive: &mut Drive, outcome: &Outcome, seat: &Seat, out: Option<usize>)
    requires room { length drive.old < most_stretches }
    requires early { outcome.now.reading.at ≤ latest_heard }
    ensures { drive.new ≡ drive.old ++ break_stretches outcome.now seat.now out }
{
    if breaks_off(outcome, seat, out) {
        let at = outcome.reading.at;
        drive.push(at + 1, at + SHORT_PULL);
    }
}

// ---- all of it

// Where a seat pulls that is out at this slot, if it is out.
fn drive_by(outcome: &Outcome, seat: &Seat, begin: u64, out: Option<usize>) -> Drive
    requires begin { begin ≤ latest_instant }
    requires early { outcome.now.reading.at ≤ latest_heard }
    ensures { result ≡ seat_stretches_by begin outcome.now seat.now out }
{
    let mut drive = sent(&seat.sends, begin, outcome, out);
    push_acks(&mut drive, outcome, seat, out, 1, BLOCKS);
    push_break(&mut drive, outcome, seat, out);
    drive
}

/// Where the seat of this number pulls in a round that begins at `begin`, by what the round's outcome says: as a sender
/// until it is out, 1,500 microseconds of each block that it acknowledges (CEC 6.1), and a low drive of 3,600 after a fall
/// too early (CEC 7.4; its length own). A pull that answers a fall begins a microsecond after it.
pub(crate) fn seat_drive(outcome: &Outcome, number: usize, seat: &Seat, begin: u64) -> Drive
    requires begin { begin ≤ latest_instant }
    requires early { outcome.now.reading.at ≤ latest_heard }
    ensures { result ≡ seat_stretches begin outcome.now number seat.now }
{
    drive_by(outcome, seat, begin, outcome.out_at(number))
}
