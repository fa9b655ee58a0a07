//! Rounds whose outcome was worked out by hand.
ghost use Rattle.std.specs.Prelude.{◌≡◌, ◌==◌, ◌≤◌, length, is_some};
ghost use Rattle.std.specs.List.{list_any};
ghost use Rattle.line_rounds.specs.Lasting.{is_begun};

use arrayvec::ArrayVec;
use line_frames::{Addr, Frame};
use line_rounds::{Loser, Outcome, Seat, Wire};
use line_wave::{Pulls, Stretch};
use line_wire::EdgeWire;
use std::alloc::Global;
use std::process::Abort;

// ---- seats, pulses and outcomes as texts

fn digit(character: u8) -> u8 {
    match character {
        b'0'..=b'9' => character - b'0',
        b'a'..=b'f' => character - b'a' + 10,
        _ => 0,
    }
}

fn address_of(word: &str) -> Option<Addr> {
    match word.as_bytes() {
        [character] => Some(Addr::new(digit(*character) % 16)),
        _ => None,
    }
}

fn byte_of(word: &str) -> Option<u8> {
    match word.as_bytes() {
        [high, low] => Some(digit(*high).saturating_mul(16).saturating_add(digit(*low))),
        _ => None,
    }
}

// The bytes of a frame, with commas between.
fn frame_of(words: &str) -> Option<Frame> {
    let mut bytes: ArrayVec<u8, 16> = ArrayVec::new();
    for word in words.split(',') {
        let _ = bytes.try_push(byte_of(word)?);
    }
    Frame::new(&bytes).ok()
}

// A seat that is plugged: the addresses that it holds, with a plus between, and what it sends after a colon.
fn seat_of(word: &str) -> Option<Seat> {
    let (held, sends) = match word.split_once(':') {
        None => (word, None),
        Some((held, bytes)) => (held, Some(frame_of(bytes)?)),
    };
    let (first, second) = held.split_once('+').unwrap_or((held, ""));
    Some(Seat {
        plugged: true,
        holds: [address_of(first), address_of(second), None, None],
        sends,
    })
}

pub(crate) fn seats_of(words: &str) -> Option<ArrayVec<Seat, 15>> {
    let mut seats = ArrayVec::new();
    for word in words.split(' ') {
        let _ = seats.try_push(seat_of(word)?);
    }
    Some(seats)
}

/// One pulse: where it begins, and how wide it is.
pub(crate) fn pulse_of(text: &str) -> Option<Stretch> {
    let (from, width) = text.split_once('+')?;
    let from: u64 = from.parse().ok()?;
    let width: u64 = width.parse().ok()?;
    Some(Stretch {
        from,
        to: from.saturating_add(width),
    })
}

// A text that finds no memory for a part goes on without it, and is none that is wanted.
fn put(text: &mut String, part: Option<String>) {
    if let Some(part) = part {
        let _ = text.push_str(part.as_str());
    }
}

/// The bits read so far, or a dash.
pub(crate) fn bits_text(alloc: Global, bits: &[bool]) -> String {
    let mut text = String::new(alloc);
    for bit in bits {
        let _ = text.push_str(if *bit { "1" } else { "0" });
    }
    if bits.is_empty() {
        let _ = text.push_str("-");
    }
    text
}

fn survivors_text(alloc: Global, survivors: &[usize]) -> String {
    let mut text = String::new(alloc);
    for seat in survivors {
        put(&mut text, format!(in alloc; " {seat}").ok());
    }
    if survivors.is_empty() {
        let _ = text.push_str(" -");
    }
    text
}

fn losers_text(alloc: Global, losers: &[Loser]) -> String {
    let mut text = String::new(alloc);
    for loser in losers {
        put(
            &mut text,
            format!(in alloc; " {}@{}", loser.seat, loser.slot).ok(),
        );
    }
    if losers.is_empty() {
        let _ = text.push_str(" -");
    }
    text
}

fn reading_text(alloc: Global, outcome: &Outcome) -> Option<String> {
    let bits = bits_text(alloc, &outcome.reading.bits);
    let (ending, at) = (outcome.reading.ending, outcome.reading.at);
    format!(in alloc; "{ending:?} {at} bits {bits}").ok()
}

/// How its reading ended, when, and with which bits, when the line was high again and the round over, who still sent,
/// and who had stopped at which slot.
pub(crate) fn outcome_text(alloc: Global, outcome: &Outcome) -> Option<String> {
    let reading = reading_text(alloc, outcome)?;
    let survivors = survivors_text(alloc, outcome.survivors.as_slice());
    let losers = losers_text(alloc, outcome.losers.as_slice());
    let (rest, close) = (outcome.rest, outcome.close());
    format!(in alloc; "{reading} rest {rest} close {close} by{survivors} out{losers}").ok()
}

// What became of a seat's frame, and the slot at which it stopped.
fn fate_text(alloc: Global, outcome: &Outcome, seat: usize) -> Option<String> {
    let fate = outcome.fate(seat);
    match outcome.out_at(seat) {
        None => format!(in alloc; "{fate:?}").ok(),
        Some(slot) => format!(in alloc; "{fate:?}@{slot}").ok(),
    }
}

// The stretches in which the line was low.
fn wave_text(alloc: Global, stretches: &[Stretch]) -> String {
    let mut text = String::new(alloc);
    for stretch in stretches {
        put(
            &mut text,
            format!(in alloc; "{}-{},", stretch.from, stretch.to).ok(),
        );
    }
    text
}

/// A case comes out as it is wanted.
pub(crate) fn is_reported(rt: &impl Abort, reported: Option<String>, wanted: &str, case: &str) {
    let reported = reported.expect(rt, case);
    assert!(rt; reported.as_str() == wanted, "{case}: {reported}");
}

// ---- rounds

fn anybody_sends(seats: &[Seat]) -> bool
    ensures { result ≡ list_any (λ s. is_some s.sends) seats.now }
{
    seats.iter().any(|seat| seat.sends.is_some())
}

fn any_begins(pulses: &[Stretch], start: u64) -> bool
    ensures { result ≡ list_any (λ p. p.from == start) pulses.now }
{
    pulses.iter().any(|pulse| pulse.from == start)
}

// Somebody pulls at once.
fn is_begun(seats: &[Seat], start: u64, pulses: &Pulls) -> bool
    ensures { result ≡ is_begun seats.now start pulses.now }
{
    anybody_sends(seats) || any_begins(pulses.as_slice(), start)
}

fn round(rt: &impl Abort, seats: &[Seat], start: u64, pulses: &Pulls) -> Outcome
    requires few { length seats.now ≤ 15 }
{
    assert!(rt; start <= 2_000_000_100_000 && is_begun(seats, start, pulses));
    EdgeWire::new().round(seats, start, pulses)
}

// The round of some seats that begins at an instant, with a pulse.
fn round_of(rt: &impl Abort, text: &str) -> Option<Outcome> {
    let (seats, rest) = text.split_once(" | ")?;
    let (start, pulse) = rest.split_once(" | ")?;
    let seats = seats_of(seats)?;
    let pulses = Pulls::new(&[pulse_of(pulse)?])?;
    let start: u64 = start.parse().ok()?;
    Some(round(rt, &seats, start, &pulses))
}

// A player at 4 sends image-view-on to a television at 0. A pulse breaks the second slot; the next slot's fall comes
// early, too early twice, and just in time. The sender goes by what is read, not by a clock of its own: a bit is
// turned into a 0, and it stops.
const VIEW: &str = "\
0 4:40,04 | 1000000 | 1006500+100 => Short 1006500 bits 0 rest 1010100 close 1010100 by 1 out -
0 4:40,04 | 1000000 | 1006600+400 => Complete 1051150 bits 01000000000000010010 rest 1051600 close 1051600 by 1 out -
0 4:40,04 | 1000000 | 1006560+100 => Short 1006900 bits 0 rest 1010500 close 1010500 by 1 out -
0 4:40,04 | 1000000 | 1006549+400 => Short 1006549 bits 0 rest 1010149 close 1010149 by 1 out -
0 4:40,04 | 1000000 | 1006550+400 => Complete 1051150 bits 01000000000000010010 rest 1051600 close 1051600 by 1 out -
0 4:40,04 | 1000000 | 1006600+1200 => Silent 1009351 bits 00 rest 1007800 close 1009351 by - out 1@2";

// A player asks an address that nobody holds; with a pulse at the silence, which is a round of its own, and one just
// before it.
const UNACKNOWLEDGED: &str = "\
0 4:48,46 | 1000000 | 1028851+1 => Silent 1028851 bits 0100100001 rest 1026700 close 1028851 by - out 1@10
0 4 | 1028851 | 1028851+1 => BadStart 1028852 bits - rest 1028852 close 1028852 by - out -
0 4:48,46 | 1000000 | 1028800+100 => Silent 1031551 bits 01001000011 rest 1028900 close 1031551 by - out 1@10";

// A television asks all for the active source, and a pulse refuses its last block.
const REFUSED: &str = "\
0:0f,85 4 | 2000000 | 2050500+700 => Complete 2051150 bits 00001111011000010110 rest 2051200 close 2051200 by 0 out -";

// A pulse alone, and one that holds a poll's start bit low too long, and just not.
const BAD_STARTS: &str = "\
f | 5000 | 5000+3000 => BadStart 8000 bits - rest 8000 close 8000 by - out -
f:00 | 12000 | 12901+3000 => BadStart 15901 bits - rest 15901 close 15901 by 0 out -
f:00 | 12000 | 12900+3000 => Complete 39150 bits 0000000011 rest 38700 close 39150 by 0 out -";

// An amplifier at 5 and a player at 4 send to the television at once: the lower initiator wins.
const ARBITRATED: &str = "\
0 5:50,8f 4:40,04 | 2000000 | 3000000+1 => Complete 2051150 bits 01000000000000010010 rest 2051600 close 2051600 by 2 out 1@4
0 5:50,8f 4:48 | 2000000 | 3000000+1 => Complete 2027150 bits 0100100011 rest 2026700 close 2027150 by 2 out 1@4";

// What becomes of what the seat of a number sends. A pulse that turns the last bit of the initiator into a 0 is a
// lost arbitration, and one that turns the first bit of the destination breaks the frame. A recorder at 1 and a player at 4 in one box acknowledge what goes
// to either, also where the other of the two has found no address or has not settled yet. Of a broadcast they say
// nothing.
const FATES: &str = "\
1 of 0 4:40,04 | 1000000 | 1006600+400 => Delivered
1 of 0 4:40,04 | 1000000 | 1006500+100 => Broken
1 of 0 5:50,8f 4:48 | 2000000 | 3000000+1 => Lost@4
1 of 0 5:50,8f | 1000000 | 1012200+1200 => Lost@4
1 of 0 4:48 | 1000000 | 1014600+1200 => Broken@5
2 of 0 5:50,8f 4:48 | 2000000 | 3000000+1 => Unacked
0 of 0:01 1+4 | 1000000 | 3000000+1 => Delivered
0 of 0:04 1+4 | 1000000 | 3000000+1 => Delivered
0 of 0:05 1+4 | 1000000 | 3000000+1 => Unacked
0 of 0:0f 1+4 | 1000000 | 3000000+1 => Delivered
0 of 0:01 f+4 | 1000000 | 3000000+1 => Unacked
0 of 0:04 f+4 | 1000000 | 3000000+1 => Delivered
0 of 0:0f f+4 | 1000000 | 3000000+1 => Delivered
0 of 0:01 1 | 1000000 | 3000000+1 => Delivered
0 of 0:04 1 | 1000000 | 3000000+1 => Unacked";

// The line of a poll of 8 by the player, to whom the amplifier loses at the fourth slot.
const LINE: &str = "\
line of 0 5:50,8f 4:48 | 2000000 | 3000000+1 => 2000000-2003700,2004500-2006000,2006900-2007500,2009300-2010800,2011700-2013200,2014100-2014700,2016500-2018000,2018900-2020400,2021300-2022800,2023700-2024300,2026100-2026700,";

// What is asked of a round: the line, what became of the frame of the seat of a number, or how it came out.
fn answer(rt: &impl Abort, alloc: Global, question: &str) -> Option<String> {
    let (asked, round) = question.split_once(" of ").unwrap_or(("all", question));
    let outcome = round_of(rt, round)?;
    match asked {
        "all" => outcome_text(alloc, &outcome),
        "line" => Some(wave_text(alloc, outcome.wave.as_slice())),
        seat => fate_text(alloc, &outcome, seat.parse().ok()?),
    }
}

fn report(rt: &impl Abort, alloc: Global, rows: &str) {
    for row in rows.lines() {
        let (question, wanted) = row.split_once(" => ").unwrap_or((row, ""));
        is_reported(rt, answer(rt, alloc, question), wanted, question);
    }
}

#[test]
fn rounds_come_out(rt: HostRuntime) {
    report(&rt, rt.alloc(), VIEW);
    report(&rt, rt.alloc(), UNACKNOWLEDGED);
    report(&rt, rt.alloc(), REFUSED);
    report(&rt, rt.alloc(), BAD_STARTS);
    report(&rt, rt.alloc(), ARBITRATED);
    report(&rt, rt.alloc(), FATES);
    report(&rt, rt.alloc(), LINE);
}
