//! Who drives the line of rounds that were worked out by hand.
ghost use Rattle.std.specs.Prelude.{◌≤◌, length};

use arrayvec::ArrayVec;
use line_frames::{Addr, Frame};
use line_rounds::{Outcome, Seat, Wire};
use line_wave::{Pulls, Stretch};
use line_wire::EdgeWire;
use room_drives::{begun_within, put_drives};
use std::alloc::Global;
use std::process::Abort;

// ---- seats and pulses as texts

fn digit(character: u8) -> u8 {
    match character {
        b'0'..=b'9' => character - b'0',
        b'a'..=b'f' => character - b'a' + 10,
        _ => 0,
    }
}

fn address_of(word: &str) -> Option<Addr> {
    match word.as_bytes() {
        [character] => Some(Addr::new(digit(*character) % 16)),
        _ => None,
    }
}

fn byte_of(word: &str) -> Option<u8> {
    match word.as_bytes() {
        [high, low] => Some(digit(*high).saturating_mul(16).saturating_add(digit(*low))),
        _ => None,
    }
}

// The bytes of a frame, with commas between.
fn frame_of(words: &str) -> Option<Frame> {
    let mut bytes: ArrayVec<u8, 16> = ArrayVec::new();
    for word in words.split(',') {
        let _ = bytes.try_push(byte_of(word)?);
    }
    Frame::new(&bytes).ok()
}

// A seat that is plugged: the address that it holds, and what it sends after a colon.
fn seat_of(word: &str) -> Option<Seat> {
    let (held, sends) = match word.split_once(':') {
        None => (word, None),
        Some((held, bytes)) => (held, Some(frame_of(bytes)?)),
    };
    Some(Seat {
        plugged: true,
        holds: [address_of(held), None, None, None],
        sends,
    })
}

fn seats_of(words: &str) -> Option<ArrayVec<Seat, 15>> {
    let mut seats = ArrayVec::new();
    for word in words.split(' ') {
        let _ = seats.try_push(seat_of(word)?);
    }
    Some(seats)
}

// One pulse: where it begins, and how wide it is.
fn pulse_of(text: &str) -> Option<Stretch> {
    let (from, width) = text.split_once('+')?;
    let from: u64 = from.parse().ok()?;
    let width: u64 = width.parse().ok()?;
    Some(Stretch {
        from,
        to: from.saturating_add(width),
    })
}

// ---- rounds

fn round(rt: &impl Abort, seats: &[Seat], start: u64, pulses: &Pulls) -> Outcome
    requires few { length seats.now ≤ 15 }
{
    // Somebody pulls at once.
    let is_begun = seats.iter().any(|seat| seat.sends.is_some())
        || pulses.as_slice().iter().any(|pulse| pulse.from == start);
    assert!(rt; start <= 2_000_000_000_000 && is_begun);
    EdgeWire::new().round(seats, start, pulses)
}

// ---- drives

// A text that finds no memory for a part goes on without it, and is none that is wanted.
fn put(text: &mut String, part: Option<String>) {
    if let Some(part) = part {
        let _ = text.push_str(part.as_str());
    }
}

// Where somebody pulls, or a dash.
fn put_drive(alloc: Global, text: &mut String, stretches: &[Stretch]) {
    if stretches.is_empty() {
        let _ = text.push_str("-");
    }
    for stretch in stretches {
        put(
            text,
            format!(in alloc; "{}-{},", stretch.from, stretch.to).ok(),
        );
    }
}

// The drive of each seat, one after another, and then that of the pulses.
fn drives_text(
    rt: &(impl Abort + AllocGlobal),
    seats: &[Seat],
    start: u64,
    pulses: &Pulls,
    outcome: &Outcome,
) -> String
    requires few { length seats.now ≤ 15 }
{
    assert!(rt; start <= 2_000_000_000_000 && outcome.reading.at <= 3_000_000_000_000);
    assert!(rt; outcome.rest <= 3_000_000_000_000);
    let mut text = String::new(rt.alloc());
    let mut drives = ArrayVec::new();
    put_drives(&mut drives, seats, start, outcome);
    for drive in &drives {
        put_drive(rt.alloc(), &mut text, drive.as_slice());
        let _ = text.push_str(" ");
    }
    put_drive(
        rt.alloc(),
        &mut text,
        begun_within(pulses.as_slice(), start, outcome.rest),
    );
    text
}

// Pulses, with commas between.
fn pulses_of(words: &str) -> Option<Pulls> {
    let mut stretches: ArrayVec<Stretch, 16> = ArrayVec::new();
    for word in words.split(',') {
        let _ = stretches.try_push(pulse_of(word)?);
    }
    Pulls::new(stretches.as_slice())
}

// The drives of a round of some seats that begins at an instant, with pulses.
fn reported(rt: &(impl Abort + AllocGlobal), row: &str) -> Option<String> {
    let (seats, rest) = row.split_once(" | ")?;
    let (start, pulses) = rest.split_once(" | ")?;
    let seats = seats_of(seats)?;
    let pulses = pulses_of(pulses)?;
    let start: u64 = start.parse().ok()?;
    let outcome = round(rt, &seats, start, &pulses);
    Some(drives_text(rt, &seats, start, &pulses, &outcome))
}

// A poll that the television acknowledges; a frame of two blocks; two senders, of which the one with the higher address is
// out at its first bit; a fall too early, after which the television pulls; a bit that a pulse turns into a 0, at whose
// sample the sender is out. Three pulls inside the low of a start, and one that acknowledges and outlasts the reading: the next
// one begins no sooner than the line is high. Two that let slots fall 350 and 351 early: the reading ends as the sender's fourth
// slot is due, 2,751 after the third, and the sender makes no fall then. The bits are those of CEC 5.2: 3,700 low of 4,500, then
// 1,500 or 600 of 2,400. A pull that answers a fall begins a microsecond after it.
const ROUNDS: &str = "\
0 4:40 | 1000000 | 900+1 => 1026101-1027600, 1000000-1003700,1004500-1006000,1006900-1007500,1009300-1010800,1011700-1013200,1014100-1015600,1016500-1018000,1018900-1020400,1021300-1022800,1023700-1024300,1026100-1026700, -
0 4:40,04 | 1000000 | 900+1 => 1026101-1027600,1050101-1051600, 1000000-1003700,1004500-1006000,1006900-1007500,1009300-1010800,1011700-1013200,1014100-1015600,1016500-1018000,1018900-1020400,1021300-1022800,1023700-1025200,1026100-1026700,1028500-1030000,1030900-1032400,1033300-1034800,1035700-1037200,1038100-1039600,1040500-1041100,1042900-1044400,1045300-1046800,1047700-1048300,1050100-1050700, -
4:40 8:80 | 1000000 | 900+1 => 1000000-1003700,1004500-1006000,1006900-1007500,1009300-1010800,1011700-1013200,1014100-1015600,1016500-1018000,1018900-1020400,1021300-1022800,1023700-1024300,1026100-1026700, 1000000-1003700,1004500-1005100, -
0 4:40,04 | 1000000 | 1006500+100 => 1006501-1010100, 1000000-1003700,1004500-1006000, 1006500-1006600,
0 4:40,04 | 1000000 | 1006600+1200 => - 1000000-1003700,1004500-1006000,1006900-1007500, 1006600-1007800,
4:40 | 1000000 | 1000500+100,1000700+100,1000900+2000,1026200+50000,1080000+10 => 1000000-1003700,1004500-1006000,1006900-1007500,1009300-1010800,1011700-1013200,1014100-1015600,1016500-1018000,1018900-1020400,1021300-1022800,1023700-1024300,1026100-1026700, 1000500-1000600,1000700-1000800,1000900-1002900,1026200-1076200,
4:40,04 | 1000000 | 1006550+400,1008949+400 => 1000000-1003700,1004500-1006000,1006900-1007500,1009300-1010800, 1006550-1006950,1008949-1009349,";

// Each row comes out as it is wanted.
fn report(rt: &(impl Abort + AllocGlobal), rows: &str) {
    for row in rows.lines() {
        let (round, wanted) = row.split_once(" => ").expect(rt, "a row");
        let reported = reported(rt, round).expect(rt, "a round");
        assert!(rt; reported.as_str() == wanted, "{round}: {reported}");
    }
}

#[test]
fn rounds_have_drives(rt: HostRuntime) {
    report(&rt, ROUNDS);
}
