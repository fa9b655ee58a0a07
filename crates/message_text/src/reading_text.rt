//! The text of a reading.
ghost use Rattle.std.specs.Prelude.{◌≡◌, ◌+◌, ◌-◌, ◌<◌, ◌≤◌, ◌++◌, length, codes};
ghost use Rattle.std.specs.List.{flat_map};
ghost use Rattle.text_core.specs.Adds.{Adds};
ghost use Rattle.text_core.specs.Piece.{piece_text};
ghost use Rattle.text_core.specs.Written.{WrittenLine};
ghost use Rattle.message_text.specs.ReadingText.{bit_digit, bits_text, ending_text, is_broadcast, last_bit, reading_line, reading_text_of, reported_frame, reported_text, verdict_by, verdict_text};
ghost use Rattle.line_frames.specs.Bits.{most_bits};

use crate::spelling::frame_text;
use arrayvec::ArrayVec;
use line_frames::{Addr, Ending, Frame, MOST_BITS, Reading};
use text_core::{Counted, Piece, Sink, WriteFault, write_line};

/// How a reading ended, between spaces.
pub fn ending_word(ending: Ending) -> &'static str
    ensures { result.now ≡ ending_text ending }
{
    match ending {
        Ending::Complete => " complete ",
        Ending::Short => " short ",
        Ending::Silent => " silent ",
        Ending::BadStart => " bad-start ",
        Ending::Long => " long ",
        Ending::Open => " open ",
    }
}

fn verdict_word(is_broadcast: bool, last_bit: bool) -> &'static str
    ensures { result.now ≡ verdict_by is_broadcast last_bit }
{
    match (is_broadcast, last_bit) {
        (true, true) => " ok",
        (true, false) => " refused",
        (false, true) => " nack",
        (false, false) => " ack",
    }
}

fn bit_digit(bit: bool) -> u8
    ensures { result ≡ bit_digit bit }
{
    if bit { b'1' } else { b'0' }
}

// The bits as digits, or `-` for none.
fn bits_text(bits: &[bool]) -> ArrayVec<u8, MOST_BITS>
    requires { length bits.now ≤ most_bits }
    ensures { result.items ≡ bits_text bits.now }
{
    let mut text = ArrayVec::new();
    if bits.is_empty() {
        text.push(b'-');
        return text;
    }
    for bit in bits {
        text.push(bit_digit(*bit));
    }
    text
}

// What a complete reading shows of its frame.
fn frame_bytes(frame: &Option<Frame>) -> ArrayVec<u8, MOST_BITS>
    ensures { result.items ≡ reported_frame frame.now }
{
    let mut text = ArrayVec::new();
    if let Some(frame) = frame {
        let _ = text.try_extend_from_slice(&frame_text(frame));
    }
    text
}

fn is_broadcast(frame: &Option<Frame>) -> bool
    ensures { result ≡ is_broadcast frame.now }
{
    match frame {
        None => false,
        Some(frame) => frame.destination().value() == Addr::BROADCAST,
    }
}

fn last_bit(bits: &[bool]) -> bool
    ensures { result ≡ last_bit bits.now }
{
    match bits.last() {
        None => false,
        Some(bit) => *bit,
    }
}

/// What a reading told: the text of its frame where it is complete, else its bits, or `-` for none.
pub fn reading_reported(reading: &Reading) -> ArrayVec<u8, MOST_BITS>
    ensures { result.items ≡ reported_text reading.now }
{
    if reading.ending == Ending::Complete {
        frame_bytes(&reading.frame())
    } else {
        bits_text(&reading.bits)
    }
}

/// After a space, whether a complete reading was acknowledged (`ack`, `nack`) or, of a broadcast, not refused
/// (`ok`, `refused`); nothing for another reading.
pub fn reading_verdict(reading: &Reading) -> &'static str
    ensures { result.now ≡ verdict_text reading.now }
{
    if reading.ending == Ending::Complete {
        verdict_word(is_broadcast(&reading.frame()), last_bit(&reading.bits))
    } else {
        ""
    }
}

// The parts of a reading's line, from what it told and the verdict.
fn reading_pieces<'a>(reading: &'a Reading, reported: &'a [u8], verdict: &'a str) -> [Piece<'a>; 7]
    ensures { flat_map piece_text result ≡ reading_text_of reading.now reported.now verdict.now ++ codes "\n" }
{
    [
        Piece::Decimal(reading.begin),
        Piece::Text(" "),
        Piece::Decimal(reading.at),
        Piece::Text(ending_word(reading.ending)),
        Piece::Bytes(reported),
        Piece::Text(verdict),
        Piece::Text("\n"),
    ]
}

/// Adds the line of a reading: its fall and its ending in microseconds, how it ended, and what it told.
pub fn add_reading<S: Sink>(out: &mut Counted<'_, S>, reading: &Reading)
    ensures { Adds out.old out.new (reading_line reading.now) }
{
    let reported = reading_reported(reading);
    out.add_line(&reading_pieces(reading, &reported, reading_verdict(reading)));
}

/// Writes it by itself. Returns its length.
pub fn write_reading<S: Sink>(reading: &Reading, out: &mut S) -> Result<u128, WriteFault>
    ensures { WrittenLine (S.contents out.old) (S.contents out.new) (S.is_stuck out.old) (S.is_stuck out.new) (reading_line reading.now) result }
{
    let reported = reading_reported(reading);
    write_line(
        out,
        &reading_pieces(reading, &reported, reading_verdict(reading)),
    )
}
