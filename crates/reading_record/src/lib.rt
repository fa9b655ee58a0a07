//! Readings as records: from the fall to the ending, how it ended, of a complete one its frame, of another one its bits.
#![tactic(auto)]

ghost use Rattle.std.specs.Prelude.{◌≡◌, [], ◌++◌, codes, drop, map, unwrap_or};
ghost use Rattle.message_text.specs.ReadingText.{is_complete, verdict_text};
ghost use Rattle.record_core.specs.Cells.{plain_of};
ghost use Rattle.record_core.specs.Records.{record_text};
ghost use Rattle.text_core.specs.Adds.{Adds};
ghost use Rattle.reading_record.specs.Reading.{begun_cells, bits_cells, destination_in, ending_name, frame_cells, initiator_in, reading_cells};

mod laws;

pub use laws::readings_are_records;
use line_frames::{Ending, Frame, Reading};
use message_text::{ending_word, reading_reported, reading_verdict};
use record_core::{Cell, Form, Value, add_record_with, cells};
use text_core::{Counted, Piece, Sink, after, before};

// How a reading ended.
fn ending_name(ending: Ending) -> &'static [u8]
    ensures { result.now ≡ ending_name ending }
{
    let word = ending_word(ending).as_bytes();
    before(after(word, 1), word.len().saturating_sub(2))
}

// Whether it was taken.
fn verdict_name(reading: &Reading) -> &'static [u8]
    ensures { result.now ≡ drop 1 (verdict_text reading.now) }
{
    after(reading_verdict(reading).as_bytes(), 1)
}

fn bytes_of(frame: &Option<Frame>) -> &[u8]
    ensures { result.now ≡ unwrap_or frame.now [] }
{
    match frame {
        None => b"",
        Some(frame) => frame.bytes(),
    }
}

fn initiator_in(bytes: &[u8]) -> Option<u8>
    ensures { result ≡ initiator_in bytes.now }
{
    match bytes {
        [] => None,
        [header, ..] => Some(*header / 16),
    }
}

fn destination_in(bytes: &[u8]) -> Option<u8>
    ensures { result ≡ destination_in bytes.now }
{
    match bytes {
        [] => None,
        [header, ..] => Some(*header % 16),
    }
}

// Adds a complete reading, from its words, and the bytes of its frame.
fn add_frame<'a, S: Sink>(
    out: &mut Counted<'_, S>,
    form: Form,
    kind: &str,
    reading: &Reading,
    ending: &'a [u8],
    frame: &'a [u8],
    told: &'a [u8],
    verdict: &'a [u8],
    more: &[Cell],
)
    ensures { Adds out.old out.new (record_text form kind.now (begun_cells reading.now.begin reading.now.at ending.now (frame_cells frame.now told.now verdict.now) ++ map plain_of more.now)) }
{
    let cells = cells![
        both("", "begin", Value::One(Piece::Decimal(reading.begin))),
        both(" ", "close", Value::One(Piece::Decimal(reading.at))),
        both(" ", "ending", Value::One(Piece::Bytes(ending))),
        both(" ", "frame", Value::One(Piece::Bytes(told))),
        hidden(
            "initiator",
            Value::One(Piece::NibbleOrDash(initiator_in(frame)))
        ),
        hidden(
            "destination",
            Value::One(Piece::NibbleOrDash(destination_in(frame)))
        ),
        hidden("bytes", Value::One(Piece::HexOrDash(frame))),
        both(" ", "verdict", Value::One(Piece::Bytes(verdict))),
    ];
    add_record_with(out, form, kind, &cells, more);
}

// Adds a complete reading, from the bytes of its frame and their text.
fn add_complete<S: Sink>(
    out: &mut Counted<'_, S>,
    form: Form,
    kind: &str,
    reading: &Reading,
    frame: &[u8],
    told: &[u8],
    more: &[Cell],
)
    ensures { Adds out.old out.new (record_text form kind.now
        (begun_cells reading.now.begin reading.now.at (ending_name reading.now.ending) (frame_cells frame.now told.now (drop 1 (verdict_text reading.now))) ++ map plain_of more.now)) }
{
    let ending = ending_name(reading.ending);
    let verdict = verdict_name(reading);
    add_frame(out, form, kind, reading, ending, frame, told, verdict, more);
}

// Adds another one, from its bits.
fn add_broken<S: Sink>(
    out: &mut Counted<'_, S>,
    form: Form,
    kind: &str,
    reading: &Reading,
    told: &[u8],
    more: &[Cell],
)
    ensures { Adds out.old out.new (record_text form kind.now
        (begun_cells reading.now.begin reading.now.at (ending_name reading.now.ending) (bits_cells told.now) ++ map plain_of more.now)) }
{
    let cells = cells![
        both("", "begin", Value::One(Piece::Decimal(reading.begin))),
        both(" ", "close", Value::One(Piece::Decimal(reading.at))),
        both(
            " ",
            "ending",
            Value::One(Piece::Bytes(ending_name(reading.ending)))
        ),
        both(" ", "bits", Value::One(Piece::Bytes(told))),
    ];
    add_record_with(out, form, kind, &cells, more);
}

fn is_complete(ending: Ending) -> bool
    ensures { result ≡ is_complete ending }
{
    matches!(ending, Ending::Complete)
}

/// Adds the line of a reading, with more cells after its own, or its object, of which `kind` is the type.
pub fn add_reading_with<S: Sink>(
    out: &mut Counted<'_, S>,
    form: Form,
    kind: &str,
    reading: &Reading,
    more: &[Cell],
)
    ensures { Adds out.old out.new (record_text form kind.now (reading_cells reading.now ++ map plain_of more.now)) }
{
    let told = reading_reported(reading);
    if is_complete(reading.ending) {
        add_complete(
            out,
            form,
            kind,
            reading,
            bytes_of(&reading.frame()),
            &told,
            more,
        );
    } else {
        add_broken(out, form, kind, reading, &told, more);
    }
}
