//! The line of a verdict, and its object.
ghost use Rattle.std.specs.Prelude.{◌≡◌, codes};
ghost use Rattle.text_core.specs.Adds.{Adds};
ghost use Rattle.record_core.specs.Records.{record_text};
ghost use Rattle.capture_verdict.specs.Texts.{cells_of, count_cells, frames_cells, glitch_cells, glitch_word, margin_cells, plain_cells, sentence_of, time_cells, turn_cells, verdict_text, word_of};

use crate::verdict::Verdict;
use record_core::{Form, Value, add_record, cells};
use text_core::{Counted, Piece, Sink};

/// What the object of a verdict is called.
const VERDICT: &str = "verdict";

/// So many pulses and gaps are chatter.
const MUCH: u64 = 8;

fn glitch_word(count: u64) -> &'static str
    ensures { result.now ≡ glitch_word count }
{
    if count < MUCH { "glitches" } else { "chatter" }
}

fn word_of(verdict: Verdict) -> &'static str
    ensures { result.now ≡ word_of verdict }
{
    match verdict {
        Verdict::Empty => "empty",
        Verdict::Idle { .. } => "idle",
        Verdict::MidFrame { .. } => "mid-frame",
        Verdict::Fine { .. } => "fine",
        Verdict::Hum { .. } => "other-wire",
        Verdict::Inverted { .. } => "inverted",
        Verdict::Glitches { count, .. } => glitch_word(count),
        Verdict::TimeUnit { .. } => "unit",
        Verdict::Stuck { .. } => "stuck",
        Verdict::Rate { .. } => "rate",
        Verdict::Nearly { .. } => "nearly",
        Verdict::Clock { .. } => "clock",
        Verdict::Bus { .. } => "other-wire",
        Verdict::Short { .. } => "short",
        Verdict::Noise { .. } => "noise",
        Verdict::Odd { .. } => "odd",
    }
}

fn sentence_of(verdict: Verdict) -> &'static str
    ensures { result.now ≡ sentence_of verdict }
{
    match verdict {
        Verdict::Empty => { "the capture has no edge and takes no time" }
        Verdict::Idle { .. } => {
            "the line never falls, nobody speaks or this is another wire, and the capture takes"
        }
        Verdict::MidFrame { .. } => {
            "a CEC line, the capture begins within a frame, frames in order"
        }
        Verdict::Fine { .. } => { "a CEC line, frames in order" }
        Verdict::Hum { .. } => {
            "hum of the mains, the probe does not touch the line or has no ground, from fall to fall"
        }
        Verdict::Inverted { .. } => { "the levels are turned, idle is low" }
        Verdict::Glitches { .. } => { "pulses and gaps that are shorter than any of CEC" }
        Verdict::TimeUnit { .. } => {
            "falls stand as in frames of CEC, times are of another unit, a bit lasts about"
        }
        Verdict::Stuck { .. } => {
            "the line hangs low for longer than any stretch of CEC, for most of the time, in all"
        }
        Verdict::Rate { .. } => {
            "samples are too far apart for CEC, which asks for one each 250 us at least, edges stand at multiples of"
        }
        Verdict::Nearly { .. } => { "times are a little out of the windows of CEC" }
        Verdict::Clock { .. } => {
            "falls stand as in frames of CEC, the clock is off, a bit takes 2050 to 2750 us and here about"
        }
        Verdict::Bus { .. } => {
            "most low stretches are shorter than 100 us, those of CEC 400 at least, as on a faster bus or of noise, low stretches"
        }
        Verdict::Short { .. } => {
            "no block of a frame is read, the capture is short, low stretches"
        }
        Verdict::Noise { .. } => {
            "no block of a frame is read, as on another wire, of noise or at another unit of time, low stretches"
        }
        Verdict::Odd { .. } => {
            "a CEC line on which much is not as the standard has it, frames in order"
        }
    }
}

fn add_plain<S: Sink>(
    out: &mut Counted<'_, S>,
    form: Form,
    word: &'static str,
    sentence: &'static str,
)
    ensures { Adds out.old out.new (record_text form (codes "verdict") (plain_cells word.now sentence.now)) }
{
    let cells = cells![
        both("verdict ", "word", Value::One(Piece::Text(word))),
        both(": ", "sentence", Value::One(Piece::Text(sentence))),
        hidden("in_order", Value::Nothing),
        hidden("frames", Value::Nothing),
        hidden("micros", Value::Nothing),
        hidden("count", Value::Nothing),
        hidden("hint", Value::Nothing),
        hidden("value", Value::Nothing),
        hidden("more", Value::Nothing),
    ];
    add_record(out, form, VERDICT, &cells);
}

fn add_frames<S: Sink>(
    out: &mut Counted<'_, S>,
    form: Form,
    word: &'static str,
    sentence: &'static str,
    in_order: u64,
    frames: u64,
)
    ensures { Adds out.old out.new (record_text form (codes "verdict") (frames_cells word.now sentence.now in_order frames)) }
{
    let cells = cells![
        both("verdict ", "word", Value::One(Piece::Text(word))),
        both(": ", "sentence", Value::One(Piece::Text(sentence))),
        both(": ", "in_order", Value::One(Piece::Decimal(in_order))),
        both(" of ", "frames", Value::One(Piece::Decimal(frames))),
        hidden("micros", Value::Nothing),
        hidden("count", Value::Nothing),
        hidden("hint", Value::Nothing),
        hidden("value", Value::Nothing),
        hidden("more", Value::Nothing),
    ];
    add_record(out, form, VERDICT, &cells);
}

fn add_time<S: Sink>(
    out: &mut Counted<'_, S>,
    form: Form,
    word: &'static str,
    sentence: &'static str,
    micros: u64,
)
    ensures { Adds out.old out.new (record_text form (codes "verdict") (time_cells word.now sentence.now micros)) }
{
    let cells = cells![
        both("verdict ", "word", Value::One(Piece::Text(word))),
        both(": ", "sentence", Value::One(Piece::Text(sentence))),
        hidden("in_order", Value::Nothing),
        hidden("frames", Value::Nothing),
        both(" ", "micros", Value::One(Piece::Decimal(micros))),
        line(" us", Value::Nothing),
        hidden("count", Value::Nothing),
        hidden("hint", Value::Nothing),
        hidden("value", Value::Nothing),
        hidden("more", Value::Nothing),
    ];
    add_record(out, form, VERDICT, &cells);
}

fn add_count<S: Sink>(
    out: &mut Counted<'_, S>,
    form: Form,
    word: &'static str,
    sentence: &'static str,
    count: u64,
)
    ensures { Adds out.old out.new (record_text form (codes "verdict") (count_cells word.now sentence.now count)) }
{
    let cells = cells![
        both("verdict ", "word", Value::One(Piece::Text(word))),
        both(": ", "sentence", Value::One(Piece::Text(sentence))),
        hidden("in_order", Value::Nothing),
        hidden("frames", Value::Nothing),
        hidden("micros", Value::Nothing),
        both(": ", "count", Value::One(Piece::Decimal(count))),
        hidden("hint", Value::Nothing),
        hidden("value", Value::Nothing),
        hidden("more", Value::Nothing),
    ];
    add_record(out, form, VERDICT, &cells);
}

fn add_turn<S: Sink>(
    out: &mut Counted<'_, S>,
    form: Form,
    word: &'static str,
    sentence: &'static str,
    more: u64,
)
    ensures { Adds out.old out.new (record_text form (codes "verdict") (turn_cells word.now sentence.now more)) }
{
    let cells = cells![
        both("verdict ", "word", Value::One(Piece::Text(word))),
        both(": ", "sentence", Value::One(Piece::Text(sentence))),
        hidden("in_order", Value::Nothing),
        hidden("frames", Value::Nothing),
        hidden("micros", Value::Nothing),
        hidden("count", Value::Nothing),
        both(
            ", more frames with ",
            "hint",
            Value::One(Piece::Text("--invert"))
        ),
        hidden("value", Value::Nothing),
        both(": ", "more", Value::One(Piece::Decimal(more))),
    ];
    add_record(out, form, VERDICT, &cells);
}

fn add_glitch<S: Sink>(
    out: &mut Counted<'_, S>,
    form: Form,
    word: &'static str,
    sentence: &'static str,
    count: u64,
    glitch: u64,
    more: u64,
)
    ensures { Adds out.old out.new (record_text form (codes "verdict") (glitch_cells word.now sentence.now count glitch more)) }
{
    let cells = cells![
        both("verdict ", "word", Value::One(Piece::Text(word))),
        both(": ", "sentence", Value::One(Piece::Text(sentence))),
        hidden("in_order", Value::Nothing),
        hidden("frames", Value::Nothing),
        hidden("micros", Value::Nothing),
        both(": ", "count", Value::One(Piece::Decimal(count))),
        both(
            ", more frames with ",
            "hint",
            Value::One(Piece::Text("--glitch"))
        ),
        both(" ", "value", Value::One(Piece::Decimal(glitch))),
        both(": ", "more", Value::One(Piece::Decimal(more))),
    ];
    add_record(out, form, VERDICT, &cells);
}

fn add_margin<S: Sink>(
    out: &mut Counted<'_, S>,
    form: Form,
    word: &'static str,
    sentence: &'static str,
    margin: u64,
    more: u64,
)
    ensures { Adds out.old out.new (record_text form (codes "verdict") (margin_cells word.now sentence.now margin more)) }
{
    let cells = cells![
        both("verdict ", "word", Value::One(Piece::Text(word))),
        both(": ", "sentence", Value::One(Piece::Text(sentence))),
        hidden("in_order", Value::Nothing),
        hidden("frames", Value::Nothing),
        hidden("micros", Value::Nothing),
        hidden("count", Value::Nothing),
        both(
            ", more frames with ",
            "hint",
            Value::One(Piece::Text("--margin"))
        ),
        both(" ", "value", Value::One(Piece::Decimal(margin))),
        both(": ", "more", Value::One(Piece::Decimal(more))),
    ];
    add_record(out, form, VERDICT, &cells);
}

// By its word and its sentence.
fn add_by<S: Sink>(
    out: &mut Counted<'_, S>,
    form: Form,
    verdict: Verdict,
    word: &'static str,
    sentence: &'static str,
)
    ensures { Adds out.old out.new (record_text form (codes "verdict") (cells_of verdict word.now sentence.now)) }
{
    match verdict {
        Verdict::Empty => add_plain(out, form, word, sentence),
        Verdict::Idle { end } => add_time(out, form, word, sentence, end),
        Verdict::MidFrame { frames, in_order } => add_frames(
            out, form, word, sentence, in_order, frames,
        ),
        Verdict::Fine { frames, in_order } => add_frames(
            out, form, word, sentence, in_order, frames,
        ),
        Verdict::Hum { period } => add_time(out, form, word, sentence, period),
        Verdict::Inverted { more } => add_turn(out, form, word, sentence, more),
        Verdict::Glitches {
            count,
            glitch,
            more,
        } => add_glitch(out, form, word, sentence, count, glitch, more),
        Verdict::TimeUnit { period } => add_time(out, form, word, sentence, period),
        Verdict::Stuck { low } => add_time(out, form, word, sentence, low),
        Verdict::Rate { period } => add_time(out, form, word, sentence, period),
        Verdict::Nearly { margin, more } => add_margin(out, form, word, sentence, margin, more),
        Verdict::Clock { period } => add_time(out, form, word, sentence, period),
        Verdict::Bus { lows } => add_count(out, form, word, sentence, lows),
        Verdict::Short { lows } => add_count(out, form, word, sentence, lows),
        Verdict::Noise { lows } => add_count(out, form, word, sentence, lows),
        Verdict::Odd { frames, in_order } => add_frames(
            out, form, word, sentence, in_order, frames,
        ),
    }
}

/// Adds the line of a verdict, or its object.
pub fn add_verdict<S: Sink>(out: &mut Counted<'_, S>, form: Form, verdict: Verdict)
    ensures { Adds out.old out.new (verdict_text form verdict) }
{
    add_by(out, form, verdict, word_of(verdict), sentence_of(verdict));
}
