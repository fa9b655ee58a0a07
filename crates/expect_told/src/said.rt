//! What is told of a reading, and of a round.
ghost use Rattle.std.specs.Prelude.{◌≡◌, ◌++◌, IfOk, OnOk};
ghost use Rattle.std.specs.Option.{option_copied, option_map};
ghost use Rattle.room_trace.specs.TraceText.{error_word};
ghost use Rattle.message_text.specs.ReadingText.{is_complete};
ghost use Rattle.text_core.specs.Adds.{Adds};
ghost use Rattle.text_core.specs.Cut.{WrittenText};
ghost use Rattle.text_core.specs.Held.{held_bytes};
ghost use Rattle.expect_judge.specs.Told.{kept_as};
ghost use Rattle.expect_told.specs.Said.{ending_said, reading_said, reading_told};
ghost use Rattle.expect_told.specs.Turns.{holders_said, sent_said};

use crate::senders::{add_holders, add_senders};
use crate::shown::reading_shown;
use device_core::Device;
use expect_judge::KeptRound;
use line_frames::{Ending, Reading};
use line_rounds::Outcome;
use message_text::{reading_reported, reading_verdict};
use record_core::Form;
use room_event::EventError;
use room_trace::error_word;
use std::alloc::{AllocError, Global};
use text_core::{Counted, Held, Piece, Sink, WriteFault};

fn ending_said(ending: Ending) -> &'static str
    ensures { result.now ≡ ending_said ending }
{
    match ending {
        Ending::Complete => "",
        Ending::Short => "short ",
        Ending::Silent => "silent ",
        Ending::BadStart => "bad-start ",
        Ending::Long => "long ",
        Ending::Open => "open ",
    }
}

/// Whether a reading that ended so is complete.
pub fn is_complete(ending: Ending) -> bool
    ensures { result ≡ is_complete ending }
{
    match ending {
        Ending::Complete => true,
        _ => false,
    }
}

// Adds what was read, and how it was acknowledged.
fn add_read<S: Sink>(out: &mut Counted<'_, S>, reading: &Reading)
    ensures { Adds out.old out.new (reading_said reading.now) }
{
    let reported = reading_reported(reading);
    out.add_line(&[
        Piece::Text(ending_said(reading.ending)),
        Piece::Bytes(&reported),
        Piece::Text(reading_verdict(reading)),
    ]);
}

#[tactic(auto, using(text_core::proofs::Adding::then))]
fn add_sent<S: Sink>(out: &mut Counted<'_, S>, devices: &[Device<16>], outcome: &Outcome)
    ensures { Adds out.old out.new (sent_said devices.now outcome.now) }
{
    add_read(out, &outcome.reading);
    add_senders(out, devices, outcome);
}

// Adds who holds which address, where it is asked for.
#[tactic(auto, using(text_core::proofs::Adding::nothing))]
fn add_held<S: Sink>(out: &mut Counted<'_, S>, named: bool, devices: &[Device<16>])
    ensures { Adds out.old out.new (holders_said named devices.now) }
{
    if !named {
        return;
    }
    add_holders(out, devices);
}

#[tactic(auto, using(text_core::proofs::Adding::then))]
fn add_round<S: Sink>(
    out: &mut Counted<'_, S>,
    named: bool,
    devices: &[Device<16>],
    outcome: &Outcome,
)
    ensures { Adds out.old out.new (sent_said devices.now outcome.now ++ holders_said named devices.now) }
{
    add_sent(out, devices, outcome);
    add_held(out, named, devices);
}

// Writes what the line of a reading says after its times, without the word `complete`. Returns its length.
fn write_read<S: Sink>(out: &mut S, reading: &Reading) -> Result<u128, WriteFault>
    ensures { WrittenText (S.contents out.old) (S.contents out.new) (S.is_stuck out.old) (S.is_stuck out.new) (reading_said reading.now) result }
{
    let mut text = Counted::new(out);
    add_read(&mut text, reading);
    let written = text.written();
    // No effect at run time. The proof reads what `out` holds from the sink that comes back.
    let _below = text.into_sink();
    written
}

// The same of a round, with who sent, and, where it is asked for, who holds which address.
fn write_round<S: Sink>(
    out: &mut S,
    named: bool,
    devices: &[Device<16>],
    outcome: &Outcome,
) -> Result<u128, WriteFault>
    ensures { WrittenText (S.contents out.old) (S.contents out.new) (S.is_stuck out.old) (S.is_stuck out.new) (sent_said devices.now outcome.now ++ holders_said named devices.now) result }
{
    let mut text = Counted::new(out);
    add_round(&mut text, named, devices, outcome);
    let written = text.written();
    // No effect at run time. The proof reads what `out` holds from the sink that comes back.
    let _below = text.into_sink();
    written
}

/// What a round says, in place of what was held.
///
/// # Errors
///
/// Want of memory.
pub fn say_round(
    said: &mut Held,
    named: bool,
    devices: &[Device<16>],
    outcome: &Outcome,
) -> Result<(), AllocError>
    ensures { OnOk result (held_bytes said.new ≡ sent_said devices.now outcome.now ++ holders_said named devices.now) }
{
    said.clear();
    match write_round(said, named, devices, outcome) {
        Ok(_) => Ok(()),
        Err(_) => Err(AllocError),
    }
}

/// The word with which an event is refused.
pub fn refusal_said(refused: Option<EventError>) -> Option<&'static [u8]>
    ensures { option_copied result ≡ option_map error_word refused }
{
    match refused {
        None => None,
        Some(error) => Some(error_word(error).as_bytes()),
    }
}

/// A reading, as a round that is kept, shown in a form.
///
/// # Errors
///
/// Want of memory.
pub fn reading_kept(alloc: Global, form: Form, reading: &Reading) -> Result<KeptRound, AllocError>
    ensures { IfOk result (λ round. kept_as round ≡ reading_told form reading.now) }
{
    let mut said = Held::new(alloc);
    match write_read(&mut said, reading) {
        Ok(_) => {}
        Err(_) => return Err(AllocError),
    }
    let mut reported = Vec::new(alloc);
    reported.extend_from_slice(said.bytes())?;
    let shown = reading_shown(alloc, form, reading)?;
    Ok(KeptRound {
        begin: reading.begin,
        at: reading.at,
        is_complete: is_complete(reading.ending),
        reported,
        shown,
    })
}
