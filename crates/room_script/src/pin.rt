//! The lines of a device's own pin.
ghost use Rattle.std.specs.Prelude.{◌≡◌, ◌+◌, max, min, OnErr};
ghost use Rattle.line_wave.specs.Bounds.{latest_event};
ghost use Rattle.room_script.specs.Script.{is_before, notes_of, notes_with_level, pin_falls, pin_rises, pin_stays_high, pin_stays_low, GivesNotes};

use crate::script::{ScriptCause, ScriptDraft, ScriptLineError, last_end, touches};
use line_wave::{LATEST_EVENT, MOST_PULLS, Stretch};
use text_core::at_word;

/// The pull of a pin that the end lets go.
pub(crate) fn end_pull(from: u64, end: u64) -> Stretch
    ensures { result ≡ record { from = from; to = max end (min from latest_event + 1) } }
{
    let to = end.max(from.min(LATEST_EVENT) + 1);
    Stretch { from, to }
}

/// Whether an instant lies before an end.
fn is_before(end: Option<u64>, time: u64) -> bool
    ensures { result ≡ is_before end time }
{
    match end {
        None => false,
        Some(end) => time < end,
    }
}

/// Takes the fall of a pin that is high.
fn take_fall(draft: &mut ScriptDraft, waiting: usize, time: u64) -> Result<(), ScriptLineError>
    ensures gives { GivesNotes (notes_of draft.new) result (pin_falls (notes_of draft.old) waiting time) }
    ensures kept { OnErr result (notes_of draft.new ≡ notes_of draft.old) }
{
    if touches(last_end(&draft.pulses), time) {
        return Err(ScriptLineError::Fault(at_word(1, ScriptCause::Order)));
    }
    if waiting >= MOST_PULLS {
        return Err(ScriptLineError::Fault(at_word(0, ScriptCause::TooMany)));
    }
    if draft.end.is_some() {
        return Err(ScriptLineError::Fault(at_word(0, ScriptCause::End)));
    }
    draft.pin = Some(time);
    Ok(())
}

/// Takes the level of a pin that is high, and stays so.
fn take_high(draft: &ScriptDraft, time: u64) -> Result<(), ScriptLineError>
    ensures { GivesNotes (notes_of draft.now) result (pin_stays_high (notes_of draft.now) time) }
{
    if is_before(last_end(&draft.pulses), time) {
        return Err(ScriptLineError::Fault(at_word(1, ScriptCause::Order)));
    }
    if draft.end.is_some() {
        return Err(ScriptLineError::Fault(at_word(0, ScriptCause::End)));
    }
    Ok(())
}

/// Takes the rise of a pin that is low from an instant on.
fn take_rise(draft: &mut ScriptDraft, from: u64, time: u64) -> Result<(), ScriptLineError>
    ensures gives { GivesNotes (notes_of draft.new) result (pin_rises (notes_of draft.old) from time) }
    ensures kept { OnErr result (notes_of draft.new ≡ notes_of draft.old) }
{
    if time <= from {
        return Err(ScriptLineError::Fault(at_word(1, ScriptCause::Order)));
    }
    draft.pulses.push(Stretch { from, to: time })?;
    draft.pin = None;
    Ok(())
}

/// Takes the level of a pin that is low from an instant on, and stays so.
fn take_low(draft: &ScriptDraft, from: u64, time: u64) -> Result<(), ScriptLineError>
    ensures { GivesNotes (notes_of draft.now) result (pin_stays_low (notes_of draft.now) from time) }
{
    if time < from {
        return Err(ScriptLineError::Fault(at_word(1, ScriptCause::Order)));
    }
    Ok(())
}

/// Takes a level of the pin.
pub(crate) fn take_level(
    draft: &mut ScriptDraft,
    waiting: usize,
    time: u64,
    level: bool,
) -> Result<(), ScriptLineError>
    ensures gives { GivesNotes (notes_of draft.new) result (notes_with_level (notes_of draft.old) waiting time draft.old.pin level) }
    ensures kept { OnErr result (notes_of draft.new ≡ notes_of draft.old) }
{
    match draft.pin {
        None if level => take_high(draft, time),
        None => take_fall(draft, waiting, time),
        Some(from) if level => take_rise(draft, from, time),
        Some(from) => take_low(draft, from, time),
    }
}
