//! What stands of a round, and of a reading, below a test that failed: its line as a remark, or the object of that.
ghost use Rattle.std.specs.Prelude.{◌≡◌, ◌++◌, codes, IfOk, OnOk};
ghost use Rattle.reading_record.specs.Reading.{reading_cells};
ghost use Rattle.record_core.specs.Records.{record_text};
ghost use Rattle.room_trace.specs.Records.{round_text};
ghost use Rattle.text_core.specs.Adds.{Adds};
ghost use Rattle.text_core.specs.Cut.{WrittenText};
ghost use Rattle.expect_told.specs.Shown.{after_mark, mark, marked, reading_shown, round_shown};

use device_core::Device;
use line_frames::Reading;
use line_rounds::Outcome;
use reading_record::add_reading_with;
use record_core::Form;
use room_trace::add_round;
use std::alloc::{AllocError, Global};
use text_core::{Counted, Held, Sink, WriteFault, after};

/// How many bytes of an object stand before its line.
const BEFORE_LINE: usize = 9;

fn mark(form: Form) -> &'static [u8]
    ensures { result.now ≡ mark form }
{
    match form {
        Form::Text => b"# ",
        Form::Json => b"{\"line\":\"# ",
    }
}

// What stands after the mark.
fn after_mark(form: Form, text: &[u8]) -> &[u8]
    ensures { result.now ≡ after_mark form text.now }
{
    match form {
        Form::Text => text,
        Form::Json => after(text, BEFORE_LINE),
    }
}

/// Appends the line of a record as a remark, or the object of that.
///
/// # Errors
///
/// Want of memory.
pub fn push_marked(out: &mut Vec<u8>, form: Form, text: &[u8]) -> Result<(), AllocError>
    ensures { OnOk result (out.new.items ≡ out.old.items ++ marked form text.now) }
{
    out.extend_from_slice(mark(form))?;
    out.extend_from_slice(after_mark(form, text))?;
    Ok(())
}

/// The line of a record as a remark, or the object of that.
///
/// # Errors
///
/// Want of memory.
pub fn marked(alloc: Global, form: Form, text: &[u8]) -> Result<Vec<u8>, AllocError>
    ensures { IfOk result (λ remark. remark.items ≡ marked form text.now) }
{
    let mut remark = Vec::new(alloc);
    push_marked(&mut remark, form, text)?;
    Ok(remark)
}

// Adds the line of a reading, or its object.
fn add_reading<S: Sink>(out: &mut Counted<'_, S>, form: Form, reading: &Reading)
    ensures { Adds out.old out.new (record_text form (codes "reading") (reading_cells reading.now)) }
{
    add_reading_with(out, form, "reading", reading, &[]);
}

fn write_round<S: Sink>(
    out: &mut S,
    form: Form,
    devices: &[Device<16>],
    outcome: &Outcome,
) -> Result<u128, WriteFault>
    ensures { WrittenText (S.contents out.old) (S.contents out.new) (S.is_stuck out.old) (S.is_stuck out.new) (round_text form devices.now outcome.now) result }
{
    let mut text = Counted::new(out);
    add_round(&mut text, form, devices, outcome);
    let written = text.written();
    // No effect at run time. The proof reads what `out` holds from the sink that comes back.
    let _below = text.into_sink();
    written
}

fn write_reading<S: Sink>(out: &mut S, form: Form, reading: &Reading) -> Result<u128, WriteFault>
    ensures { WrittenText (S.contents out.old) (S.contents out.new) (S.is_stuck out.old) (S.is_stuck out.new) (record_text form (codes "reading") (reading_cells reading.now)) result }
{
    let mut text = Counted::new(out);
    add_reading(&mut text, form, reading);
    let written = text.written();
    // No effect at run time. The proof reads what `out` holds from the sink that comes back.
    let _below = text.into_sink();
    written
}

/// What stands of a round below a test that failed.
///
/// # Errors
///
/// Want of memory.
pub fn round_shown(
    alloc: Global,
    form: Form,
    devices: &[Device<16>],
    outcome: &Outcome,
) -> Result<Vec<u8>, AllocError>
    ensures { IfOk result (λ remark. remark.items ≡ round_shown form devices.now outcome.now) }
{
    let mut text = Held::new(alloc);
    match write_round(&mut text, form, devices, outcome) {
        Ok(_) => {}
        Err(_) => return Err(AllocError),
    }
    let shown = marked(alloc, form, text.bytes())?;
    Ok(shown)
}

/// The same of a reading.
///
/// # Errors
///
/// Want of memory.
pub fn reading_shown(alloc: Global, form: Form, reading: &Reading) -> Result<Vec<u8>, AllocError>
    ensures { IfOk result (λ remark. remark.items ≡ reading_shown form reading.now) }
{
    let mut text = Held::new(alloc);
    match write_reading(&mut text, form, reading) {
        Ok(_) => {}
        Err(_) => return Err(AllocError),
    }
    let shown = marked(alloc, form, text.bytes())?;
    Ok(shown)
}
